use crate::parts::Globs;
use channel_globs::{Code, Nslc};
use exact_time::{Moment, Text};

/// What makes two lines statements on one thing, of which the later stands. The pattern lists of two
/// keys are compared as they were written.
#[derive(Debug, Drop)]
pub enum Key {
    Net {
        network: Code,
        start: Moment,
    },
    Sta {
        network: Code,
        station: Code,
        start: Moment,
    },
    Cha {
        name: Nslc,
        start: Moment,
    },
    Evt {
        id: Text,
    },
    Rst {
        channels: Globs,
        start: Moment,
    },
    Grt {
        user: Text,
        channels: Globs,
        start: Moment,
    },
    Usr {
        name: Text,
    },
    Wdr {
        channels: Globs,
        start: Moment,
    },
}
