//! Time spans of records, and what a selection keeps of them.
use channel_globs::Nslc;
use exact_time::{Moment, Ratio};
use mseed_header::Quality;

/// What the records of a span have in common. A quality or rate that is merged is absent.
#[derive(Clone, Copy, Debug, PartialEq, Eq, PartialOrd, Ord)]
pub struct Group {
    pub name: Nslc,
    pub quality: Option<Quality>,
    pub rate: Option<Ratio>,
}

/// A time span of records of one group, each of which follows on others.
#[derive(Clone, Copy, Debug)]
pub struct TimeSpan {
    pub group: Group,
    /// The least start of its records.
    pub start: Moment,
    /// The greatest time of a last sample, rounded down to a microsecond.
    pub last: Moment,
    /// The greatest moment at which one of its records came.
    pub updated: Moment,
    /// Whether a restriction touches one of its records.
    pub restricted: bool,
}

/// What a selection keeps of one span, or of all the spans of one group.
#[derive(Clone, Copy, Debug)]
pub struct Window {
    pub group: Group,
    pub earliest: Moment,
    pub latest: Moment,
    pub updated: Moment,
    /// How many spans are kept in it.
    pub spans: u64,
    pub restricted: bool,
}
