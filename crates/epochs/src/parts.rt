//! What fields of revision lines hold beside codes, moments and numbers, and fields that stand together.
use channel_globs::PatternList;
use exact_time::{Decimal, Moment, Text};

/// A list of patterns, as it was written and as it was read.
#[derive(Debug, Drop)]
pub struct Glob {
    pub text: Text,
    pub list: PatternList,
}

/// What a user may do.
#[derive(Clone, Copy, Debug, PartialEq, Eq)]
pub struct Roles {
    pub reader: bool,
    pub feed: bool,
    pub operator: bool,
    pub replica: bool,
}

/// The pattern lists of the four codes.
#[derive(Debug, Drop)]
pub struct Globs {
    pub network: Glob,
    pub station: Glob,
    pub location: Glob,
    pub channel: Glob,
}

/// When an epoch starts, and when it ends, if it does.
#[derive(Clone, Copy, Debug, PartialEq, Eq)]
pub struct EpochTimes {
    pub start: Moment,
    pub end: Option<Moment>,
}

/// Where a station or a sensor stands: degrees, and metres above the sea.
#[derive(Clone, Copy, Debug, PartialEq, Eq)]
pub struct Position {
    pub latitude: Decimal,
    pub longitude: Decimal,
    pub elevation: Decimal,
}

/// How a sensor stands: metres below the surface, degrees, and its description.
#[derive(Debug, Drop)]
pub struct Sensor {
    pub depth: Decimal,
    pub azimuth: Option<Decimal>,
    pub dip: Option<Decimal>,
    pub sensor: Text,
}

/// What a sensor's samples mean: the scale, its frequency in Hz and its units, and the sample rate in Hz.
#[derive(Debug, Drop)]
pub struct Response {
    pub scale: Option<Decimal>,
    pub scale_freq: Option<Decimal>,
    pub scale_units: Text,
    pub sample_rate: Decimal,
}

/// Where an event was: degrees, and kilometres below the surface.
#[derive(Clone, Copy, Debug, PartialEq, Eq)]
pub struct Hypocentre {
    pub latitude: Decimal,
    pub longitude: Decimal,
    pub depth: Option<Decimal>,
}

/// Who told of an event.
#[derive(Debug, Drop)]
pub struct Attribution {
    pub author: Text,
    pub catalog: Text,
    pub contributor: Text,
    pub contributor_id: Text,
}

/// How great an event was, who says so, and the name of its place.
#[derive(Debug, Drop)]
pub struct Magnitude {
    pub kind: Text,
    pub magnitude: Option<Decimal>,
    pub author: Text,
    pub location: Text,
}
