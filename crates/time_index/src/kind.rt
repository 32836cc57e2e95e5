//! By what the spans of a channel are kept apart.
use exact_time::Ratio;
use mseed_header::Quality;

/// A quality and a rate: rows that differ in one of them are in no span together.
#[derive(Clone, Copy, Debug, PartialEq, Eq, PartialOrd, Ord)]
pub struct Kind {
    pub quality: Quality,
    pub rate: Ratio,
}
