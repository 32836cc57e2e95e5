use channel_globs::Nslc;
use exact_time::{Moment, Ratio, SampleTime};
use mseed_header::Quality;

/// A span of rows of one name, quality and rate, each of which starts up to half a sample period behind what
/// an earlier one reaches.
#[derive(Clone, Copy, Debug)]
pub struct Span {
    pub name: Nslc,
    pub quality: Quality,
    pub rate: Ratio,
    /// The least start.
    pub start: Moment,
    /// The greatest time after a last sample. Of equal times it is the one with the most samples behind its
    /// start.
    pub next: SampleTime,
    /// The greatest time of a last sample.
    pub last: SampleTime,
    /// The greatest moment of an entry.
    pub updated: Moment,
    /// How many rows there are.
    pub rows: u64,
}
