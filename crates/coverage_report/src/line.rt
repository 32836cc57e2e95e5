use channel_globs::Nslc;
use exact_time::Moment;

/// How much of a day of a channel is covered.
#[derive(Clone, Copy, Debug)]
pub struct Line {
    /// The channel.
    pub name: Nslc,
    /// Where the day begins.
    pub day: Moment,
    /// How many microseconds of it are covered.
    pub covered: u64,
}
