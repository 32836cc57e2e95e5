//! A window of time.
use exact_time::Moment;

/// The time from one moment to another, both in it, in microseconds.
#[derive(Clone, Copy, Debug, PartialEq, Eq)]
pub struct Window {
    pub start: Moment,
    /// Not before the start, wherever a window is asked for.
    pub end: Moment,
}
