//! What became of one request of a session.
use exact_time::Moment;

/// The turn of one request: which history it was answered over, and when.
#[derive(Clone, Copy, Debug, PartialEq, Eq)]
pub struct Turn {
    /// The number of entries of the history that the reply speaks of.
    pub front: u64,
    /// When the request was answered.
    pub moment: Moment,
    /// The number of the entry that the request added, which is then the last one of that history.
    pub entry: Option<u64>,
    /// Whether memory ran out: the reply is the fixed one of 500.
    pub short: bool,
}
