//! Entries.
use exact_time::{Bytes, Moment, Text};

/// What an entry brings.
#[derive(Clone, Copy, Debug, PartialEq, Eq)]
pub enum Kind {
    /// Records, end to end.
    Batch,
    /// Lines of a revision.
    Revise,
}

/// An entry of an archive. Which of them have a spelling is `IsEntry` of `specs/Spelling.antt`.
#[derive(Debug, Drop)]
pub struct Entry {
    /// Its number in the history, from 1 on.
    pub number: u64,
    /// When it was taken.
    pub moment: Moment,
    /// The name of the user who brought it.
    pub author: Text,
    /// Its number among those of its author.
    pub seq: u64,
    pub kind: Kind,
    pub body: Bytes,
}
