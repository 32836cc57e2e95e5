//! Which image of a disk in memory is asked for.

/// An image of the present moment.
#[derive(Clone, Copy, Debug, PartialEq, Eq)]
pub enum Choice {
    /// The file at the last sync.
    Old,
    /// The file as it reads.
    New,
    /// The file as it reads, with each byte that a crash may change set to this one.
    Fill(u8),
}
