//! What calls did to a disk in memory.

use exact_time::Bytes;

/// What a call did to the disk.
#[derive(Debug, Drop)]
pub enum Change {
    /// It wrote these bytes.
    Wrote { at: usize, bytes: Bytes },
    /// It failed, and may have written any part of so many bytes.
    Tore { at: usize, len: usize },
    /// It cut the file to this length.
    Cut { len: usize },
    /// It synced the file.
    Synced,
}

/// A change, and the time right after it.
#[derive(Debug, Drop)]
pub(crate) struct Step {
    pub(crate) change: Change,
    pub(crate) moment: u64,
}
