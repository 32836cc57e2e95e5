//! How `coverage` ends.

/// One of the two words that name days.
#[derive(Clone, Copy, Debug, PartialEq, Eq)]
pub enum DayWord {
    Start,
    End,
}

/// Why the words and the file give no report: these determine it.
#[derive(Clone, Copy, Debug, PartialEq, Eq)]
pub enum CoverageRefusal {
    /// The value of this word can't be read, or the last day is too late.
    Value(DayWord),
    /// The first day is after the last.
    Order,
    /// Nothing of these days is covered.
    NoData,
    /// The report has more lines than the limit.
    TooManyLines { lines: u64, limit: u64 },
    /// The disk's file has fewer than 17 bytes, or another magic.
    NotAJournal,
    /// The journal is damaged at this offset.
    Damaged(u64),
}

/// Why `coverage` stopped before it was done.
#[derive(Clone, Copy, Debug, PartialEq, Eq)]
pub enum CoverageStop {
    Refused(CoverageRefusal),
    /// The sink failed.
    WriteFault,
    /// The disk failed: the archive wasn't opened.
    DiskFault,
    OutOfMemory,
}
