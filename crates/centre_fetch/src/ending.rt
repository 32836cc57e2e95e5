//! How `fetch` ends.
use centre_select::Word;

/// Why the words and what was heard give no body: these determine it.
#[derive(Clone, Copy, Debug, PartialEq, Eq)]
pub enum FetchRefusal {
    /// The value of this word can't be read.
    Value(Word),
    /// The start is after the end.
    Order,
    /// All windows were answered, with no record.
    NoData,
    /// The records have more bytes than the limit.
    TooLarge { bytes: u64, limit: u64 },
    /// The data centre answered this status: neither 200 nor 204, nor a 413 for a window of more than one moment.
    Peer(u16),
    /// No reply, one without a front, or one whose body isn't records.
    BadReply,
    /// The last round ended at a lost connection.
    Lost,
    /// The last round's answers had these fronts in neighbours.
    Moved(u64, u64),
    /// A round had as many requests as one may have, and a window was left.
    Requests,
}

/// Why `fetch` stopped before it was done.
#[derive(Clone, Copy, Debug, PartialEq, Eq)]
pub enum FetchStop {
    Refused(FetchRefusal),
    /// The sink failed.
    WriteFault,
    /// The port failed.
    PortFault,
    /// The port gave no further link.
    NoLink,
    OutOfMemory,
}
