//! Why bytes are no entry.
use exact_time::OutOfMemory;
use std::error::Error;
use std::fmt;

/// Why a payload is no entry.
#[derive(Clone, Copy, Debug, PartialEq, Eq)]
pub enum EntryFault {
    /// The field that begins at this offset, in bytes, is the first that can't stand there.
    Bad { at: usize },
    OutOfMemory,
}

impl fmt::Display for EntryFault {
    fn fmt<W: fmt::Write>(&self, f: &mut fmt::Formatter<W>) -> fmt::Result {
        match self {
            EntryFault::Bad { at } => write!(f, "entry: bad field at offset {at}"),
            EntryFault::OutOfMemory => f.write_str("out of memory"),
        }
    }
}

impl Error for EntryFault {}

/// Why a field isn't read.
#[derive(Clone, Copy, Debug, PartialEq, Eq)]
pub enum Unread {
    /// So many bytes are left where the first field begins that can't stand there.
    Bad(usize),
    OutOfMemory,
}

impl From<OutOfMemory> for Unread {
    ghost use Rattle.std.specs.Prelude.{◌≡◌};
    ghost use Rattle.archive_entry.specs.declared.fault.Unread.TheVariants.{OutOfMemory as NoMemory};

    ghost from_gives = { λ _ e. e ≡ NoMemory };

    fn from(_error: OutOfMemory) -> Unread {
        Unread::OutOfMemory
    }
}
