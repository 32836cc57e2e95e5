//! Why an archive isn't opened or founded, and why an entry isn't read.
ghost use Rattle.std.specs.Prelude.{◌≡◌};
ghost use Rattle.archive_log.specs.declared.fault.StartFault.TheVariants.{OutOfMemory as no_memory};

use archive_journal::{InitFault, ReadFault, RecoverFault};
use exact_time::OutOfMemory;
use std::error::Error;
use std::fmt;

/// Why a disk wasn't opened as an archive.
#[derive(Clone, Copy, Debug, PartialEq, Eq)]
pub enum StartFault {
    /// The disk failed.
    DiskFault,
    /// The file has fewer than 17 bytes, or another magic.
    NotAJournal,
    /// At this offset the gate is missing, or is open before a length that can't be, or before a payload that isn't
    /// the spelling of the next lawful entry; or there is no entry, and this is 16, where the first gate stands.
    Damaged(u64),
    /// Memory ran out.
    OutOfMemory,
}

impl fmt::Display for StartFault {
    fn fmt<W: fmt::Write>(&self, f: &mut fmt::Formatter<W>) -> fmt::Result {
        match self {
            StartFault::DiskFault => f.write_str("the disk failed"),
            StartFault::NotAJournal => f.write_str("not a journal"),
            StartFault::Damaged(at) => write!(f, "journal damaged at {at}"),
            StartFault::OutOfMemory => f.write_str("out of memory"),
        }
    }
}

impl Error for StartFault {}

impl From<OutOfMemory> for StartFault {
    ghost from_gives = { λ _ fault. fault ≡ no_memory };

    fn from(_error: OutOfMemory) -> StartFault {
        StartFault::OutOfMemory
    }
}

impl From<ReadFault> for StartFault {
    ghost use Rattle.archive_log.specs.Opening.{from_read};

    ghost from_gives = { λ fault started. started ≡ from_read fault };

    fn from(fault: ReadFault) -> StartFault {
        match fault {
            ReadFault::DiskFault => StartFault::DiskFault,
            ReadFault::OutOfMemory => StartFault::OutOfMemory,
        }
    }
}

impl From<RecoverFault> for StartFault {
    ghost use Rattle.archive_log.specs.Opening.{from_recover};

    ghost from_gives = { λ fault started. started ≡ from_recover fault };

    fn from(fault: RecoverFault) -> StartFault {
        match fault {
            RecoverFault::DiskFault => StartFault::DiskFault,
            RecoverFault::NotAJournal => StartFault::NotAJournal,
            RecoverFault::Damaged(at) => StartFault::Damaged(at),
            RecoverFault::OutOfMemory => StartFault::OutOfMemory,
        }
    }
}

/// Why no archive was founded.
#[derive(Clone, Copy, Debug, PartialEq, Eq)]
pub enum FoundFault {
    /// The disk failed.
    DiskFault,
    /// The file has bytes already, so many.
    NotEmpty(u64),
    /// Memory ran out.
    OutOfMemory,
}

impl fmt::Display for FoundFault {
    fn fmt<W: fmt::Write>(&self, f: &mut fmt::Formatter<W>) -> fmt::Result {
        match self {
            FoundFault::DiskFault => f.write_str("the disk failed"),
            FoundFault::NotEmpty(length) => write!(f, "the file has {length} bytes"),
            FoundFault::OutOfMemory => f.write_str("out of memory"),
        }
    }
}

impl Error for FoundFault {}

impl From<InitFault> for FoundFault {
    ghost use Rattle.archive_log.specs.Founding.{from_init};

    ghost from_gives = { λ fault found. found ≡ from_init fault };

    fn from(fault: InitFault) -> FoundFault {
        match fault {
            InitFault::DiskFault => FoundFault::DiskFault,
            InitFault::NotEmpty(length) => FoundFault::NotEmpty(length),
        }
    }
}

/// Why an entry wasn't read.
#[derive(Clone, Copy, Debug, PartialEq, Eq)]
pub enum EntryReadFault {
    /// The disk failed.
    DiskFault,
    /// What is read spells no entry: the file was changed by others. A disk that tells what it holds gives the entry.
    NotAnEntry,
    /// Memory ran out.
    OutOfMemory,
}

impl fmt::Display for EntryReadFault {
    fn fmt<W: fmt::Write>(&self, f: &mut fmt::Formatter<W>) -> fmt::Result {
        match self {
            EntryReadFault::DiskFault => f.write_str("the disk failed"),
            EntryReadFault::NotAnEntry => f.write_str("not an entry"),
            EntryReadFault::OutOfMemory => f.write_str("out of memory"),
        }
    }
}

impl Error for EntryReadFault {}

impl From<ReadFault> for EntryReadFault {
    ghost use Rattle.archive_log.specs.Opening.{told_of_read};

    ghost from_gives = { λ fault told. told ≡ told_of_read fault };

    fn from(fault: ReadFault) -> EntryReadFault {
        match fault {
            ReadFault::DiskFault => EntryReadFault::DiskFault,
            ReadFault::OutOfMemory => EntryReadFault::OutOfMemory,
        }
    }
}
