//! Why a journal's calls end early.
ghost use Rattle.std.specs.Prelude.{◌≡◌};
ghost use Rattle.archive_journal.specs.declared.fault.InitFault.TheVariants.{DiskFault as init_disk_fault};
ghost use Rattle.archive_journal.specs.declared.fault.RecoverFault.TheVariants.{DiskFault as recover_disk_fault, OutOfMemory as recover_out_of_memory};
ghost use Rattle.archive_journal.specs.declared.fault.ReadFault.TheVariants.{DiskFault as read_disk_fault, OutOfMemory as read_out_of_memory};

use exact_time::{Failed, OutOfMemory};
use std::alloc::{AllocError, AllocFailed};
use std::error::Error;
use std::fmt;

/// The disk failed, or an earlier commit stopped the journal.
#[derive(Clone, Copy, Debug, PartialEq, Eq)]
pub struct DiskFault;

impl fmt::Display for DiskFault {
    fn fmt<W: fmt::Write>(&self, f: &mut fmt::Formatter<W>) -> fmt::Result {
        f.write_str("the disk failed")
    }
}

impl Error for DiskFault {}

impl From<Failed> for DiskFault {
    fn from(_failed: Failed) -> DiskFault {
        DiskFault
    }
}

/// Why no journal was made.
#[derive(Clone, Copy, Debug, PartialEq, Eq)]
pub enum InitFault {
    /// The disk failed.
    DiskFault,
    /// The file has bytes already, so many.
    NotEmpty(u64),
}

impl fmt::Display for InitFault {
    fn fmt<W: fmt::Write>(&self, f: &mut fmt::Formatter<W>) -> fmt::Result {
        match self {
            InitFault::DiskFault => f.write_str("the disk failed"),
            InitFault::NotEmpty(length) => write!(f, "the file has {length} bytes"),
        }
    }
}

impl Error for InitFault {}

impl From<Failed> for InitFault {
    ghost from_gives = { λ _ fault. fault ≡ init_disk_fault };

    fn from(_failed: Failed) -> InitFault {
        InitFault::DiskFault
    }
}

/// Why a file wasn't opened as a journal.
#[derive(Clone, Copy, Debug, PartialEq, Eq)]
pub enum RecoverFault {
    /// The disk failed.
    DiskFault,
    /// The file has fewer than 17 bytes, or another magic.
    NotAJournal,
    /// At this offset the gate is missing, or is open and its length is 0, over the limit or past the
    /// end of the file.
    Damaged(u64),
    /// Memory ran out.
    OutOfMemory,
}

impl fmt::Display for RecoverFault {
    fn fmt<W: fmt::Write>(&self, f: &mut fmt::Formatter<W>) -> fmt::Result {
        match self {
            RecoverFault::DiskFault => f.write_str("the disk failed"),
            RecoverFault::NotAJournal => f.write_str("not a journal"),
            RecoverFault::Damaged(at) => write!(f, "journal damaged at {at}"),
            RecoverFault::OutOfMemory => f.write_str("out of memory"),
        }
    }
}

impl Error for RecoverFault {}

impl From<Failed> for RecoverFault {
    ghost from_gives = { λ _ fault. fault ≡ recover_disk_fault };

    fn from(_failed: Failed) -> RecoverFault {
        RecoverFault::DiskFault
    }
}

impl<T: Drop> From<AllocFailed<T>> for RecoverFault {
    ghost from_gives = { λ _ fault. fault ≡ recover_out_of_memory };

    fn from(_error: AllocFailed<T>) -> RecoverFault {
        RecoverFault::OutOfMemory
    }
}

/// Why a payload wasn't read.
#[derive(Clone, Copy, Debug, PartialEq, Eq)]
pub enum ReadFault {
    /// The disk failed.
    DiskFault,
    /// Memory ran out.
    OutOfMemory,
}

impl fmt::Display for ReadFault {
    fn fmt<W: fmt::Write>(&self, f: &mut fmt::Formatter<W>) -> fmt::Result {
        match self {
            ReadFault::DiskFault => f.write_str("the disk failed"),
            ReadFault::OutOfMemory => f.write_str("out of memory"),
        }
    }
}

impl Error for ReadFault {}

impl From<Failed> for ReadFault {
    ghost from_gives = { λ _ fault. fault ≡ read_disk_fault };

    fn from(_failed: Failed) -> ReadFault {
        ReadFault::DiskFault
    }
}

impl From<OutOfMemory> for ReadFault {
    ghost from_gives = { λ _ fault. fault ≡ read_out_of_memory };

    fn from(_error: OutOfMemory) -> ReadFault {
        ReadFault::OutOfMemory
    }
}

impl From<AllocError> for ReadFault {
    ghost from_gives = { λ _ fault. fault ≡ read_out_of_memory };

    fn from(_error: AllocError) -> ReadFault {
        ReadFault::OutOfMemory
    }
}
