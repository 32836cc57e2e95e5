//! Why answers aren't put together.
use exact_time::OutOfMemory;
use std::error::Error;
use std::fmt;

/// Why the records of some answers weren't put together.
#[derive(Clone, Copy, Debug, PartialEq, Eq)]
pub enum GatherFault {
    /// The fronts of the first two neighbours that differ: the archive moved between two answers.
    Moved(u64, u64),
    /// The records without doubles have this many bytes, more than 268,435,456.
    TooLarge(u64),
    OutOfMemory,
}

impl fmt::Display for GatherFault {
    fn fmt<W: fmt::Write>(&self, f: &mut fmt::Formatter<W>) -> fmt::Result {
        match self {
            GatherFault::Moved(before, after) => write!(f, "front moved from {before} to {after}"),
            GatherFault::TooLarge(bytes) => write!(f, "{bytes} bytes are too many"),
            GatherFault::OutOfMemory => f.write_str("out of memory"),
        }
    }
}

impl Error for GatherFault {}

impl From<OutOfMemory> for GatherFault {
    ghost use Rattle.std.specs.Prelude.{◌≡◌};
    ghost use Rattle.split_fetch.specs.declared.fault.GatherFault.TheVariants.{OutOfMemory as NoMemory};

    ghost from_gives = { λ _ e. e ≡ NoMemory };

    fn from(_error: OutOfMemory) -> GatherFault {
        GatherFault::OutOfMemory
    }
}
