use std::alloc::{AllocError, AllocFailed};
use std::error::Error;
use std::fmt;

/// Memory ran out: the one answer that needs no cause.
#[derive(Clone, Copy, Debug, PartialEq, Eq)]
pub struct OutOfMemory;

impl fmt::Display for OutOfMemory {
    fn fmt<W: fmt::Write>(&self, f: &mut fmt::Formatter<W>) -> fmt::Result {
        f.write_str("out of memory")
    }
}

impl Error for OutOfMemory {}

impl From<AllocError> for OutOfMemory {
    fn from(_error: AllocError) -> OutOfMemory {
        OutOfMemory
    }
}

impl<T: Drop> From<AllocFailed<T>> for OutOfMemory {
    fn from(_error: AllocFailed<T>) -> OutOfMemory {
        OutOfMemory
    }
}

/// An object of the outside failed, and counted it among its faults.
#[derive(Clone, Copy, Debug, PartialEq, Eq)]
pub struct Failed;

impl fmt::Display for Failed {
    fn fmt<W: fmt::Write>(&self, f: &mut fmt::Formatter<W>) -> fmt::Result {
        f.write_str("the outside failed")
    }
}

impl Error for Failed {}

/// Why there is no text to answer with, in the order of the tests.
#[derive(Clone, Copy, Debug, PartialEq, Eq, Drop)]
pub enum TextRefusal {
    /// The text would have no line.
    Empty,
    /// It would have so many lines, more than are allowed. A header line isn't counted.
    TooLarge(u64),
    OutOfMemory,
}

impl fmt::Display for TextRefusal {
    fn fmt<W: fmt::Write>(&self, f: &mut fmt::Formatter<W>) -> fmt::Result {
        match self {
            TextRefusal::Empty => f.write_str("no data"),
            TextRefusal::TooLarge(lines) => write!(f, "{lines} lines exceed the limit"),
            TextRefusal::OutOfMemory => f.write_str("out of memory"),
        }
    }
}

impl Error for TextRefusal {}

impl From<OutOfMemory> for TextRefusal {
    ghost use Rattle.std.specs.Prelude.{◌≡◌};
    ghost use Rattle.exact_time.specs.declared.error.TextRefusal.TheVariants.{OutOfMemory as NoMemory};

    ghost from_gives = { λ _ e. e ≡ NoMemory };

    fn from(_error: OutOfMemory) -> TextRefusal {
        TextRefusal::OutOfMemory
    }
}
