use exact_time::OutOfMemory;
use std::error::Error;
use std::fmt;

/// Why a line is refused, in the order of the tests.
#[derive(Clone, Copy, Debug, PartialEq, Eq)]
pub enum LineFault {
    /// The body has no line but blank lines and comments; said of line 1.
    NoLine,
    /// The line isn't UTF-8, has a control character, or has more than 4000 bytes.
    Form,
    /// There is no such kind of line, or none behind `DEL`.
    LineKind,
    /// The kind has another number of fields.
    Fields,
    /// The field of this number, the kind being field 1, is none of its kind; the first one decides.
    Value(u64),
    /// The end isn't after the start.
    Order,
}

impl fmt::Display for LineFault {
    ghost use Rattle.std.specs.Prelude.{Some};
    ghost use Rattle.epochs.specs.FaultNames.{line_fault_text};

    ghost output = { λ fault. Some (line_fault_text fault) };

    fn fmt<W: fmt::Write>(&self, f: &mut fmt::Formatter<W>) -> fmt::Result {
        match self {
            LineFault::NoLine => f.write_str("NoLine"),
            LineFault::Form => f.write_str("Form"),
            LineFault::LineKind => f.write_str("Kind"),
            LineFault::Fields => f.write_str("Fields"),
            LineFault::Value(field) => write!(f, "Value {field}"),
            LineFault::Order => f.write_str("Order"),
        }
    }
}

impl Error for LineFault {}

/// Why a body isn't a revision.
#[derive(Clone, Copy, Debug, PartialEq, Eq, Drop)]
pub enum RevisionFault {
    /// The line of this number, from 1 and counted over all lines, is the first that is refused.
    Bad { line: u64, fault: LineFault },
    OutOfMemory,
}

impl fmt::Display for RevisionFault {
    fn fmt<W: fmt::Write>(&self, f: &mut fmt::Formatter<W>) -> fmt::Result {
        match self {
            RevisionFault::Bad { line, fault } => write!(f, "line {line}: {fault}"),
            RevisionFault::OutOfMemory => f.write_str("out of memory"),
        }
    }
}

impl Error for RevisionFault {}

impl From<OutOfMemory> for RevisionFault {
    ghost use Rattle.std.specs.Prelude.{◌≡◌};
    ghost use Rattle.epochs.specs.declared.fault.RevisionFault.TheVariants.{OutOfMemory as NoMemory};

    ghost from_gives = { λ _ e. e ≡ NoMemory };

    fn from(_error: OutOfMemory) -> RevisionFault {
        RevisionFault::OutOfMemory
    }
}
