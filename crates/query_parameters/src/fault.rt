use exact_time::OutOfMemory;
use std::alloc::{AllocError, AllocFailed};
use std::error::Error;
use std::fmt;

/// Why a text is no query. The numbers are those of a parameter of a query string, or of a line of a
/// body, from 1; the first faulty one decides.
#[derive(Clone, Copy, Debug, PartialEq, Eq, Drop)]
pub enum QueryFault {
    /// There are more than 1000 parameters, or more than 10,000 selection lines.
    TooMany,
    /// The method has no such name.
    Unknown(u64),
    /// The name was read before.
    Repeated(u64),
    /// The name or the value is one that this data centre leaves out.
    OutOfScope(u64),
    /// The value is none of that name.
    Value(u64),
    /// The line of a body is no selection.
    Line(u64),
    /// The start is after the end.
    Order,
    /// A body has no selection line.
    NoLine,
    OutOfMemory,
}

impl fmt::Display for QueryFault {
    ghost use Rattle.std.specs.Prelude.{Some};
    ghost use Rattle.query_parameters.specs.FaultTexts.{query_fault_text};

    ghost output = { λ fault. Some (query_fault_text fault) };

    fn fmt<W: fmt::Write>(&self, f: &mut fmt::Formatter<W>) -> fmt::Result {
        match self {
            QueryFault::TooMany => f.write_str("TooMany"),
            QueryFault::Unknown(number) => write!(f, "Unknown {number}"),
            QueryFault::Repeated(number) => write!(f, "Repeated {number}"),
            QueryFault::OutOfScope(number) => write!(f, "OutOfScope {number}"),
            QueryFault::Value(number) => write!(f, "Value {number}"),
            QueryFault::Line(number) => write!(f, "Line {number}"),
            QueryFault::Order => f.write_str("Order"),
            QueryFault::NoLine => f.write_str("NoLine"),
            QueryFault::OutOfMemory => f.write_str("out of memory"),
        }
    }
}

impl Error for QueryFault {}

impl From<AllocError> for QueryFault {
    ghost use Rattle.std.specs.Prelude.{◌≡◌};
    ghost use Rattle.query_parameters.specs.declared.fault.QueryFault.TheVariants.{OutOfMemory as NoMemory};

    ghost from_gives = { λ _ e. e ≡ NoMemory };

    fn from(_error: AllocError) -> QueryFault {
        QueryFault::OutOfMemory
    }
}

impl<T: Drop> From<AllocFailed<T>> for QueryFault {
    ghost use Rattle.std.specs.Prelude.{◌≡◌};
    ghost use Rattle.query_parameters.specs.declared.fault.QueryFault.TheVariants.{OutOfMemory as NoMemory};

    ghost from_gives = { λ _ e. e ≡ NoMemory };

    fn from(_error: AllocFailed<T>) -> QueryFault {
        QueryFault::OutOfMemory
    }
}

impl From<OutOfMemory> for QueryFault {
    ghost use Rattle.std.specs.Prelude.{◌≡◌};
    ghost use Rattle.query_parameters.specs.declared.fault.QueryFault.TheVariants.{OutOfMemory as NoMemory};

    ghost from_gives = { λ _ e. e ≡ NoMemory };

    fn from(_error: OutOfMemory) -> QueryFault {
        QueryFault::OutOfMemory
    }
}
