//! Why a body isn't taken, or not all of it.
ghost use Rattle.std.specs.Prelude.{◌≡◌};

use entry_bodies::BodyFault;
use exact_time::OutOfMemory;
use std::error::Error;
use std::fmt;

/// Why a body wasn't taken, or not all of it, in the order of the tests.
#[derive(Clone, Copy, Debug, PartialEq, Eq)]
pub enum TakeFault {
    /// The piece at this offset isn't a length and the spelling of an entry.
    Form(usize),
    /// This is the first number that isn't its predecessor's plus 1, or the first one, above the wanted one.
    Gap(u64),
    /// The entry of this number isn't the next lawful one.
    Unlawful(u64),
    /// The disk failed, now or since the replica was opened.
    DiskFault,
    /// Memory ran out; some of the entries may have been added.
    OutOfMemory,
}

impl fmt::Display for TakeFault {
    ghost use Rattle.std.specs.Prelude.{Some};
    ghost use Rattle.follow_replica.specs.FaultTexts.{take_fault_text};

    ghost output = { λ fault. Some (take_fault_text fault) };

    fn fmt<W: fmt::Write>(&self, f: &mut fmt::Formatter<W>) -> fmt::Result {
        match self {
            TakeFault::Form(at) => write!(f, "Form {at}"),
            TakeFault::Gap(number) => write!(f, "Gap {number}"),
            TakeFault::Unlawful(number) => write!(f, "Unlawful {number}"),
            TakeFault::DiskFault => f.write_str("the disk failed"),
            TakeFault::OutOfMemory => f.write_str("out of memory"),
        }
    }
}

impl Error for TakeFault {}

impl From<OutOfMemory> for TakeFault {
    ghost use Rattle.follow_replica.specs.declared.fault.TakeFault.TheVariants.{OutOfMemory as NoMemory};

    ghost from_gives = { λ _ fault. fault ≡ NoMemory };

    fn from(_error: OutOfMemory) -> TakeFault {
        TakeFault::OutOfMemory
    }
}

impl From<BodyFault> for TakeFault {
    ghost use Rattle.follow_replica.specs.Takes.{from_body};

    ghost from_gives = { λ fault taken. taken ≡ from_body fault };

    fn from(fault: BodyFault) -> TakeFault {
        match fault {
            BodyFault::Form(at) => TakeFault::Form(at),
            BodyFault::OutOfMemory => TakeFault::OutOfMemory,
        }
    }
}
