//! How a drill ends.
ghost use Rattle.std.specs.Prelude.{◌≡◌};
ghost use Rattle.centre_drill.specs.declared.ending.DrillStop.TheVariants.{OutOfMemory as NoMemory};

use archive_log::FoundFault;
use exact_time::OutOfMemory;

/// Why a drill stopped before it was done.
#[derive(Clone, Copy, Debug, PartialEq, Eq)]
pub enum DrillStop {
    /// The sink failed. The archive is made.
    WriteFault,
    /// The disk failed.
    DiskFault,
    /// The file has bytes already, so many.
    NotEmpty(u64),
    OutOfMemory,
}

impl From<OutOfMemory> for DrillStop {
    ghost from_gives = { λ _ stop. stop ≡ NoMemory };

    fn from(_error: OutOfMemory) -> DrillStop {
        DrillStop::OutOfMemory
    }
}

impl From<FoundFault> for DrillStop {
    ghost use Rattle.centre_drill.specs.Drill.{stop_for_founding};

    ghost from_gives = { λ fault stop. stop ≡ stop_for_founding fault };

    fn from(fault: FoundFault) -> DrillStop {
        match fault {
            FoundFault::DiskFault => DrillStop::DiskFault,
            FoundFault::NotEmpty(length) => DrillStop::NotEmpty(length),
            FoundFault::OutOfMemory => DrillStop::OutOfMemory,
        }
    }
}
