//! How a service ends.
ghost use Rattle.std.specs.Prelude.{◌≡◌};
ghost use Rattle.centre_serve.specs.Stops.{stop_for_start, ending_of};

use archive_log::StartFault;

/// Why a service ended otherwise than in order.
#[derive(Clone, Copy, Debug, PartialEq, Eq)]
pub enum ServeStop {
    /// The disk failed: the archive wasn't opened, or a command was stopped.
    DiskFault,
    /// The port of a worker failed.
    PortFault,
    /// The disk's file has fewer than 17 bytes, or another magic.
    NotAJournal,
    /// The journal is damaged at this offset.
    Damaged(u64),
    OutOfMemory,
}

/// How a fault of opening ends it.
pub(crate) fn stop_for_start(fault: StartFault) -> ServeStop
    ensures { result ≡ stop_for_start fault }
{
    match fault {
        StartFault::DiskFault => ServeStop::DiskFault,
        StartFault::NotAJournal => ServeStop::NotAJournal,
        StartFault::Damaged(at) => ServeStop::Damaged(at),
        StartFault::OutOfMemory => ServeStop::OutOfMemory,
    }
}

/// How the workers end it: a stopped command counts before a port that failed.
pub(crate) fn ending_of(stopped: bool, failed: bool) -> Result<(), ServeStop>
    ensures { result ≡ ending_of stopped failed }
{
    if stopped {
        return Err(ServeStop::DiskFault);
    }
    if failed {
        return Err(ServeStop::PortFault);
    }
    Ok(())
}
