//! How a session over streams ends.
ghost use Rattle.std.specs.Prelude.{◌≡◌};
ghost use Rattle.centre_talk.specs.Stops.{stop_for_start};

use archive_log::StartFault;

/// Why a session over streams ended otherwise than in order.
#[derive(Clone, Copy, Debug, PartialEq, Eq)]
pub enum TalkStop {
    /// The source failed.
    ReadFault,
    /// The sink failed.
    WriteFault,
    /// The disk failed: the archive wasn't opened, or a command was stopped.
    DiskFault,
    OutOfMemory,
    /// The input ended inside a request.
    RequestCut,
    /// The disk's file has fewer than 17 bytes, or another magic.
    NotAJournal,
    /// The journal is damaged at this offset.
    Damaged(u64),
}

/// How a fault of opening ends it.
pub(crate) fn stop_for_start(fault: StartFault) -> TalkStop
    ensures { result ≡ stop_for_start fault }
{
    match fault {
        StartFault::DiskFault => TalkStop::DiskFault,
        StartFault::NotAJournal => TalkStop::NotAJournal,
        StartFault::Damaged(at) => TalkStop::Damaged(at),
        StartFault::OutOfMemory => TalkStop::OutOfMemory,
    }
}
