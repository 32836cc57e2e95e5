//! How the outcomes of commands end a run.
ghost use Rattle.std.specs.Prelude.{◌≡◌};
ghost use Rattle.centre.specs.Drills.{stop_for_drill};
ghost use Rattle.centre.specs.Ends.{ending_by};
ghost use Rattle.centre.specs.Serves.{stop_for_serve};
ghost use Rattle.centre.specs.Table.{stop_for_founding};
ghost use Rattle.centre.specs.Talks.{stop_for_talk};

use crate::ending::{Refusal, Stop};
use archive_log::FoundFault;
use centre_drill::DrillStop;
use centre_serve::ServeStop;
use centre_talk::TalkStop;

/// How a fault of founding stops the run.
pub(crate) fn stop_for_founding(fault: FoundFault) -> Stop
    ensures { result ≡ stop_for_founding fault }
{
    match fault {
        FoundFault::DiskFault => Stop::DiskFault,
        FoundFault::NotEmpty(_) => Stop::Refused(Refusal::NotEmpty),
        FoundFault::OutOfMemory => Stop::OutOfMemory,
    }
}

/// How a session over streams ends the run.
pub(crate) fn ending_of_talk(outcome: Result<(), TalkStop>) -> Result<(), Stop>
    ensures { result ≡ ending_by stop_for_talk outcome }
{
    match outcome {
        Ok(()) => Ok(()),
        Err(TalkStop::ReadFault) => Err(Stop::ReadFault),
        Err(TalkStop::WriteFault) => Err(Stop::WriteFault),
        Err(TalkStop::DiskFault) => Err(Stop::DiskFault),
        Err(TalkStop::OutOfMemory) => Err(Stop::OutOfMemory),
        Err(TalkStop::RequestCut) => Err(Stop::Refused(Refusal::RequestCut)),
        Err(TalkStop::NotAJournal) => Err(Stop::Refused(Refusal::NotAJournal)),
        Err(TalkStop::Damaged(at)) => Err(Stop::Refused(Refusal::Damaged(at))),
    }
}

/// How a service ends the run.
pub(crate) fn ending_of_serve(outcome: Result<(), ServeStop>) -> Result<(), Stop>
    ensures { result ≡ ending_by stop_for_serve outcome }
{
    match outcome {
        Ok(()) => Ok(()),
        Err(ServeStop::DiskFault) => Err(Stop::DiskFault),
        Err(ServeStop::PortFault) => Err(Stop::PortFault),
        Err(ServeStop::NotAJournal) => Err(Stop::Refused(Refusal::NotAJournal)),
        Err(ServeStop::Damaged(at)) => Err(Stop::Refused(Refusal::Damaged(at))),
        Err(ServeStop::OutOfMemory) => Err(Stop::OutOfMemory),
    }
}

/// How a drill ends the run.
pub(crate) fn ending_of_drill(outcome: Result<(), DrillStop>) -> Result<(), Stop>
    ensures { result ≡ ending_by stop_for_drill outcome }
{
    match outcome {
        Ok(()) => Ok(()),
        Err(DrillStop::WriteFault) => Err(Stop::WriteFault),
        Err(DrillStop::DiskFault) => Err(Stop::DiskFault),
        Err(DrillStop::NotEmpty(_)) => Err(Stop::Refused(Refusal::NotEmpty)),
        Err(DrillStop::OutOfMemory) => Err(Stop::OutOfMemory),
    }
}
