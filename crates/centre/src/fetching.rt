//! The command `fetch` as a command of a run.
ghost use Rattle.std.specs.Prelude.{◌≡◌};
ghost use Rattle.centre.specs.Ends.{ending_by};
ghost use Rattle.centre.specs.Fetches.{refusal_for_fetch, stop_for_fetch};

use crate::ending::{Refusal, Stop};
use centre_fetch::{FetchRefusal, FetchStop};

// How a refusal of `fetch` refuses the run.
fn refusal_for_fetch(refusal: FetchRefusal) -> Refusal
    ensures { result ≡ refusal_for_fetch refusal }
{
    match refusal {
        FetchRefusal::Value(word) => Refusal::Value(word),
        FetchRefusal::Order => Refusal::Order,
        FetchRefusal::NoData => Refusal::NoData,
        FetchRefusal::TooLarge { bytes, limit } => Refusal::TooLarge { bytes, limit },
        FetchRefusal::Peer(status) => Refusal::Peer(status),
        FetchRefusal::BadReply => Refusal::BadReply,
        FetchRefusal::Lost => Refusal::Lost,
        FetchRefusal::Moved(before, after) => Refusal::Moved(before, after),
        FetchRefusal::Requests => Refusal::Requests,
    }
}

/// How `fetch` ends the run.
pub(crate) fn ending_of_fetch(outcome: Result<(), FetchStop>) -> Result<(), Stop>
    ensures { result ≡ ending_by stop_for_fetch outcome }
{
    match outcome {
        Ok(()) => Ok(()),
        Err(FetchStop::Refused(refusal)) => Err(Stop::Refused(refusal_for_fetch(refusal))),
        Err(FetchStop::WriteFault) => Err(Stop::WriteFault),
        Err(FetchStop::PortFault) => Err(Stop::PortFault),
        Err(FetchStop::NoLink) => Err(Stop::NoLink),
        Err(FetchStop::OutOfMemory) => Err(Stop::OutOfMemory),
    }
}
