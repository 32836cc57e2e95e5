//! The command `select` as a command of a run.
ghost use Rattle.std.specs.Prelude.{◌≡◌};
ghost use Rattle.command_words.specs.Arguments.{words_at};
ghost use Rattle.centre_select.specs.Table.{streams};
ghost use Rattle.centre.specs.Selects.{refusal_for_select, stop_for_select, SelectEnding};

use crate::ending::{Refusal, Stop};
use centre_select::{SelectRefusal, SelectStop, select};
use command_words::SelectArguments;
use std::alloc::Global;
use streams::{Sink, Source};

// How a refusal of `select` refuses the run.
fn refusal_for_select(refusal: SelectRefusal) -> Refusal
    ensures { result ≡ refusal_for_select refusal }
{
    match refusal {
        SelectRefusal::Value(word) => Refusal::Value(word),
        SelectRefusal::Order => Refusal::Order,
        SelectRefusal::Record { at, fault } => Refusal::Record { at, fault },
        SelectRefusal::NoData => Refusal::NoData,
        SelectRefusal::TooLarge { bytes, limit } => Refusal::TooLarge { bytes, limit },
        SelectRefusal::InputTooLong => Refusal::InputTooLong,
    }
}

/// How `select` stops the run.
pub(crate) fn stop_for_select(stop: SelectStop) -> Stop
    ensures { result ≡ stop_for_select stop }
{
    match stop {
        SelectStop::Refused(refusal) => Stop::Refused(refusal_for_select(refusal)),
        SelectStop::ReadFault => Stop::ReadFault,
        SelectStop::WriteFault => Stop::WriteFault,
        SelectStop::OutOfMemory => Stop::OutOfMemory,
    }
}

/// The command `select`.
pub(crate) fn choose<S: Source, K: Sink>(
    alloc: Global,
    arguments: &SelectArguments,
    source: &mut S,
    sink: &mut K,
) -> Result<(), Stop>
    ensures row { SelectEnding (words_at arguments.now)
        (streams (S.view source.old) (K.view sink.old)) (streams (S.view source.new) (K.view sink.new))
        result }
{
    match select(alloc, arguments, source, sink) {
        Ok(()) => Ok(()),
        Err(stop) => Err(stop_for_select(stop)),
    }
}
