//! The command `fetch`.
ghost use Rattle.std.specs.Prelude.{◌≡◌};
ghost use Rattle.command_words.specs.Arguments.{fetch_words_at};
ghost use Rattle.centre_fetch.specs.Table.{stop_for, FetchRow};

use crate::ending::{FetchRefusal, FetchStop};
use crate::words::{asked_window, codes_of};
use command_words::FetchArguments;
use exact_time::{Failed, OutOfMemory};
use link_ports::Port;
use split_fetch::FetchFault;
use std::alloc::Global;
use streams::{Sink, put_all};

// How a fault of fetching stops the command.
fn stop_for(fault: FetchFault) -> FetchStop
    ensures { result ≡ stop_for fault }
{
    match fault {
        FetchFault::Lost => FetchStop::Refused(FetchRefusal::Lost),
        FetchFault::Moved(before, after) => FetchStop::Refused(FetchRefusal::Moved(before, after)),
        FetchFault::Requests => FetchStop::Refused(FetchRefusal::Requests),
        FetchFault::NoLink => FetchStop::NoLink,
        FetchFault::PortFault => FetchStop::PortFault,
        FetchFault::Peer(status) => FetchStop::Refused(FetchRefusal::Peer(status)),
        FetchFault::BadReply => FetchStop::Refused(FetchRefusal::BadReply),
        FetchFault::TooLarge(bytes) => FetchStop::Refused(FetchRefusal::TooLarge {
            bytes,
            limit: 268_435_456,
        }),
        FetchFault::OutOfMemory => FetchStop::OutOfMemory,
    }
}

/// The command `fetch`: words, requests on the links of the port, answers put together, output. What the words ask for is read
/// before the first link is taken, and nothing is written before the last answer has come.
pub fn fetch<K: Sink, P: Port>(
    alloc: Global,
    arguments: &FetchArguments,
    sink: &mut K,
    port: &mut P,
) -> Result<(), FetchStop>
    ensures row { FetchRow (fetch_words_at arguments.now)
        (K.view sink.old) (K.view sink.new) (P.view port.old) (P.view port.new) result }
{
    let window = match asked_window(alloc, arguments) {
        Ok(window) => window,
        Err(stop) => return Err(stop),
    };
    let codes = match codes_of(alloc, arguments) {
        Ok(codes) => codes,
        Err(OutOfMemory) => return Err(FetchStop::OutOfMemory),
    };
    let bytes = match split_fetch::fetch(alloc, port, &codes, window) {
        Ok(bytes) => bytes,
        Err(fault) => return Err(stop_for(fault)),
    };
    if bytes.is_empty() {
        return Err(FetchStop::Refused(FetchRefusal::NoData));
    }
    match put_all(sink, bytes.as_slice()) {
        Ok(()) => Ok(()),
        Err(Failed) => Err(FetchStop::WriteFault),
    }
}
