//! Tells why a run stopped.
ghost use Rattle.std.specs.Prelude.{◌≡◌, ◌⊎◌, string_bytes, IfOk};
ghost use Rattle.centre_select.specs.Status.{Tells};
ghost use Rattle.centre.specs.Selects.{stop_for_select};
ghost use Rattle.centre.specs.Status.{error_text_of, text_of_refusal};
ghost use Rattle.centre.specs.Table.{ToldFor};

use crate::ending::{Refusal, Stop};
use crate::selecting::stop_for_select;
use centre_select::{SelectRefusal, SelectStop, tell, tell_refusal as tell_refused};
use std::alloc::{AllocError, Global};
use streams::Sink;

const MEMORY_TEXT: &str = "centre: out of memory\n";

fn damage_text(alloc: Global, at: u64) -> Result<String, AllocError>
    ensures { IfOk result (λ text. string_bytes text ≡ text_of_refusal (Refusal.Damaged at)) }
{
    let mut text = format!(in alloc; "centre: journal damaged at {at}")?;
    text.push_str("\n")?;
    Ok(text)
}

fn lines_text(alloc: Global, lines: u64, limit: u64) -> Result<String, AllocError>
    ensures { IfOk result (λ text. string_bytes text ≡ text_of_refusal (Refusal.TooManyLines lines limit)) }
{
    let mut text = format!(in alloc; "centre: {lines} lines exceed {limit}")?;
    text.push_str("\n")?;
    Ok(text)
}

fn peer_text(alloc: Global, status: u16) -> Result<String, AllocError>
    ensures { IfOk result (λ text. string_bytes text ≡ text_of_refusal (Refusal.Peer status)) }
{
    let mut text = format!(in alloc; "centre: peer answered {status}")?;
    text.push_str("\n")?;
    Ok(text)
}

fn move_text(alloc: Global, before: u64, after: u64) -> Result<String, AllocError>
    ensures { IfOk result (λ text. string_bytes text ≡ text_of_refusal (Refusal.Moved before after)) }
{
    let mut text = format!(in alloc; "centre: front moved from {before} to {after}")?;
    text.push_str("\n")?;
    Ok(text)
}

// Tells a refusal of `select`.
fn tell_select<E: Sink>(alloc: Global, errors: &mut E, refusal: SelectRefusal) -> Stop
    ensures same { ToldFor (stop_for_select (SelectStop.Refused refusal)) result }
    ensures text { Tells (E.view errors.old) (E.view errors.new)
        (error_text_of result) }
{
    stop_for_select(tell_refused(alloc, errors, refusal))
}

// Tells a refusal by the text that was made for it, or want of memory where it couldn't be made.
fn tell_made<E: Sink>(errors: &mut E, refusal: Refusal, made: Result<String, AllocError>) -> Stop
    requires { IfOk made (λ text. string_bytes text ≡ text_of_refusal refusal) }
    ensures same { (result ≡ Stop.Refused refusal) ⊎ (result ≡ Stop.OutOfMemory) }
    ensures text { Tells (E.view errors.old) (E.view errors.new)
        (error_text_of result) }
{
    match made {
        Ok(text) => {
            tell(errors, text.as_str());
            Stop::Refused(refusal)
        }
        Err(_) => {
            tell(errors, MEMORY_TEXT);
            Stop::OutOfMemory
        }
    }
}

// Tells a refusal. Only a text with numbers wants memory.
fn tell_refusal<E: Sink>(alloc: Global, errors: &mut E, refusal: Refusal) -> Stop
    ensures same { ToldFor (Stop.Refused refusal) result }
    ensures text { Tells (E.view errors.old) (E.view errors.new)
        (error_text_of result) }
{
    match refusal {
        Refusal::Value(word) => {
            return tell_select(alloc, errors, SelectRefusal::Value(word));
        }
        Refusal::Order => return tell_select(alloc, errors, SelectRefusal::Order),
        Refusal::Record { at, fault } => {
            return tell_select(alloc, errors, SelectRefusal::Record { at, fault });
        }
        Refusal::NoData => return tell_select(alloc, errors, SelectRefusal::NoData),
        Refusal::TooLarge { bytes, limit } => {
            return tell_select(alloc, errors, SelectRefusal::TooLarge { bytes, limit });
        }
        Refusal::InputTooLong => {
            return tell_select(alloc, errors, SelectRefusal::InputTooLong);
        }
        Refusal::TooManyLines { lines, limit } => {
            return tell_made(errors, refusal, lines_text(alloc, lines, limit));
        }
        Refusal::Damaged(at) => {
            return tell_made(errors, refusal, damage_text(alloc, at));
        }
        Refusal::Peer(status) => {
            return tell_made(errors, refusal, peer_text(alloc, status));
        }
        Refusal::Moved(before, after) => {
            return tell_made(errors, refusal, move_text(alloc, before, after));
        }
        Refusal::UnknownCommand => tell(errors, "centre: unknown command line\n"),
        Refusal::NotEmpty => tell(errors, "centre: journal is not empty\n"),
        Refusal::NotAJournal => tell(errors, "centre: not a journal\n"),
        Refusal::RequestCut => tell(errors, "centre: request cut\n"),
        Refusal::BadReply => tell(errors, "centre: bad reply\n"),
        Refusal::Lost => tell(errors, "centre: connection lost\n"),
        Refusal::Requests => tell(errors, "centre: too many requests\n"),
    }
    Stop::Refused(refusal)
}

/// Tells why a run stopped, and answers what it told.
pub fn tell_stop<E: Sink>(alloc: Global, errors: &mut E, stop: Stop) -> Stop
    ensures same { ToldFor stop result }
    ensures text { Tells (E.view errors.old) (E.view errors.new)
        (error_text_of result) }
{
    match stop {
        Stop::Refused(refusal) => return tell_refusal(alloc, errors, refusal),
        Stop::ReadFault => tell(errors, "centre: read fault\n"),
        Stop::WriteFault => tell(errors, "centre: write fault\n"),
        Stop::DiskFault => tell(errors, "centre: disk fault\n"),
        Stop::PortFault => tell(errors, "centre: port fault\n"),
        Stop::NoLink => tell(errors, "centre: no more links\n"),
        Stop::OutOfMemory => tell(errors, MEMORY_TEXT),
    }
    stop
}

/// Tells that memory ran out, and answers the exit status for it.
pub fn out_of_memory<E: Sink>(errors: &mut E) -> u8
    ensures status { result ≡ 70 }
    ensures text { Tells (E.view errors.old) (E.view errors.new)
        (error_text_of Stop.OutOfMemory) }
{
    tell(errors, MEMORY_TEXT);
    Stop::OutOfMemory.status()
}
