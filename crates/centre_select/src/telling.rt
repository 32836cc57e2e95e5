//! Tells why `select` stopped.
ghost use Rattle.std.specs.Prelude.{◌≡◌, ◌⊎◌, string_bytes, IfOk};
ghost use Rattle.centre_select.specs.Status.{error_text_of, text_of_refusal, unknown_text, Tells, ToldFor};

use crate::ending::{SelectRefusal, SelectStop, Word};
use mseed_header::RecordFault;
use std::alloc::{AllocError, Global};
use streams::{Sink, put_all};

const MEMORY_TEXT: &str = "centre: out of memory\n";

// The text for a word whose value can't be read.
fn value_text(word: Word) -> &'static str
    ensures { result.now ≡ text_of_refusal (SelectRefusal.Value word) }
{
    match word {
        Word::Network => "centre: query: Value NET\n",
        Word::Station => "centre: query: Value STA\n",
        Word::Location => "centre: query: Value LOC\n",
        Word::Channel => "centre: query: Value CHA\n",
        Word::Start => "centre: query: Value START\n",
        Word::End => "centre: query: Value END\n",
        Word::Quality => "centre: query: Value QUALITY\n",
        Word::Minimum => "centre: query: Value MINIMUM\n",
        Word::Longest => "centre: query: Value LONGEST\n",
    }
}

fn record_text(alloc: Global, at: usize, fault: RecordFault) -> Result<String, AllocError>
    ensures { IfOk result (λ text. string_bytes text ≡ text_of_refusal (SelectRefusal.Record at fault)) }
{
    let mut text = format!(in alloc; "centre: record at offset {at}: ")?;
    let name = format!(in alloc; "{fault}")?;
    text.push_str(name.as_str())?;
    text.push_str("\n")?;
    Ok(text)
}

fn size_text(alloc: Global, bytes: u64, limit: u64) -> Result<String, AllocError>
    ensures { IfOk result (λ text. string_bytes text ≡ text_of_refusal (SelectRefusal.TooLarge bytes limit)) }
{
    let mut text = format!(in alloc; "centre: {bytes} bytes exceed {limit}")?;
    text.push_str("\n")?;
    Ok(text)
}

/// Writes a text, as far as the errors take it.
pub fn tell<E: Sink>(errors: &mut E, text: &str)
    ensures { Tells (E.view errors.old) (E.view errors.new) text.now }
{
    let _ = put_all(errors, text.as_bytes());
}

// Tells a refusal by the text that was made for it, or want of memory where it couldn't be made.
fn tell_made<E: Sink>(
    errors: &mut E,
    refusal: SelectRefusal,
    made: Result<String, AllocError>,
) -> SelectStop
    requires { IfOk made (λ text. string_bytes text ≡ text_of_refusal refusal) }
    ensures same { (result ≡ SelectStop.Refused refusal) ⊎ (result ≡ SelectStop.OutOfMemory) }
    ensures text { Tells (E.view errors.old) (E.view errors.new) (error_text_of result) }
{
    match made {
        Ok(text) => {
            tell(errors, text.as_str());
            SelectStop::Refused(refusal)
        }
        Err(_) => {
            tell(errors, MEMORY_TEXT);
            SelectStop::OutOfMemory
        }
    }
}

/// Tells a refusal. Only a text with numbers wants memory.
pub fn tell_refusal<E: Sink>(alloc: Global, errors: &mut E, refusal: SelectRefusal) -> SelectStop
    ensures same { ToldFor (SelectStop.Refused refusal) result }
    ensures text { Tells (E.view errors.old) (E.view errors.new) (error_text_of result) }
{
    match refusal {
        SelectRefusal::Value(word) => tell(errors, value_text(word)),
        SelectRefusal::Order => tell(errors, "centre: query: Order\n"),
        SelectRefusal::Record { at, fault } => {
            return tell_made(errors, refusal, record_text(alloc, at, fault));
        }
        SelectRefusal::NoData => tell(errors, "centre: no data\n"),
        SelectRefusal::TooLarge { bytes, limit } => {
            return tell_made(errors, refusal, size_text(alloc, bytes, limit));
        }
        SelectRefusal::InputTooLong => tell(errors, "centre: input too long\n"),
    }
    SelectStop::Refused(refusal)
}

/// Tells why `select` stopped, and answers what it told.
pub fn tell_stop<E: Sink>(alloc: Global, errors: &mut E, stop: SelectStop) -> SelectStop
    ensures same { ToldFor stop result }
    ensures text { Tells (E.view errors.old) (E.view errors.new) (error_text_of result) }
{
    match stop {
        SelectStop::Refused(refusal) => return tell_refusal(alloc, errors, refusal),
        SelectStop::ReadFault => tell(errors, "centre: read fault\n"),
        SelectStop::WriteFault => tell(errors, "centre: write fault\n"),
        SelectStop::OutOfMemory => tell(errors, MEMORY_TEXT),
    }
    stop
}

/// Tells that memory ran out, and answers the exit status for it.
pub fn out_of_memory<E: Sink>(errors: &mut E) -> u8
    ensures status { result ≡ 70 }
    ensures text { Tells (E.view errors.old) (E.view errors.new) (error_text_of SelectStop.OutOfMemory) }
{
    tell(errors, MEMORY_TEXT);
    SelectStop::OutOfMemory.status()
}

/// Tells that the words are no command, and answers the exit status for it.
pub fn unknown_command<E: Sink>(errors: &mut E) -> u8
    ensures status { result ≡ 1 }
    ensures text { Tells (E.view errors.old) (E.view errors.new) unknown_text }
{
    tell(errors, "centre: unknown command line\n");
    1
}
