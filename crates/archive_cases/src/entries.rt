//! The spelling of entries, and bodies of them.
ghost use Rattle.std.specs.List.{AllByRecursion};
ghost use Rattle.archive_entry.specs.Spelling.{IsEntry};

use crate::names::{number, parts, told, word};
use archive_entry::{Entry, decode, decode_counted, encode};
use case_lines::escaped;
use entry_bodies::{BodyFault, BodyRefusal, entries_body, entries_in};
use exact_time::{Bytes, OutOfMemory};
use std::alloc::Global;

// What an entry says, and whether the payload is its spelling.
fn shown(alloc: Global, entry: &Entry, payload: &[u8]) -> Result<String, OutOfMemory>
    requires { IsEntry entry.now }
{
    let is_same = match encode(alloc, entry) {
        Ok(spelling) => spelling.as_slice() == payload,
        Err(OutOfMemory) => false,
    };
    let body = escaped(alloc, entry.body.as_slice())?;
    Ok(format!(in alloc;
        "{} {} {} {} {:?} {body} {}",
        entry.number,
        entry.moment.micros,
        entry.author.as_str(),
        entry.seq,
        entry.kind,
        if is_same { "same" } else { "other" },
    )?)
}

// What a payload says.
fn read(alloc: Global, payload: &[u8]) -> Result<String, OutOfMemory> {
    match decode(alloc, payload) {
        Ok(entry) => shown(alloc, &entry, payload),
        Err(fault) => Ok(format!(in alloc; "{fault}")?),
    }
}

// How many records a payload has.
fn count(alloc: Global, payload: &[u8]) -> Result<String, OutOfMemory> {
    let count = match decode_counted(alloc, payload) {
        Ok((_, records)) => Ok(records),
        Err(fault) => Err(fault),
    };
    Ok(match count {
        Ok(records) => format!(in alloc; "{records}")?,
        Err(fault) => format!(in alloc; "{fault}")?,
    })
}

// How many entries a body is.
fn body(alloc: Global, bytes: &[u8]) -> Result<String, OutOfMemory> {
    match entries_in(alloc, bytes) {
        Ok(entries) => Ok(format!(in alloc; "{}", entries.len())?),
        Err(BodyFault::Form(at)) => Ok(format!(in alloc; "form {at}")?),
        Err(BodyFault::OutOfMemory) => Err(OutOfMemory),
    }
}

// The body of some entries from that of a number on, of at most so many bytes.
fn body_of(alloc: Global, entries: &[Entry], from: u64, most: u64) -> Result<String, OutOfMemory>
    requires { AllByRecursion IsEntry entries.now }
{
    match entries_body(alloc, entries, from, most) {
        Ok(body) => escaped(alloc, body.as_slice()),
        Err(BodyRefusal::Empty) => told(alloc, "empty"),
        Err(BodyRefusal::TooLarge(size)) => Ok(format!(in alloc; "too large {size}")?),
        Err(BodyRefusal::OutOfMemory) => Err(OutOfMemory),
    }
}

// The same of the entries of a body.
fn again(alloc: Global, words: &[Bytes]) -> Result<String, OutOfMemory> {
    match entries_in(alloc, word(words, 1)) {
        Ok(entries) => body_of(
            alloc,
            entries.as_slice(),
            number(words, 2),
            number(words, 3),
        ),
        Err(_) => told(alloc, "no body"),
    }
}

/// What a step gives.
pub fn given(alloc: Global, words: &[Bytes]) -> Result<String, OutOfMemory> {
    match word(words, 0) {
        b"read" => read(alloc, word(words, 1)),
        b"count" => count(alloc, word(words, 1)),
        b"parts" => parts(alloc, word(words, 1), count),
        b"body" => body(alloc, word(words, 1)),
        b"body-parts" => parts(alloc, word(words, 1), body),
        b"again" => again(alloc, words),
        _ => told(alloc, "no such call"),
    }
}
