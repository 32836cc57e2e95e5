//! Steps on codes and patterns.
use crate::fields::{Answer, NO_CALL, flag, put_answer};
use crate::given::text_of;
use channel_globs::{Code, GlobFault, Nslc, Part, PatternList};
use exact_time::{OutOfMemory, Text};
use std::alloc::Global;
use std::str::Split;

fn next_part(words: &mut Split<'_, char>) -> Part {
    match words.next() {
        Some("network") => Part::Network,
        Some("station") => Part::Station,
        Some("location") => Part::Location,
        _ => Part::Channel,
    }
}

fn next_code(words: &mut Split<'_, char>) -> Option<Code> {
    Code::of(words.next()?.as_bytes())
}

fn next_name(words: &mut Split<'_, char>) -> Option<Nslc> {
    Some(Nslc {
        network: next_code(words)?,
        station: next_code(words)?,
        location: next_code(words)?,
        channel: next_code(words)?,
    })
}

fn is_below<T: Ord>(a: &T, b: &T) -> bool {
    a < b
}

fn matches(list: &PatternList, code: Option<Code>) -> Answer {
    match code {
        Some(code) => flag(list.matches(&code)),
        None => NO_CALL,
    }
}

// What a call on a list of patterns gives.
fn of_list(alloc: Global, call: &str, words: &mut Split<'_, char>) -> Result<Answer, GlobFault> {
    let part = next_part(words);
    let list = PatternList::read(alloc, words.next().unwrap_or("").as_bytes(), part)?;
    Ok(match call {
        "matches" => matches(&list, next_code(words)),
        "any" => flag(list.is_any()),
        "list" => Answer::Word("ok"),
        _ => NO_CALL,
    })
}

// What a call on codes gives.
fn of_codes(call: &str, words: &mut Split<'_, char>) -> Option<Answer> {
    Some(match call {
        "is-code" => flag(next_code(words).is_some()),
        "is-blank" => flag(next_code(words)? == Code::blank()),
        "below-code" => flag(is_below(&next_code(words)?, &next_code(words)?)),
        "below-name" => flag(is_below(&next_name(words)?, &next_name(words)?)),
        _ => NO_CALL,
    })
}

fn put_code(code: Option<Code>, out: &mut Text) -> Result<(), OutOfMemory> {
    match code {
        Some(code) => out.push(text_of(code.as_slice())),
        None => out.push("none"),
    }
}

fn fault_word(fault: GlobFault) -> &'static str {
    match fault {
        GlobFault::TooMany => "TooMany",
        GlobFault::Length => "Length",
        GlobFault::Character => "Character",
        GlobFault::OutOfMemory => "OutOfMemory",
    }
}

/// What a step on codes and patterns gives.
pub fn show(alloc: Global, call: &str, given: &[u8], out: &mut Text) -> Result<(), OutOfMemory> {
    let mut words = text_of(given).split('|');
    let answer = match call {
        "code" => return put_code(next_code(&mut words), out),
        "matches" | "any" | "list" => match of_list(alloc, call, &mut words) {
            Ok(answer) => answer,
            Err(fault) => Answer::Word(fault_word(fault)),
        },
        _ => of_codes(call, &mut words).unwrap_or(NO_CALL),
    };
    put_answer(alloc, out, answer)
}
