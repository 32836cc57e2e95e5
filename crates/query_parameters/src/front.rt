//! The parameter lines of a body.
ghost use Rattle.std.specs.Prelude.{◌≡◌, ◌+◌, ◌<◌, ◌≤◌, ◌==◌, length, drop, map, position, IfSome, IfOk, IfErr, OnOk};
ghost use Rattle.std.specs.List.{position_or_len};
ghost use Rattle.std.specs.Str.{IsAscii};
ghost use Rattle.form_urlencoded.specs.Form.{split_pair};
ghost use Rattle.channel_globs.specs.PatternText.{without_spaces};
ghost use Rattle.query_parameters.specs.Rows.{names_of};
ghost use Rattle.query_parameters.specs.Bodies.{equals_sign, numbered_line};
ghost use Rattle.query_parameters.specs.Fronts.{PutsLine, RefusesPutLine, HasFront, RefusesFront};

use crate::fault::QueryFault;
use crate::lines::{BodyLine, trimmed};
use crate::rows::ParameterName;
use crate::words::{ParameterValue, no_words, take_parameter};
use std::alloc::Global;

// ASCII as text.
fn as_text(ascii: &[u8]) -> &str
    requires { IsAscii ascii.now }
    ensures { result.now ≡ ascii.now }
{
    str::from_utf8(ascii).unwrap()
}

fn equals_at(text: &[u8]) -> Option<usize>
    ensures value { result ≡ position (λ byte. byte == equals_sign) text.now }
    ensures within { IfSome result (λ place. place < length text.now) }
{
    text.iter().position(|byte| *byte == b'=')
}

// The place of the first `=`, or the length.
fn equals_place(text: &[u8]) -> usize
    ensures value { result ≡ position_or_len (λ byte. byte == equals_sign) text.now }
    ensures within { result ≤ length text.now }
{
    match equals_at(text) {
        Some(place) => place,
        None => text.len(),
    }
}

// What is behind that place.
fn behind(text: &[u8], place: usize) -> &[u8]
    requires { place ≤ length text.now }
    ensures { result.now ≡ drop (place + 1) text.now }
{
    if place == text.len() {
        return &[];
    }
    &text[place + 1..]
}

// The texts on the two sides of the first `=`, without the spaces round them.
fn sides(text: &[u8]) -> (&[u8], &[u8])
    ensures name { result.0.now ≡ without_spaces (split_pair text.now).0 }
    ensures value { result.1.now ≡ without_spaces (split_pair text.now).1 }
{
    let place = equals_place(text);
    (trimmed(&text[..place]), trimmed(behind(text, place)))
}

// Takes one parameter line.
fn take_line(
    alloc: Global,
    table: &[ParameterName],
    words: &mut Vec<Option<ParameterValue>>,
    line: &BodyLine<'_>,
) -> Result<(), QueryFault>
    requires { length words.old.items ≡ length table.now }
    ensures put { OnOk result (PutsLine (names_of table.now) (numbered_line line.now) words.old.items words.new.items) }
    ensures refused { IfErr result (RefusesPutLine (names_of table.now) (numbered_line line.now) words.old.items) }
{
    if !line.text.is_ascii() {
        return Err(QueryFault::Line(line.number));
    }
    let (name, value) = sides(line.text);
    take_parameter(
        alloc,
        table,
        words,
        line.number,
        as_text(name),
        as_text(value),
    )
}

/// The words of the parameter lines of a body: the first wrong line decides.
pub fn read_front(
    alloc: Global,
    table: &[ParameterName],
    lines: &[BodyLine<'_>],
) -> Result<Vec<Option<ParameterValue>>, QueryFault>
    ensures words { IfOk result (λ v. HasFront (names_of table.now) (map numbered_line lines.now) v.items) }
    ensures refused { IfErr result (RefusesFront (names_of table.now) (map numbered_line lines.now)) }
{
    let mut words = no_words(alloc, table.len())?;
    'lines: for line in lines {
        take_line(alloc, table, &mut words, line)?;
    }
    Ok(words)
}
