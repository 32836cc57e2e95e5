//! The lines of a body.
ghost use Rattle.std.specs.Prelude.{◌≡◌, ◌+◌, ◌<◌, ◌≤◌, ◌==◌, ◌∷◌, length, map, position, IfSome, IfOk};
ghost use Rattle.std.specs.List.{list_all, list_any, slice_split};
ghost use Rattle.std.specs.Str.Lines.{lines, strip_carriage_return};
ghost use Rattle.channel_globs.specs.PatternText.{drop_spaces, drop_end_spaces, without_spaces};
ghost use Rattle.query_parameters.specs.Bodies.{is_gap, is_blank_line, has_equals, numbered_line, lines_of, front_count};

use std::alloc::{AllocError, Global};
use text_lines::cut_line;

/// A line of a body, and its number from 1.
#[derive(Clone, Copy)]
pub struct BodyLine<'a> {
    pub number: u64,
    pub text: &'a [u8],
}

/// Whether a byte is a space or a tab.
pub fn is_gap(byte: u8) -> bool
    ensures { result ≡ is_gap byte }
{
    byte == b' ' || byte == b'\t'
}

fn is_blank_line(text: &[u8]) -> bool
    ensures { result ≡ is_blank_line text.now }
{
    text.iter().all(|byte| is_gap(*byte))
}

/// Whether a line has a `=`.
pub fn has_equals(text: &[u8]) -> bool
    ensures { result ≡ has_equals text.now }
{
    text.iter().any(|byte| *byte == b'=')
}

/// How many lines of a body aren't blank. Takes no memory.
pub fn line_count(body: &[u8]) -> usize
    ensures { result ≡ length (lines_of body.now) }
{
    let mut count = 0usize;
    let mut left = body;
    'lines: while !left.is_empty() {
        let (text, rest) = cut_line(left);
        if !is_blank_line(text) {
            count += 1;
        }
        left = rest;
    }
    count
}

/// The lines of a body that aren't blank, with their numbers.
pub fn body_lines(alloc: Global, body: &[u8]) -> Result<Vec<BodyLine<'_>>, AllocError>
    ensures { IfOk result (λ v. map numbered_line v.items ≡ lines_of body.now) }
{
    let mut lines = Vec::new(alloc);
    let mut number = 0usize;
    let mut left = body;
    'lines: while !left.is_empty() {
        let (text, rest) = cut_line(left);
        number += 1;
        if !is_blank_line(text) {
            lines.push(BodyLine {
                number: number as u64,
                text,
            })?;
        }
        left = rest;
    }
    Ok(lines)
}

/// How many parameter lines there are: lines with `=` before the first without.
pub fn front_len(lines: &[BodyLine<'_>]) -> usize
    ensures value { result ≡ front_count (map numbered_line lines.now) }
    ensures within { result ≤ length lines.now }
{
    let mut count = 0usize;
    'front: for line in lines {
        if !has_equals(line.text) {
            return count;
        }
        count += 1;
    }
    count
}

fn after_spaces(text: &[u8]) -> &[u8]
    ensures { result.now ≡ drop_spaces text.now }
{
    let mut left = text;
    'front: while let [b' ', rest @ ..] = left {
        left = rest;
    }
    left
}

fn before_spaces(text: &[u8]) -> &[u8]
    ensures { result.now ≡ drop_end_spaces text.now }
{
    let mut left = text;
    'end: while let [rest @ .., b' '] = left {
        left = rest;
    }
    left
}

/// The text without the spaces round it.
pub fn trimmed(text: &[u8]) -> &[u8]
    ensures { result.now ≡ without_spaces text.now }
{
    before_spaces(after_spaces(text))
}
