//! The items of a pattern list.
ghost use Rattle.std.specs.Prelude.{◌≡◌, ◌==◌, ◌≤◌, List, length, map, IfOk, MatchResult, Ok};
ghost use Rattle.std.specs.List.{slice_split, count_by, list_all};
ghost use Rattle.channel_globs.specs.PatternText.{comma, without_spaces, drop_spaces, drop_end_spaces, is_pattern_byte, is_blank_word, item_of, RefusesItem};

use crate::patterns::GlobFault;
use crate::{Code, Part};
use std::alloc::{AllocError, Global};

fn after_spaces(text: &[u8]) -> &[u8]
    ensures { result.now ≡ drop_spaces text.now }
{
    let mut left = text;
    'front: while let [b' ', rest @ ..] = left {
        left = rest;
    }
    left
}

fn before_spaces(text: &[u8]) -> &[u8]
    ensures { result.now ≡ drop_end_spaces text.now }
{
    let mut left = text;
    'end: while let [rest @ .., b' '] = left {
        left = rest;
    }
    left
}

/// The text without the spaces round it.
pub fn trimmed(text: &[u8]) -> &[u8]
    ensures { result.now ≡ without_spaces text.now }
{
    before_spaces(after_spaces(text))
}

// Whether a byte may stand in a pattern.
fn is_allowed(byte: u8) -> bool
    ensures { result ≡ is_pattern_byte byte }
{
    byte.is_ascii_alphanumeric() || byte == b'*' || byte == b'?'
}

/// Whether a word stands for the blank location: no byte, or two hyphens.
pub fn is_blank_location(word: &[u8]) -> bool
    ensures { result ≡ is_blank_word word.now }
{
    match word {
        [] => true,
        [first, second] => *first == b'-' && *second == b'-',
        _ => false,
    }
}

fn are_allowed(word: &[u8]) -> bool
    ensures { result ≡ list_all is_pattern_byte word.now }
{
    word.iter().all(|byte| is_allowed(*byte))
}

/// Reads one item, without the spaces round it.
pub fn read_item(part: Part, word: &[u8]) -> Result<Code, GlobFault>
    ensures { MatchResult result (λ pattern. item_of part word.now ≡ Ok pattern) (RefusesItem part word.now) }
{
    if part == Part::Location && is_blank_location(word) {
        return Ok(Code::blank());
    }
    if !are_allowed(word) {
        return Err(GlobFault::Character);
    }
    match Code::of(word) {
        Some(pattern) => Ok(pattern),
        None => Err(GlobFault::Length),
    }
}

/// The pieces between the commas.
pub fn pieces(alloc: Global, text: &[u8]) -> Result<Vec<&[u8]>, AllocError>
    ensures { IfOk result (λ v. map (λ x. x.now) v.items ≡ slice_split (λ b. b == comma) text.now) }
{
    text.split(|byte| *byte == b',').collect(alloc)
}

/// How many commas a text has.
pub fn comma_count(text: &[u8]) -> usize
    ensures { result ≡ count_by (λ b. b == comma) text.now }
{
    text.iter().filter(|byte| **byte == b',').count()
}
