//! Revision lines, one by one.
ghost use Rattle.std.specs.Prelude.{◌≡◌, ◌≤◌, ◌==◌, ◌||◌, ⊤, IfOk, IfErr, MatchOption, length, map};
ghost use Rattle.std.specs.List.{list_all};
ghost use Rattle.epochs.specs.Kinds.{name_of};
ghost use Rattle.epochs.specs.Lines.{is_skipped, begins_with_number_sign, IsPlain, IsLine, texts_of};
ghost use Rattle.epochs.specs.Views.{values_of_line};
ghost use Rattle.epochs.specs.Reading.{IsHead, HasNoHead, IsSpelled, RefusesBehind, RefusesRevisionLine};

use crate::deletions::read_deletion;
use crate::fault::LineFault;
use crate::kinds::{Head, LineKind};
use crate::line::Line;
use crate::statements::read_statement;
use crate::values::{FieldFault, has_control};
use std::alloc::{AllocError, Global};

// How many bytes a line may have, without its end.
const MOST_BYTES: usize = 4000;

fn is_blank(text: &[u8]) -> bool
    ensures { result ≡ list_all (λ c. c == 32 || c == 9) text.now }
{
    text.iter().all(|byte| *byte == b' ' || *byte == b'\t')
}

fn begins_with_number_sign(text: &[u8]) -> bool
    ensures { result ≡ begins_with_number_sign text.now }
{
    match text {
        [first, ..] => *first == b'#',
        [] => false,
    }
}

/// Whether a line of a revision says nothing: it has spaces and tabs alone, or begins with `#`.
pub fn is_skipped(text: &[u8]) -> bool
    ensures { result ≡ is_skipped text.now }
{
    is_blank(text) || begins_with_number_sign(text)
}

// The text of a line that is short, in UTF-8 and without control characters.
fn plain_text(line: &[u8]) -> Option<&str>
    ensures plain { MatchOption result (¬ (IsPlain line.now)) (λ text. IsPlain line.now) }
    ensures same { MatchOption result ⊤ (λ text. text.now ≡ line.now) }
{
    if line.len() > MOST_BYTES {
        return None;
    }
    let Ok(text) = str::from_utf8(line) else {
        return None;
    };
    if has_control(text) {
        return None;
    }
    Some(text)
}

// The fields of a line, between bars.
fn fields_in(alloc: Global, text: &str) -> Result<Vec<&str>, AllocError>
    ensures { IfOk result (λ v. map (λ x. x.now) v.items ≡ texts_of text.now) }
{
    text.split('|').collect(alloc)
}

// The kind that a field names.
fn kind_named(text: &str) -> Option<LineKind>
    ensures { MatchOption result ((kind : LineKind) → ¬ (text.now ≡ name_of kind)) (λ kind. text.now ≡ name_of kind) }
{
    match text {
        "NET" => Some(LineKind::Net),
        "STA" => Some(LineKind::Sta),
        "CHA" => Some(LineKind::Cha),
        "EVT" => Some(LineKind::Evt),
        "RST" => Some(LineKind::Rst),
        "GRT" => Some(LineKind::Grt),
        "USR" => Some(LineKind::Usr),
        "WDR" => Some(LineKind::Wdr),
        _ => None,
    }
}

// How fields begin, and the fields behind that.
fn head_of<'a, 'b>(fields: &'a [&'b str]) -> Option<(Head, &'a [&'b str])>
    ensures { MatchOption result (HasNoHead (map (λ x. x.now) fields.now)) (λ h. IsHead (map (λ x. x.now) fields.now) h.0 (map (λ x. x.now) h.1.now)) }
{
    match fields {
        ["DEL", name, rest @ ..] => Some((Head::Deletes(kind_named(name)?), rest)),
        [name, rest @ ..] => Some((Head::Says(kind_named(name)?), rest)),
        [] => None,
    }
}

// The line of the fields behind a head.
fn read_behind(alloc: Global, head: Head, fields: &[&str]) -> Result<Line, FieldFault>
    ensures value { IfOk result (λ line. IsSpelled head (map (λ x. x.now) fields.now) (values_of_line line)) }
    ensures refused { IfErr result (RefusesBehind head (map (λ x. x.now) fields.now)) }
{
    match head {
        Head::Says(kind) => read_statement(alloc, kind, fields),
        Head::Deletes(kind) => read_deletion(alloc, kind, fields),
    }
}

/// The line that a text spells.
pub fn read_line(alloc: Global, text: &[u8]) -> Result<Line, FieldFault>
    ensures line { IfOk result (λ line. IsLine text.now (values_of_line line)) }
    ensures refused { IfErr result (RefusesRevisionLine text.now) }
{
    let Some(text) = plain_text(text) else {
        return Err(FieldFault::Bad(LineFault::Form));
    };
    let fields = fields_in(alloc, text)?;
    let Some((head, rest)) = head_of(&fields) else {
        return Err(FieldFault::Bad(LineFault::LineKind));
    };
    read_behind(alloc, head, rest)
}
