//! What a head asks of the connection.
ghost use Rattle.std.specs.Prelude.{◌≡◌, ◌==◌, IfOk, map, codes};
ghost use Rattle.std.specs.List.{list_any, slice_split};
ghost use Rattle.std.specs.Str.{str_eq_ignore_ascii_case};
ghost use Rattle.httparse.specs.Ascii.{comma};
ghost use Rattle.http_wire.specs.FieldPairs.{as_pair};
ghost use Rattle.http_wire.specs.HeadReading.{head_view};
ghost use Rattle.http_wire.specs.Heads.{is_close, wants_close, closes, expects_continue, asks_interim};

use crate::field::Field;
use crate::fields::{body_length, is_named};
use crate::head::Head;
use exact_time::OutOfMemory;
use std::alloc::{AllocError, Global};

fn says_close(text: &[u8]) -> bool
    ensures { result ≡ str_eq_ignore_ascii_case text.now (codes "close") }
{
    text.eq_ignore_ascii_case(b"close")
}

fn is_close(item: &[u8]) -> bool
    ensures { result ≡ is_close item.now }
{
    says_close(item.trim_ascii())
}

// The items of a list by commas.
fn items_in(alloc: Global, text: &[u8]) -> Result<Vec<&[u8]>, AllocError>
    ensures { IfOk result (λ items. map (λ x. x.now) items.items ≡ slice_split (λ b. b == comma) text.now) }
{
    text.split(|byte| *byte == b',').collect(alloc)
}

fn has_close(items: &[&[u8]]) -> bool
    ensures { result ≡ list_any (λ x. is_close x.now) items.now }
{
    items.iter().any(|item| is_close(item))
}

// Whether the field is a Connection that has the item `close`.
fn wants_close(alloc: Global, field: &Field) -> Result<bool, AllocError>
    ensures { IfOk result (λ wants. wants ≡ wants_close (as_pair field.now)) }
{
    if !is_named(field, b"connection") {
        return Ok(false);
    }
    let items = items_in(alloc, field.value.as_slice())?;
    Ok(has_close(&items))
}

// Whether one of the fields does.
fn any_wants_close(alloc: Global, fields: &[Field]) -> Result<bool, AllocError>
    ensures { IfOk result (λ wants. wants ≡ list_any wants_close (map as_pair fields.now)) }
{
    'fields: for field in fields {
        if wants_close(alloc, field)? {
            return Ok(true);
        }
    }
    Ok(false)
}

// Whether the connection closes behind the request.
pub(crate) fn closes(alloc: Global, head: &Head) -> Result<bool, OutOfMemory>
    ensures { IfOk result (λ does. does ≡ closes (head_view head.now)) }
{
    if head.minor == 0 {
        return Ok(true);
    }
    Ok(any_wants_close(alloc, head.fields.as_slice())?)
}

fn expects_continue(field: &Field) -> bool
    ensures { result ≡ expects_continue (as_pair field.now) }
{
    is_named(field, b"expect") && field.value.as_slice().eq_ignore_ascii_case(b"100-continue")
}

fn any_expects(fields: &[Field]) -> bool
    ensures { result ≡ list_any expects_continue (map as_pair fields.now) }
{
    'fields: for field in fields {
        if expects_continue(field) {
            return true;
        }
    }
    false
}

// Whether the head asks for the interim reply.
pub(crate) fn asks_interim(head: &Head) -> bool
    ensures { result ≡ asks_interim (head_view head.now) }
{
    let fields = head.fields.as_slice();
    head.minor == 1 && body_length(fields) > 0 && any_expects(fields)
}
