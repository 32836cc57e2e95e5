//! What the fields of a head say of the body.
ghost use Rattle.std.specs.Prelude.{◌≡◌, ◌≤◌, ◌<◌, ◌^◌, true, IfOk, IfSome, unwrap_or, map, codes};
ghost use Rattle.std.specs.List.{list_any};
ghost use Rattle.std.specs.Str.{str_to_ascii_lowercase};
ghost use Rattle.httparse.specs.Grammar.{is_token};
ghost use Rattle.http_wire.specs.Heads.{in_lower_case, is_field, has_field, length_in, first_length, gives_same, gives_other, has_bad_length, lacks_length, body_length, is_value};
ghost use Rattle.http_wire.specs.FieldPairs.{as_pair};

use crate::field::Field;
use exact_time::{Bytes, OutOfMemory, are_digits, number_of};
use std::alloc::Global;

// The text in lower case.
fn lowered(alloc: Global, text: &[u8]) -> Result<Bytes, OutOfMemory>
    ensures { IfOk result (λ lower. lower ≡ str_to_ascii_lowercase text.now) }
{
    let mut lower = Bytes::new(alloc);
    'bytes: for byte in text {
        lower.push(byte.to_ascii_lowercase())?;
    }
    Ok(lower)
}

// A copy of the text.
pub(crate) fn copied(alloc: Global, text: &[u8]) -> Result<Bytes, OutOfMemory>
    ensures { IfOk result (λ copy. copy ≡ text.now) }
{
    let mut copy = Bytes::new(alloc);
    copy.extend(text)?;
    Ok(copy)
}

// The field of this name and this value.
pub(crate) fn field_of(alloc: Global, name: &[u8], value: &[u8]) -> Result<Field, OutOfMemory>
    requires name { is_token name.now ≡ true }
    requires value { is_value value.now ≡ true }
    ensures { IfOk result (λ field. as_pair field ≡ in_lower_case (name.now, value.now)) }
{
    let name = lowered(alloc, name)?;
    let value = copied(alloc, value)?;
    Ok(Field { name, value })
}

/// Whether the field has this name, which is in lower case.
pub fn is_named(field: &Field, name: &[u8]) -> bool
    ensures { result ≡ is_field name.now (as_pair field.now) }
{
    field.name.as_slice() == name
}

// Whether there is a field of this name.
fn has_field(fields: &[Field], name: &[u8]) -> bool
    ensures { result ≡ has_field name.now (map as_pair fields.now) }
{
    'fields: for field in fields {
        if is_named(field, name) {
            return true;
        }
    }
    false
}

/// The number that 1 to 18 digits stand for; any other text stands for none.
pub fn length_in(text: &[u8]) -> Option<u64>
    ensures value { result ≡ length_in text.now }
    ensures bound { IfSome result (λ n. n < 10 ^ 18) }
{
    if text.is_empty() || text.len() > 18 || !are_digits(text) {
        return None;
    }
    Some(number_of(text))
}

// What the first Content-Length stands for.
fn first_length(fields: &[Field]) -> Option<u64>
    ensures value { result ≡ first_length (map as_pair fields.now) }
    ensures bound { IfSome result (λ n. n < 10 ^ 18) }
{
    'fields: for field in fields {
        if is_named(field, b"content-length") {
            return length_in(field.value.as_slice());
        }
    }
    None
}

fn gives_same(one: Option<u64>, other: Option<u64>) -> bool
    ensures { result ≡ gives_same one other }
{
    match (one, other) {
        (Some(one), Some(other)) => one == other,
        _ => false,
    }
}

// Whether the field is a Content-Length that doesn't stand for this number.
fn gives_other(number: Option<u64>, field: &Field) -> bool
    ensures { result ≡ gives_other number (as_pair field.now) }
{
    is_named(field, b"content-length") && !gives_same(length_in(field.value.as_slice()), number)
}

/// Whether a Content-Length stands for no number, or for another one than the first.
pub(crate) fn has_bad_length(fields: &[Field]) -> bool
    ensures { result ≡ has_bad_length (map as_pair fields.now) }
{
    let first = first_length(fields);
    'fields: for field in fields {
        if gives_other(first, field) {
            return true;
        }
    }
    false
}

/// Whether the body's length isn't said.
pub(crate) fn lacks_length(method: &[u8], fields: &[Field]) -> bool
    ensures { result ≡ lacks_length method.now (map as_pair fields.now) }
{
    has_field(fields, b"transfer-encoding")
        || (method == b"POST".as_slice() && !has_field(fields, b"content-length"))
}

/// How many bytes the body has.
pub(crate) fn body_length(fields: &[Field]) -> u64
    ensures value { result ≡ body_length (map as_pair fields.now) }
    ensures bound { result < 10 ^ 18 }
{
    first_length(fields).unwrap_or(0)
}
