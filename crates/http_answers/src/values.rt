//! The values of fields.
ghost use Rattle.std.specs.Prelude.{◌≡◌, ◌≤◌, ◌<◌, ◌^◌, true, length, map, codes, IfOk, IfSome, option_map, All, IsTrue, drop, take};
ghost use Rattle.std.specs.List.{list_all};
ghost use Rattle.std.specs.Char.{is_ascii_hexdigit};
ghost use Rattle.std.specs.Str.{str_eq_ignore_ascii_case};
ghost use Rattle.std.specs.Str.Parse.{digits_value};
ghost use Rattle.httparse.specs.Spans.{IsHeaderWithin, header_bytes};
ghost use Rattle.exact_time.specs.DecimalSteps.{are_digits};
ghost use Rattle.http_answers.specs.ReplyHeads.{value_of, front_in, has_nonce, begins_nonce, nonce_in};

use exact_time::{OutOfMemory, Text, are_digits};
use httparse::spans::HeaderSpan;
use std::alloc::Global;

// Whether both are one name, in any case.
fn is_name(text: &[u8], name: &[u8]) -> bool
    ensures { result ≡ str_eq_ignore_ascii_case text.now name.now }
{
    text.eq_ignore_ascii_case(name)
}

// The value of the first field of this name.
pub(crate) fn value_of<'b>(block: &'b [u8], spans: &[HeaderSpan], name: &[u8]) -> Option<&'b [u8]>
    requires within { All (IsHeaderWithin (length block.now)) spans.now }
    ensures { option_map (λ value. value.now) result ≡ value_of name.now (map (header_bytes block.now) spans.now) }
{
    'spans: for span in spans {
        if is_name(span.name.of(block), name) {
            return Some(span.value.of(block));
        }
    }
    None
}

// The number that at most 20 digits stand for.
fn wide(digits: &[u8]) -> u128
    requires digits { are_digits digits.now ≡ true }
    requires short { length digits.now ≤ 20 }
    ensures value { result ≡ digits_value 10 digits.now }
{
    let mut number = 0u128;
    'digits: for digit in digits {
        number = number * 10 + u128::from(*digit - b'0');
    }
    number
}

// The number of entries that a value tells.
pub(crate) fn front_in(text: &[u8]) -> Option<u64>
    ensures { result ≡ front_in text.now }
{
    if text.is_empty() || text.len() > 20 || !are_digits(text) {
        return None;
    }
    let number = wide(text);
    if number < 1 << 64 {
        Some(number as u64)
    } else {
        None
    }
}

fn are_hex(text: &[u8]) -> bool
    ensures { result ≡ list_all is_ascii_hexdigit text.now }
{
    text.iter().all(|byte| byte.is_ascii_hexdigit())
}

// Whether 48 hexadecimal digits and a quotation mark stand here.
fn has_nonce(text: &[u8]) -> bool
    ensures same { result ≡ has_nonce text.now }
    ensures digits { IsTrue result → list_all is_ascii_hexdigit (take 48 text.now) ≡ true }
    ensures long { IsTrue result → 49 ≤ length text.now }
{
    if text.len() < 49 {
        return false;
    }
    let (digits, rest) = text.split_at(48);
    if !are_hex(digits) {
        return false;
    }
    rest[0] == b'"'
}

// Whether a quoted nonce stands here, behind its name.
fn begins_nonce(text: &[u8]) -> bool
    ensures same { result ≡ begins_nonce text.now }
    ensures digits { IsTrue result → list_all is_ascii_hexdigit (take 48 (drop 7 text.now)) ≡ true }
    ensures long { IsTrue result → 56 ≤ length text.now }
{
    text.starts_with(b"nonce=\"") && has_nonce(&text[7..])
}

// The first one.
pub(crate) fn nonce_in(text: &[u8]) -> Option<&[u8]>
    ensures value { option_map (λ nonce. nonce.now) result ≡ nonce_in text.now }
    ensures digits { IfSome result (λ nonce. list_all is_ascii_hexdigit nonce.now ≡ true) }
{
    let mut left = text;
    'bytes: while let [_, rest @ ..] = left {
        if begins_nonce(left) {
            return Some(&left[7..55]);
        }
        left = rest;
    }
    None
}

// The text of hexadecimal digits.
pub(crate) fn text_of(alloc: Global, digits: &[u8]) -> Result<Text, OutOfMemory>
    requires { list_all is_ascii_hexdigit digits.now ≡ true }
    ensures { IfOk result (λ text. text ≡ digits.now) }
{
    let mut text = Text::new(alloc);
    text.push(str::from_utf8(digits).unwrap())?;
    Ok(text)
}
