//! What a client answers to a challenge.
ghost use Rattle.std.specs.Prelude.{◌≡◌, ◌++◌, true, codes, IfOk, OnOk};
ghost use Rattle.std.specs.Str.{IsUtf8};
ghost use Rattle.http_digest.specs.Answers.{is_special, quoted, value_with, are_visible, authorization_text};

use crate::response::response_of;
use exact_time::{Bytes, OutOfMemory, Text};
use std::alloc::Global;

fn is_special(byte: u8) -> bool
    ensures { result ≡ is_special byte }
{
    byte == b'"' || byte == b'\\'
}

// Puts words in quotation marks at the end.
fn push_quoted(text: &mut Bytes, words: &[u8]) -> Result<(), OutOfMemory>
    ensures { OnOk result (text.new ≡ text.old ++ quoted words.now) }
{
    text.push(b'"')?;
    'bytes: for byte in words {
        if is_special(*byte) {
            text.push(b'\\')?;
        }
        text.push(*byte)?;
    }
    text.push(b'"')
}

// Puts an item at the end: its name as it stands, and its value in quotation marks.
fn push_item(text: &mut Bytes, name: &[u8], value: &[u8]) -> Result<(), OutOfMemory>
    ensures { OnOk result (text.new ≡ text.old ++ (name.now ++ quoted value.now)) }
{
    text.extend(name)?;
    push_quoted(text, value)
}

// The items, in their order, behind the name of the scheme.
fn value_with(
    alloc: Global,
    user: &[u8],
    nonce: &[u8],
    target: &[u8],
    response: &[u8],
) -> Result<Bytes, OutOfMemory>
    ensures { IfOk result (λ bytes. bytes ≡ value_with (quoted user.now) (quoted (codes "FDSN")) (quoted nonce.now) (quoted target.now) (quoted response.now)) }
{
    let mut bytes = Bytes::new(alloc);
    push_item(&mut bytes, b"Digest username=", user)?;
    push_item(&mut bytes, b", realm=", b"FDSN")?;
    push_item(&mut bytes, b", nonce=", nonce)?;
    push_item(&mut bytes, b", uri=", target)?;
    push_item(&mut bytes, b", response=", response)?;
    Ok(bytes)
}

// The bytes as text.
fn text_of(alloc: Global, bytes: &[u8]) -> Result<Text, OutOfMemory>
    requires { IsUtf8 bytes.now }
    ensures { IfOk result (λ text. text ≡ bytes.now) }
{
    let mut text = Text::new(alloc);
    text.push(str::from_utf8(bytes).unwrap())?;
    Ok(text)
}

/// The value of the header Authorization with which a client answers a challenge (RFC 2617, section 3.2.2), without a quality of
/// protection: user, realm `FDSN`, nonce, target and response, each quoted. `ha1` is the digest of `user:realm:password` as 32
/// hexadecimal digits. [`read_authorization`](crate::read_authorization) reads it as these parts (`an_answer_reads_back`).
///
/// User, target and nonce have to be visible characters of ASCII.
pub fn authorization_of(
    alloc: Global,
    user: &[u8],
    ha1: &[u8; 32],
    method: &[u8],
    target: &[u8],
    nonce: &[u8],
) -> Result<Text, OutOfMemory>
    requires user { are_visible user.now ≡ true }
    requires target { are_visible target.now ≡ true }
    requires nonce { are_visible nonce.now ≡ true }
    ensures { IfOk result (λ text. text ≡ authorization_text user.now ha1.now method.now target.now nonce.now) }
{
    let response = response_of(ha1, method, target, nonce, None);
    let bytes = value_with(alloc, user, nonce, target, response.as_slice())?;
    text_of(alloc, bytes.as_slice())
}
