//! Cases that are text: the steps of a file, and the escapes of what stands in them.
//!
//! A line is empty, a comment that begins with '#', or a step: a call, a blank, what it is given, ` => `, and what is wanted of it.
//! The programs of cases share it. Nothing but tests uses it, so that its functions have no contracts.
#![tactic(auto)]

use exact_time::{Bytes, OutOfMemory};
use std::alloc::Global;

/// A step of a file of cases.
#[derive(Clone, Copy, Debug)]
pub struct Step<'a> {
    /// The number of its line, from 1.
    pub line: usize,
    /// What is called.
    pub call: &'a str,
    /// What the call is given, with its escapes.
    pub args: &'a str,
    /// What is wanted, with its escapes.
    pub wanted: &'a str,
}

impl<'a> Step<'a> {
    /// The step that a line is, up to the first ` => `; None for an empty line and a comment.
    pub fn of(line: usize, text: &'a str) -> Option<Step<'a>> {
        if text.is_empty() || text.starts_with('#') {
            return None;
        }
        let (given, wanted) = text.split_once(" => ").unwrap_or((text, ""));
        let (call, args) = given.split_once(' ').unwrap_or((given, ""));
        Some(Step {
            line,
            call,
            args,
            wanted,
        })
    }
}

// What a letter behind a backslash stands for.
fn letter(byte: u8) -> u8 {
    match byte {
        b'n' => b'\n',
        b'r' => b'\r',
        b't' => b'\t',
        b's' => b' ',
        other => other,
    }
}

// The value of a hexadecimal digit, or 0.
fn digit(byte: u8) -> u8 {
    match byte {
        b'0'..=b'9' => byte - b'0',
        b'a'..=b'f' => byte - b'a' + 10,
        _ => 0,
    }
}

/// The bytes that a text with escapes stands for: `\n`, `\r`, `\t`, `\s` (a blank), `\\`, and `\x` with two lowercase hexadecimal digits.
pub fn unescaped(alloc: Global, text: &str) -> Result<Bytes, OutOfMemory> {
    let mut bytes = Bytes::new(alloc);
    let mut rest = text.as_bytes().iter();
    while let Some(byte) = rest.next() {
        let byte = match (*byte, rest.as_slice()) {
            (b'\\', [b'x', high, low, ..]) => {
                let byte = (digit(*high) << 4) | digit(*low);
                rest.next();
                rest.next();
                rest.next();
                byte
            }
            (b'\\', [escaped, ..]) => {
                rest.next();
                letter(*escaped)
            }
            (byte, _) => byte,
        };
        bytes.push(byte)?;
    }
    Ok(bytes)
}

// Puts a byte as text.
fn put_escaped(text: &mut String, byte: u8) -> Result<(), OutOfMemory> {
    match byte {
        b'\n' => text.push_str("\\n")?,
        b'\r' => text.push_str("\\r")?,
        b'\t' => text.push_str("\\t")?,
        b'\\' => text.push_str("\\\\")?,
        0x20..=0x7e => text.push(char::from(byte))?,
        _ => write!(text, "\\x{byte:02x}")?,
    }
    Ok(())
}

/// Bytes as text: every byte that isn't printable ASCII, and the backslash, by its escape.
pub fn escaped(alloc: Global, bytes: &[u8]) -> Result<String, OutOfMemory> {
    let mut text = String::new(alloc);
    for byte in bytes {
        put_escaped(&mut text, *byte)?;
    }
    Ok(text)
}
