//! Codes in fields of fixed length.
ghost use Rattle.std.specs.Prelude.{◌≡◌, ℕ, List, ◌≤◌, length, MatchOption};
ghost use Rattle.std.specs.List.{list_all};
ghost use Rattle.std.specs.Char.{is_ascii_alphanumeric};
ghost use Rattle.mseed_header.specs.CodeField.{IsCodeField, IsLocationField, without_fill};

use channel_globs::{Code, is_blank_location};

// The field without the spaces and NUL bytes at its end.
fn before_fill(field: &[u8]) -> &[u8]
    ensures value { result.now ≡ without_fill field.now }
    ensures within { length result.now ≤ length field.now }
{
    let mut left = field;
    'end: while let [rest @ .., b' ' | 0] = left {
        left = rest;
    }
    left
}

fn is_code(bytes: &[u8]) -> bool
    ensures { result ≡ list_all is_ascii_alphanumeric bytes.now }
{
    bytes.iter().all(|byte| byte.is_ascii_alphanumeric())
}

/// The code that a field holds.
pub fn code_in(field: &[u8]) -> Option<Code>
    requires { length field.now ≤ 8 }
    ensures { MatchOption result ((code : List ℕ) → ¬ (IsCodeField field.now code)) (λ code. IsCodeField field.now code) }
{
    let word = before_fill(field);
    if !is_code(word) {
        return None;
    }
    Code::of(word)
}

/// The location code that a field holds.
pub fn location_in(field: &[u8]) -> Option<Code>
    requires { length field.now ≤ 8 }
    ensures { MatchOption result ((code : List ℕ) → ¬ (IsLocationField field.now code)) (λ code. IsLocationField field.now code) }
{
    let word = before_fill(field);
    if is_blank_location(word) {
        return Some(Code::blank());
    }
    if !is_code(word) {
        return None;
    }
    Code::of(word)
}
