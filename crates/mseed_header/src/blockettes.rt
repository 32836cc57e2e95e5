//! The chain of a record's blockettes (SEED 2.4, data record blockettes).
ghost use Rattle.std.specs.Prelude.{◌≡◌, ◌+◌, ◌<◌, ◌≤◌, ◌↔◌, ◌∷◌, [], IsTrue, None, length, OnOk, IfOk, IfErr};
ghost use Rattle.std.specs.Int.{IsInRange};
ghost use Rattle.std.specs.Option.{option_or};
ghost use Rattle.mseed_header.specs.Blockettes.{kind_at, size_at, end_at, reach_at, exponent_at, end_after, offsets_of, record_size, told_micros, micros_of, HasChain, IsPast, RefusesAt, RefusesChain};

use crate::RecordFault;
use crate::numbers::u16_of;

/// What the chain of blockettes says of its record.
#[derive(Clone, Copy)]
pub struct Blockettes {
    /// The record's length in bytes, if there is a blockette 1000.
    pub size: Option<u32>,
    /// Microseconds that belong to the start time.
    pub micros: i8,
    /// Where the last blockette ends.
    pub end: usize,
}

// How many bytes the blockette at an offset has.
fn size_in(little: bool, bytes: &[u8], at: usize) -> usize
    requires { at + 4 ≤ length bytes.now }
    ensures { result ≡ size_at little bytes.now at }
{
    let kind = u16_of(little, bytes, at);
    if kind == 1000 || kind == 1001 { 8 } else { 4 }
}

// How far the blockette at an offset reaches.
fn reach_in(little: bool, bytes: &[u8], at: usize) -> usize
    requires { at < 65_536 }
    ensures { result ≡ reach_at little bytes.now at }
{
    if at + 4 <= bytes.len() {
        at + size_in(little, bytes, at)
    } else {
        at + 4
    }
}

// Whether that is past the record's length, as far as it is known.
fn is_past(known: Option<u32>, reach: usize) -> bool
    ensures { IsTrue result ↔ IsPast known reach }
{
    match known {
        Some(size) => (size as usize) < reach,
        None => false,
    }
}

// Where the blockette at an offset ends, if it can stand there.
fn end_in(
    little: bool,
    bytes: &[u8],
    known: Option<u32>,
    low: usize,
    at: usize,
) -> Result<usize, RecordFault>
    requires { at < 65_536 }
    ensures value { IfOk result (λ end. end ≡ end_at little bytes.now at) }
    ensures rises { OnOk result (low ≤ at) }
    ensures whole { OnOk result (end_at little bytes.now at ≤ length bytes.now) }
    ensures err { IfErr result (RefusesAt little bytes.now known low at) }
{
    if at < low {
        return Err(RecordFault::Chain);
    }
    let reach = reach_in(little, bytes, at);
    if reach <= bytes.len() {
        return Ok(reach);
    }
    if is_past(known, reach) {
        return Err(RecordFault::Chain);
    }
    Err(RecordFault::Short)
}

// The record's length with the blockette at an offset, of which the first blockette 1000 decides.
fn size_with(
    little: bool,
    bytes: &[u8],
    known: Option<u32>,
    at: usize,
) -> Result<Option<u32>, RecordFault>
    requires { end_at little bytes.now at ≤ length bytes.now }
    ensures value { IfOk result (λ size. size ≡ option_or known (record_size little bytes.now (at ∷ []))) }
    ensures exponent { OnOk result (kind_at little bytes.now at ≡ 1000 → known ≡ None → IsInRange 7 16 (exponent_at bytes.now at)) }
    ensures fault { IfErr result (λ fault. fault ≡ RecordFault.Length) }
    ensures kind { IfErr result (λ fault. kind_at little bytes.now at ≡ 1000) }
    ensures first { IfErr result (λ fault. known ≡ None) }
    ensures refused { IfErr result (λ fault. ¬ (IsInRange 7 16 (exponent_at bytes.now at))) }
{
    if known.is_some() || u16_of(little, bytes, at) != 1000 {
        return Ok(known);
    }
    let exponent = bytes[at + 6];
    if exponent < 7 || 16 < exponent {
        return Err(RecordFault::Length);
    }
    Ok(Some(1u32 << exponent))
}

// The microseconds with the blockette at an offset, of which the first blockette 1001 decides.
fn micros_with(little: bool, bytes: &[u8], told: Option<i8>, at: usize) -> Option<i8>
    requires { end_at little bytes.now at ≤ length bytes.now }
    ensures { result ≡ option_or told (told_micros little bytes.now (at ∷ [])) }
{
    if told.is_some() || u16_of(little, bytes, at) != 1001 {
        return told;
    }
    Some(bytes[at + 5].cast_signed())
}

/// What the chain of blockettes says, or why there is none.
pub fn blockettes_in(little: bool, bytes: &[u8]) -> Result<Blockettes, RecordFault>
    requires { 48 ≤ length bytes.now }
    ensures chain { OnOk result (HasChain little bytes.now) }
    ensures size { IfOk result (λ b. b.size ≡ record_size little bytes.now (offsets_of little bytes.now)) }
    ensures micros { IfOk result (λ b. b.micros ≡ micros_of little bytes.now (offsets_of little bytes.now)) }
    ensures end { IfOk result (λ b. b.end ≡ end_after little bytes.now 48 (offsets_of little bytes.now)) }
    ensures err { IfErr result (RefusesChain little bytes.now) }
{
    let mut at = u16_of(little, bytes, 46) as usize;
    let mut end = 48;
    let mut size = None;
    let mut micros = None;
    'chain: while at != 0 {
        end = end_in(little, bytes, size, end, at)?;
        size = size_with(little, bytes, size, at)?;
        micros = micros_with(little, bytes, micros, at);
        at = u16_of(little, bytes, at + 2) as usize;
    }
    Ok(Blockettes {
        size,
        micros: micros.unwrap_or(0),
        end,
    })
}
