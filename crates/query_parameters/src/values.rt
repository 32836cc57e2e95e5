//! The values of single parameters.
ghost use Rattle.std.specs.Prelude.{◌≡◌, ◌≤◌, ◌↔◌, IsTrue, unsigned_abs, Option, Some, None, ℕ, ℤ, MatchResult};
ghost use Rattle.exact_time.specs.Decimals.{IsDecimal, whole_of};
ghost use Rattle.query_parameters.specs.Values.{asked_of, quality_of, nodata_of, flag_of, level_of, event_order_of, IsMinimum, IsCount, IsEntryNumber, IsDegrees};

use crate::level::Level;
use crate::order::EventOrder;
use dataselect::Nodata;
use exact_time::{Decimal, whole_number};
use mseed_header::Quality;

// The greatest minimum length: 10^10 seconds, in microseconds.
const GREATEST_MINIMUM: i128 = 10_000_000_000_000_000;

// The greatest number of an entry that a client may name: 10^18.
const GREATEST_ENTRY_NUMBER: u64 = 1_000_000_000_000_000_000;

/// The text is no value of that parameter.
#[derive(Clone, Copy, Debug, PartialEq, Eq)]
pub struct BadValue;

// The quality that a letter asks for.
fn asked(letter: u8) -> Option<Option<Quality>>
    ensures { result ≡ asked_of letter }
{
    match letter {
        b'B' => Some(None),
        b'D' => Some(Some(Quality::D)),
        b'R' => Some(Some(Quality::R)),
        b'Q' => Some(Some(Quality::Q)),
        b'M' => Some(Some(Quality::M)),
        _ => None,
    }
}

/// A quality (`quality`): `D`, `R`, `Q`, `M`, or `B`, which is any.
pub fn read_quality(text: &[u8]) -> Result<Option<Quality>, BadValue>
    ensures exact { MatchResult result (λ quality. quality_of text.now ≡ Some quality) (λ _. quality_of text.now ≡ None) }
{
    let [letter] = text else {
        return Err(BadValue);
    };
    match asked(*letter) {
        Some(quality) => Ok(quality),
        None => Err(BadValue),
    }
}

/// A whole number: 1 to 19 digits.
pub fn read_whole(text: &[u8]) -> Result<u64, BadValue>
    ensures exact { MatchResult result (λ n. whole_of text.now ≡ Some n) (λ _. whole_of text.now ≡ None) }
{
    match whole_number(text) {
        Some(number) => Ok(number),
        None => Err(BadValue),
    }
}

/// The least length of a segment (`minimumlength`): a decimal of seconds from 0 to 10^10, given in
/// microseconds.
pub fn read_minimum(text: &[u8]) -> Result<u64, BadValue>
    ensures exact { MatchResult result (IsMinimum text.now) (λ _. (micros : ℕ) → ¬ (IsMinimum text.now micros)) }
{
    let Ok(seconds) = Decimal::read(text) else {
        return Err(BadValue);
    };
    let micros = seconds.millionths;
    if micros < 0 || micros > GREATEST_MINIMUM {
        return Err(BadValue);
    }
    Ok(micros as u64)
}

/// A truth value, as of `longestonly`: `true` or `1`, `false` or `0`, without regard to case.
pub fn read_flag(text: &[u8]) -> Result<bool, BadValue>
    ensures exact { MatchResult result (λ flag. flag_of text.now ≡ Some flag) (λ _. flag_of text.now ≡ None) }
{
    if text.eq_ignore_ascii_case(b"true") || text == b"1".as_slice() {
        return Ok(true);
    }
    if text.eq_ignore_ascii_case(b"false") || text == b"0".as_slice() {
        return Ok(false);
    }
    Err(BadValue)
}

/// What a client is told where nothing is chosen (`nodata`): `204` or `404`.
pub fn read_nodata(text: &[u8]) -> Result<Nodata, BadValue>
    ensures exact { MatchResult result (λ nodata. nodata_of text.now ≡ Some nodata) (λ _. nodata_of text.now ≡ None) }
{
    if text == b"204".as_slice() {
        return Ok(Nodata::Quiet);
    }
    if text == b"404".as_slice() {
        return Ok(Nodata::NotFound);
    }
    Err(BadValue)
}

/// What an answer has a line for (`level`): `network`, `station` or `channel`.
pub fn read_level(text: &[u8]) -> Result<Level, BadValue>
    ensures exact { MatchResult result (λ level. level_of text.now ≡ Some level) (λ _. level_of text.now ≡ None) }
{
    if text == b"station".as_slice() {
        return Ok(Level::Station);
    }
    if text == b"network".as_slice() {
        return Ok(Level::Network);
    }
    if text == b"channel".as_slice() {
        return Ok(Level::Channel);
    }
    Err(BadValue)
}

/// A decimal, with at most 18 digits before its point.
pub fn read_decimal(text: &[u8]) -> Result<Decimal, BadValue>
    ensures exact { MatchResult result (λ number. IsDecimal text.now number.millionths) (λ _. (millionths : ℤ) → ¬ (IsDecimal text.now millionths)) }
{
    match Decimal::read(text) {
        Ok(number) => Ok(number),
        Err(_) => Err(BadValue),
    }
}

/// A whole number from 1, as of `limit`.
pub fn read_count(text: &[u8]) -> Result<u64, BadValue>
    ensures exact { MatchResult result (IsCount text.now) (λ _. (n : ℕ) → ¬ (IsCount text.now n)) }
{
    let Ok(count) = read_whole(text) else {
        return Err(BadValue);
    };
    if count == 0 {
        return Err(BadValue);
    }
    Ok(count)
}

/// The number of an entry (`seq`): a whole number from 1 to 10^18.
pub fn read_entry_number(text: &[u8]) -> Result<u64, BadValue>
    ensures exact { MatchResult result (IsEntryNumber text.now) (λ _. (n : ℕ) → ¬ (IsEntryNumber text.now n)) }
{
    let Ok(number) = read_count(text) else {
        return Err(BadValue);
    };
    if number > GREATEST_ENTRY_NUMBER {
        return Err(BadValue);
    }
    Ok(number)
}

/// The order of events (`orderby`): `time`, `time-asc`, `magnitude` or `magnitude-asc`.
pub fn read_event_order(text: &[u8]) -> Result<EventOrder, BadValue>
    ensures exact { MatchResult result (λ order. event_order_of text.now ≡ Some order) (λ _. event_order_of text.now ≡ None) }
{
    if text == b"time".as_slice() {
        return Ok(EventOrder::TimeDown);
    }
    if text == b"time-asc".as_slice() {
        return Ok(EventOrder::TimeUp);
    }
    if text == b"magnitude".as_slice() {
        return Ok(EventOrder::MagnitudeDown);
    }
    if text == b"magnitude-asc".as_slice() {
        return Ok(EventOrder::MagnitudeUp);
    }
    Err(BadValue)
}

// Whether a number has at most so many millionths on either side of 0.
fn is_at_most(number: Decimal, most: u128) -> bool
    ensures { IsTrue result ↔ (unsigned_abs number.millionths ≤ most) }
{
    number.millionths.unsigned_abs() <= most
}

/// A decimal of degrees, of at most so many millionths on either side of 0.
pub fn read_degrees(most: u128, text: &[u8]) -> Result<Decimal, BadValue>
    ensures exact { MatchResult result (λ degrees. IsDegrees most text.now degrees.millionths) (λ _. (millionths : ℤ) → ¬ (IsDegrees most text.now millionths)) }
{
    let Ok(degrees) = Decimal::read(text) else {
        return Err(BadValue);
    };
    if !is_at_most(degrees, most) {
        return Err(BadValue);
    }
    Ok(degrees)
}
