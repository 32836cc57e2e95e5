//! The fields of revision lines, one by one.
ghost use Rattle.std.specs.Prelude.{◌≡◌, ◌↔◌, ◌<◌, ◌≤◌, ◌≤ℤ◌, pos, ℤ, IsTrue, IfOk, IfErr, MatchOption, length};
ghost use Rattle.std.specs.List.{list_all};
ghost use Rattle.std.specs.Char.{is_ascii_alphanumeric};
ghost use Rattle.std.specs.Str.{IsUtf8};
ghost use Rattle.exact_time.specs.Decimals.{IsDecimal};
ghost use Rattle.epochs.specs.Kinds.{CodeOf, Words, Time, End, Required, Optional, PatternsOf, EventId, UserName, Ha1, EntryNumber};
ghost use Rattle.epochs.specs.Fields.{IsField, IsQuantity, is_code_text, least_bytes, most_bytes, is_name_byte, is_id_byte, is_event_id, is_user_name, is_lower_hex, is_ha1, has_control, has_bar, is_words};
ghost use Rattle.epochs.specs.Fields.{code, words, time, end, number, optional, patterns, entry_number};
ghost use Rattle.epochs.specs.Reading.{RefusesField, bad_value, field_list_fault};
ghost use Rattle.epochs.specs.Values.{glob_value, time_value, end_value, number_value, optional_value};

use crate::fault::LineFault;
use crate::parts::Glob;
use crate::quantity::Quantity;
use channel_globs::{Code, GlobFault, Part, PatternList, is_blank_location};
use exact_time::{Decimal, Moment, OutOfMemory, Text, whole_number};
use std::alloc::{AllocError, Global};

// How many bytes a text may have.
const MOST_WORDS: usize = 200;

// The greatest number that an entry may be named by.
const GREATEST_ENTRY: u64 = 1_000_000_000_000_000_000;

/// Why a line, or a field of it, gives no value.
#[derive(Clone, Copy, Debug, PartialEq, Eq)]
pub enum FieldFault {
    Bad(LineFault),
    OutOfMemory,
}

impl From<AllocError> for FieldFault {
    ghost use Rattle.std.specs.Prelude.{◌≡◌};
    ghost use Rattle.epochs.specs.declared.values.FieldFault.TheVariants.{OutOfMemory as NoMemory};

    ghost from_gives = { λ _ e. e ≡ NoMemory };

    fn from(_error: AllocError) -> FieldFault {
        FieldFault::OutOfMemory
    }
}

impl From<OutOfMemory> for FieldFault {
    ghost use Rattle.std.specs.Prelude.{◌≡◌};
    ghost use Rattle.epochs.specs.declared.values.FieldFault.TheVariants.{OutOfMemory as NoMemory};

    ghost from_gives = { λ _ e. e ≡ NoMemory };

    fn from(_error: OutOfMemory) -> FieldFault {
        FieldFault::OutOfMemory
    }
}

/// The field of this number spells no value of its kind.
pub fn bad_value(number: u64) -> FieldFault
    ensures { result ≡ bad_value number }
{
    FieldFault::Bad(LineFault::Value(number))
}

fn least_bytes(part: Part) -> usize
    ensures { result ≡ least_bytes part }
{
    match part {
        Part::Channel => 3,
        _ => 1,
    }
}

fn most_bytes(part: Part) -> usize
    ensures value { result ≡ most_bytes part }
    ensures few { result ≤ 5 }
{
    match part {
        Part::Network => 2,
        Part::Station => 5,
        Part::Location => 2,
        Part::Channel => 3,
    }
}

fn are_alphanumeric(text: &[u8]) -> bool
    ensures { result ≡ list_all is_ascii_alphanumeric text.now }
{
    text.iter().all(|byte| byte.is_ascii_alphanumeric())
}

// Whether a text has the letters and digits of a code.
fn is_code_text(part: Part, text: &[u8]) -> bool
    ensures { result ≡ is_code_text part text.now }
{
    least_bytes(part) <= text.len() && text.len() <= most_bytes(part) && are_alphanumeric(text)
}

/// A code: letters and digits, 1 or 2 of a network, 1 to 5 of a station, 3 of a channel, 1 or 2 of a
/// location. No text and `--` are the blank location.
pub fn read_code(number: u64, part: Part, text: &str) -> Result<Code, FieldFault>
    ensures value { IfOk result (λ c. IsField (CodeOf part) text.now (code c)) }
    ensures refused { IfErr result (RefusesField (CodeOf part) number text.now) }
{
    let bytes = text.as_bytes();
    if part == Part::Location && is_blank_location(bytes) {
        return Ok(Code::blank());
    }
    if !is_code_text(part, bytes) {
        return Err(bad_value(number));
    }
    match Code::of(bytes) {
        Some(code) => Ok(code),
        None => Err(bad_value(number)),
    }
}

/// A time.
pub fn read_time(number: u64, text: &str) -> Result<Moment, FieldFault>
    ensures value { IfOk result (λ m. IsField Time text.now (time_value m)) }
    ensures refused { IfErr result (RefusesField Time number text.now) }
{
    match Moment::read(text.as_bytes()) {
        Ok(moment) => Ok(moment),
        Err(_) => Err(bad_value(number)),
    }
}

/// An end: a time, or none where there is no text.
pub fn read_end(number: u64, text: &str) -> Result<Option<Moment>, FieldFault>
    ensures value { IfOk result (λ m. IsField End text.now (end_value m)) }
    ensures refused { IfErr result (RefusesField End number text.now) }
{
    if text.is_empty() {
        return Ok(None);
    }
    match Moment::read(text.as_bytes()) {
        Ok(moment) => Ok(Some(moment)),
        Err(_) => Err(bad_value(number)),
    }
}

// Whether a quantity may have this value.
fn is_within(quantity: Quantity, value: Decimal) -> bool
    ensures { IsTrue result ↔ IsQuantity quantity value.millionths }
{
    let millionths = value.millionths;
    match quantity {
        Quantity::Latitude | Quantity::Dip => millionths.unsigned_abs() <= 90_000_000,
        Quantity::Longitude => millionths.unsigned_abs() <= 180_000_000,
        Quantity::Azimuth => 0 <= millionths && millionths <= 360_000_000,
        Quantity::Rate => 0 <= millionths,
        Quantity::Measure => true,
    }
}

// The decimal that a text spells.
fn decimal_in(text: &str) -> Option<Decimal>
    ensures { MatchOption result ((n : ℤ) → ¬ (IsDecimal text.now n)) (λ d. IsDecimal text.now d.millionths) }
{
    match Decimal::read(text.as_bytes()) {
        Ok(value) => Some(value),
        Err(_) => None,
    }
}

/// A number of a quantity.
pub fn read_number(number: u64, quantity: Quantity, text: &str) -> Result<Decimal, FieldFault>
    ensures value { IfOk result (λ d. IsField (Required quantity) text.now (number_value d)) }
    ensures refused { IfErr result (RefusesField (Required quantity) number text.now) }
{
    let Some(value) = decimal_in(text) else {
        return Err(bad_value(number));
    };
    if !is_within(quantity, value) {
        return Err(bad_value(number));
    }
    Ok(value)
}

/// A number of a quantity, or none where there is no text.
pub fn read_optional(
    number: u64,
    quantity: Quantity,
    text: &str,
) -> Result<Option<Decimal>, FieldFault>
    ensures value { IfOk result (λ d. IsField (Optional quantity) text.now (optional_value d)) }
    ensures refused { IfErr result (RefusesField (Optional quantity) number text.now) }
{
    if text.is_empty() {
        return Ok(None);
    }
    match read_number(number, quantity, text) {
        Ok(value) => Ok(Some(value)),
        Err(fault) => Err(fault),
    }
}

/// Whether a text has a control character (Unicode, general category Cc).
pub fn has_control(text: &str) -> bool
    ensures { result ≡ has_control text.now }
{
    text.chars().any(|c| c.is_control())
}

fn has_bar(text: &[u8]) -> bool
    ensures { result ≡ has_bar text.now }
{
    text.iter().any(|byte| *byte == b'|')
}

fn is_words(text: &str) -> bool
    ensures { result ≡ is_words text.now }
{
    text.len() <= MOST_WORDS && !has_control(text) && !has_bar(text.as_bytes())
}

/// A text of at most 200 bytes, without control characters and bars.
pub fn read_words(alloc: Global, number: u64, text: &str) -> Result<Text, FieldFault>
    ensures value { IfOk result (λ t. IsField Words text.now (words t)) }
    ensures refused { IfErr result (RefusesField Words number text.now) }
{
    if !is_words(text) {
        return Err(bad_value(number));
    }
    text_of(alloc, text)
}

// The text of a piece of a line.
fn text_of(alloc: Global, text: &str) -> Result<Text, FieldFault>
    ensures value { IfOk result (λ t. t ≡ text.now) }
    ensures refused { IfErr result (λ fault. fault ≡ FieldFault.OutOfMemory) }
{
    let mut held = Text::new(alloc);
    held.push(text)?;
    Ok(held)
}

fn is_name_byte(byte: u8) -> bool
    ensures { result ≡ is_name_byte byte }
{
    byte.is_ascii_alphanumeric() || byte == b'_' || byte == b'-' || byte == b'.'
}

fn is_id_byte(byte: u8) -> bool
    ensures { result ≡ is_id_byte byte }
{
    is_name_byte(byte) || byte == b':' || byte == b'/'
}

fn are_name_bytes(text: &[u8]) -> bool
    ensures { result ≡ list_all is_name_byte text.now }
{
    text.iter().all(|byte| is_name_byte(*byte))
}

fn are_id_bytes(text: &[u8]) -> bool
    ensures { result ≡ list_all is_id_byte text.now }
{
    text.iter().all(|byte| is_id_byte(*byte))
}

fn is_event_id(text: &[u8]) -> bool
    ensures { result ≡ is_event_id text.now }
{
    1 <= text.len() && text.len() <= 64 && are_id_bytes(text)
}

/// Whether a text is a user's name: 1 to 32 letters, digits and `_ - .`.
pub fn is_user_name(text: &[u8]) -> bool
    ensures { result ≡ is_user_name text.now }
{
    1 <= text.len() && text.len() <= 32 && are_name_bytes(text)
}

/// The id of an event: 1 to 64 letters, digits and `_ - . : /`.
pub fn read_event_id(alloc: Global, number: u64, text: &str) -> Result<Text, FieldFault>
    ensures value { IfOk result (λ t. IsField EventId text.now (words t)) }
    ensures refused { IfErr result (RefusesField EventId number text.now) }
{
    if !is_event_id(text.as_bytes()) {
        return Err(bad_value(number));
    }
    text_of(alloc, text)
}

/// The name of a user.
pub fn read_user_name(alloc: Global, number: u64, text: &str) -> Result<Text, FieldFault>
    ensures value { IfOk result (λ t. IsField UserName text.now (words t)) }
    ensures refused { IfErr result (RefusesField UserName number text.now) }
{
    if !is_user_name(text.as_bytes()) {
        return Err(bad_value(number));
    }
    text_of(alloc, text)
}

fn is_lower_hex(byte: u8) -> bool
    ensures { result ≡ is_lower_hex byte }
{
    byte.is_ascii_digit() || (b'a' <= byte && byte <= b'f')
}

fn are_lower_hex(text: &[u8]) -> bool
    ensures { result ≡ list_all is_lower_hex text.now }
{
    text.iter().all(|byte| is_lower_hex(*byte))
}

/// Whether a text is an HA1 of Digest access authentication (RFC 2617, section 3.2.2.2): 32 lower-case
/// hexadecimal digits.
pub fn is_ha1(text: &[u8]) -> bool
    ensures { result ≡ is_ha1 text.now }
{
    text.len() == 32 && are_lower_hex(text)
}

/// An HA1, as its digits.
pub fn read_ha1(number: u64, text: &str) -> Result<[u8; 32], FieldFault>
    ensures value { IfOk result (λ digits. IsField Ha1 text.now (words digits)) }
    ensures refused { IfErr result (RefusesField Ha1 number text.now) }
{
    let bytes = text.as_bytes();
    if !is_ha1(bytes) {
        return Err(bad_value(number));
    }
    let mut digits = [0; 32];
    digits.copy_from_slice(bytes);
    Ok(digits)
}

/// The number of an entry, 1 to 10^18.
pub fn read_entry_number(number: u64, text: &str) -> Result<u64, FieldFault>
    ensures value { IfOk result (λ entry. IsField EntryNumber text.now (entry_number entry)) }
    ensures refused { IfErr result (RefusesField EntryNumber number text.now) }
{
    let Some(entry) = whole_number(text.as_bytes()) else {
        return Err(bad_value(number));
    };
    if entry == 0 || entry > GREATEST_ENTRY {
        return Err(bad_value(number));
    }
    Ok(entry)
}

fn field_list_fault(number: u64, fault: GlobFault) -> FieldFault
    ensures { result ≡ field_list_fault number fault }
{
    match fault {
        GlobFault::OutOfMemory => FieldFault::OutOfMemory,
        _ => bad_value(number),
    }
}

/// A list of patterns.
pub fn read_glob(alloc: Global, number: u64, part: Part, text: &str) -> Result<Glob, FieldFault>
    ensures value { IfOk result (λ glob. IsField (PatternsOf part) text.now (glob_value glob)) }
    ensures refused { IfErr result (RefusesField (PatternsOf part) number text.now) }
{
    match PatternList::read(alloc, text.as_bytes(), part) {
        Ok(list) => Ok(Glob {
            text: text_of(alloc, text)?,
            list,
        }),
        Err(fault) => Err(field_list_fault(number, fault)),
    }
}
