//! The engine: reads parameters by a table of rows, one word for each row.
ghost use Rattle.std.specs.Prelude.{◌≡◌, ◌≤◌, ◌==◌, ◌↔◌, IsTrue, List, [], length, replicate, None, IfOk, IfErr, OnOk, MatchResult};
ghost use Rattle.std.specs.List.{list_any};
ghost use Rattle.channel_globs.specs.PatternText.{IsPatternList};
ghost use Rattle.query_parameters.specs.Rows.{names_of};
ghost use Rattle.query_parameters.specs.Values.{is_garbled, IsLeftOut};
ghost use Rattle.query_parameters.specs.Parameters.{pairs_of, parameters_of};
ghost use Rattle.query_parameters.specs.Words.{IsParameterValue, RefusesValue, CannotRead, list_fault, IsOption, IsFixed, IsWhole, ReadsValue, PutsValue, RefusesPut, HasReadParameters, RefusesParameters};

use crate::avail::{AvailForm, AvailOrder, Merges, QualitySet};
use crate::fault::QueryFault;
use crate::level::Level;
use crate::listed::{
    is_form_left_out, items_in, read_avail_form, read_extent_order, read_merges, read_qualities,
    read_spans_order,
};
use crate::order::EventOrder;
use crate::rows::{ParameterName, ValueKind, place_of_name};
use crate::values::{
    read_count, read_decimal, read_degrees, read_entry_number, read_event_order, read_flag,
    read_level, read_minimum, read_nodata, read_quality,
};
use channel_globs::{GlobFault, Part, PatternList};
use dataselect::Nodata;
use exact_time::{Decimal, Moment, Text};
use mseed_header::Quality;
use std::alloc::{AllocError, Global};

/// A value that was read.
#[derive(Drop)]
pub enum ParameterValue {
    Time(Moment),
    Patterns(PatternList),
    Nodata(Nodata),
    Quality(Option<Quality>),
    Micros(u64),
    Flag(bool),
    Level(Level),
    Number(Decimal),
    Whole(u64),
    Text(Text),
    EventOrder(EventOrder),
    Qualities(QualitySet),
    Merges(Merges),
    AvailOrder(AvailOrder),
    AvailForm(AvailForm),
    /// The one value that its kind takes.
    Nothing,
}

/// Why a value is refused.
#[derive(Clone, Copy, Debug, PartialEq, Eq, Drop)]
pub enum ValueFault {
    OutOfScope,
    Value,
    OutOfMemory,
}

// Whether the text has the character that stands for what isn't UTF-8.
fn is_garbled(text: &str) -> bool
    ensures { result ≡ is_garbled text.now }
{
    text.chars().any(|c| c == '\u{FFFD}')
}

fn read_time(text: &[u8]) -> Result<ParameterValue, ValueFault>
    ensures word { IfOk result (IsParameterValue ValueKind.Time text.now) }
    ensures refused { IfErr result (CannotRead ValueKind.Time text.now) }
{
    match Moment::read(text) {
        Ok(moment) => Ok(ParameterValue::Time(moment)),
        Err(_) => Err(ValueFault::Value),
    }
}

// How a fault of a pattern list is a fault of a value.
fn list_fault(fault: GlobFault) -> ValueFault
    ensures { result ≡ list_fault fault }
{
    match fault {
        GlobFault::OutOfMemory => ValueFault::OutOfMemory,
        _ => ValueFault::Value,
    }
}

/// Reads a list of patterns.
pub fn read_list(alloc: Global, part: Part, text: &[u8]) -> Result<PatternList, ValueFault>
    ensures list { IfOk result (IsPatternList part text.now) }
    ensures refused { IfErr result (CannotRead (ValueKind.Patterns part) text.now) }
{
    match PatternList::read(alloc, text, part) {
        Ok(list) => Ok(list),
        Err(fault) => Err(list_fault(fault)),
    }
}

fn read_patterns(alloc: Global, part: Part, text: &[u8]) -> Result<ParameterValue, ValueFault>
    ensures word { IfOk result (IsParameterValue (ValueKind.Patterns part) text.now) }
    ensures refused { IfErr result (CannotRead (ValueKind.Patterns part) text.now) }
{
    match read_list(alloc, part, text) {
        Ok(list) => Ok(ParameterValue::Patterns(list)),
        Err(fault) => Err(fault),
    }
}

// The value of a kind that takes one value alone.
fn read_fixed(kind: ValueKind, text: &[u8]) -> Result<ParameterValue, ValueFault>
    requires { IsFixed kind }
    ensures word { IfOk result (IsParameterValue kind text.now) }
    ensures refused { IfErr result (CannotRead kind text.now) }
{
    let right = match kind {
        ValueKind::Format => text == b"miniseed".as_slice(),
        ValueKind::TextForm => text == b"text".as_slice(),
        ValueKind::Always => read_flag(text) == Ok(true),
        _ => read_flag(text) == Ok(false),
    };
    if right {
        return Ok(ParameterValue::Nothing);
    }
    Err(ValueFault::Value)
}

fn read_number(text: &[u8]) -> Result<ParameterValue, ValueFault>
    ensures word { IfOk result (IsParameterValue ValueKind.Decimal text.now) }
    ensures refused { IfErr result (CannotRead ValueKind.Decimal text.now) }
{
    match read_decimal(text) {
        Ok(number) => Ok(ParameterValue::Number(number)),
        Err(_) => Err(ValueFault::Value),
    }
}

fn read_latitude(text: &[u8]) -> Result<ParameterValue, ValueFault>
    ensures word { IfOk result (IsParameterValue ValueKind.Latitude text.now) }
    ensures refused { IfErr result (CannotRead ValueKind.Latitude text.now) }
{
    match read_degrees(90_000_000, text) {
        Ok(degrees) => Ok(ParameterValue::Number(degrees)),
        Err(_) => Err(ValueFault::Value),
    }
}

fn read_longitude(text: &[u8]) -> Result<ParameterValue, ValueFault>
    ensures word { IfOk result (IsParameterValue ValueKind.Longitude text.now) }
    ensures refused { IfErr result (CannotRead ValueKind.Longitude text.now) }
{
    match read_degrees(180_000_000, text) {
        Ok(degrees) => Ok(ParameterValue::Number(degrees)),
        Err(_) => Err(ValueFault::Value),
    }
}

fn read_whole_word(kind: ValueKind, text: &[u8]) -> Result<ParameterValue, ValueFault>
    requires { IsWhole kind }
    ensures word { IfOk result (IsParameterValue kind text.now) }
    ensures refused { IfErr result (CannotRead kind text.now) }
{
    match kind {
        ValueKind::Count => match read_count(text) {
            Ok(count) => Ok(ParameterValue::Whole(count)),
            Err(_) => Err(ValueFault::Value),
        },
        _ => match read_entry_number(text) {
            Ok(number) => Ok(ParameterValue::Whole(number)),
            Err(_) => Err(ValueFault::Value),
        },
    }
}

fn read_plain_text(alloc: Global, text: &str) -> Result<ParameterValue, ValueFault>
    ensures word { IfOk result (IsParameterValue ValueKind.Text text.now) }
    ensures refused { IfErr result (CannotRead ValueKind.Text text.now) }
{
    let mut copy = Text::new(alloc);
    match copy.push(text) {
        Ok(()) => Ok(ParameterValue::Text(copy)),
        Err(_) => Err(ValueFault::OutOfMemory),
    }
}

fn read_order(text: &[u8]) -> Result<ParameterValue, ValueFault>
    ensures word { IfOk result (IsParameterValue ValueKind.EventOrder text.now) }
    ensures refused { IfErr result (CannotRead ValueKind.EventOrder text.now) }
{
    match read_event_order(text) {
        Ok(order) => Ok(ParameterValue::EventOrder(order)),
        Err(_) => Err(ValueFault::Value),
    }
}

fn read_qualities_word(alloc: Global, text: &[u8]) -> Result<ParameterValue, ValueFault>
    ensures word { IfOk result (IsParameterValue ValueKind.Qualities text.now) }
    ensures refused { IfErr result (CannotRead ValueKind.Qualities text.now) }
{
    let Ok(items) = items_in(alloc, text) else {
        return Err(ValueFault::OutOfMemory);
    };
    match read_qualities(&items) {
        Ok(set) => Ok(ParameterValue::Qualities(set)),
        Err(_) => Err(ValueFault::Value),
    }
}

fn read_merges_word(alloc: Global, text: &[u8]) -> Result<ParameterValue, ValueFault>
    ensures word { IfOk result (IsParameterValue ValueKind.Merges text.now) }
    ensures refused { IfErr result (CannotRead ValueKind.Merges text.now) }
{
    let Ok(items) = items_in(alloc, text) else {
        return Err(ValueFault::OutOfMemory);
    };
    match read_merges(&items) {
        Ok(merges) => Ok(ParameterValue::Merges(merges)),
        Err(_) => Err(ValueFault::Value),
    }
}

fn read_spans_order_word(text: &[u8]) -> Result<ParameterValue, ValueFault>
    ensures word { IfOk result (IsParameterValue ValueKind.SpansOrder text.now) }
    ensures refused { IfErr result (CannotRead ValueKind.SpansOrder text.now) }
{
    match read_spans_order(text) {
        Ok(order) => Ok(ParameterValue::AvailOrder(order)),
        Err(_) => Err(ValueFault::Value),
    }
}

fn read_extent_order_word(text: &[u8]) -> Result<ParameterValue, ValueFault>
    ensures word { IfOk result (IsParameterValue ValueKind.ExtentOrder text.now) }
    ensures refused { IfErr result (CannotRead ValueKind.ExtentOrder text.now) }
{
    match read_extent_order(text) {
        Ok(order) => Ok(ParameterValue::AvailOrder(order)),
        Err(_) => Err(ValueFault::Value),
    }
}

fn read_form(text: &[u8]) -> Result<ParameterValue, ValueFault>
    ensures word { IfOk result (IsParameterValue ValueKind.AvailForm text.now) }
    ensures refused { IfErr result (CannotRead ValueKind.AvailForm text.now) }
{
    match read_avail_form(text) {
        Ok(form) => Ok(ParameterValue::AvailForm(form)),
        Err(_) => Err(ValueFault::Value),
    }
}

fn read_level_word(text: &[u8]) -> Result<ParameterValue, ValueFault>
    ensures word { IfOk result (IsParameterValue ValueKind.Level text.now) }
    ensures refused { IfErr result (CannotRead ValueKind.Level text.now) }
{
    match read_level(text) {
        Ok(level) => Ok(ParameterValue::Level(level)),
        Err(_) => Err(ValueFault::Value),
    }
}

// Whether the value, or all under the name, is one that this data centre leaves out.
fn is_left_out(kind: ValueKind, text: &[u8]) -> bool
    ensures { IsTrue result ↔ IsLeftOut kind text.now }
{
    match kind {
        ValueKind::LeftOut => true,
        ValueKind::AvailForm => is_form_left_out(text),
        ValueKind::Level => text == b"response".as_slice(),
        ValueKind::TextForm => text == b"xml".as_slice(),
        ValueKind::Always => read_flag(text) == Ok(false),
        ValueKind::Never => read_flag(text) == Ok(true),
        _ => false,
    }
}

// The value of an option.
fn read_option(kind: ValueKind, text: &[u8]) -> Result<ParameterValue, ValueFault>
    requires { IsOption kind }
    ensures word { IfOk result (IsParameterValue kind text.now) }
    ensures refused { IfErr result (CannotRead kind text.now) }
{
    match kind {
        ValueKind::Nodata => match read_nodata(text) {
            Ok(nodata) => Ok(ParameterValue::Nodata(nodata)),
            Err(_) => Err(ValueFault::Value),
        },
        ValueKind::Quality => match read_quality(text) {
            Ok(quality) => Ok(ParameterValue::Quality(quality)),
            Err(_) => Err(ValueFault::Value),
        },
        ValueKind::Seconds => match read_minimum(text) {
            Ok(micros) => Ok(ParameterValue::Micros(micros)),
            Err(_) => Err(ValueFault::Value),
        },
        _ => match read_flag(text) {
            Ok(flag) => Ok(ParameterValue::Flag(flag)),
            Err(_) => Err(ValueFault::Value),
        },
    }
}

// The value of a kind.
fn read_text(alloc: Global, kind: ValueKind, text: &str) -> Result<ParameterValue, ValueFault>
    ensures word { IfOk result (IsParameterValue kind text.now) }
    ensures refused { IfErr result (CannotRead kind text.now) }
{
    let bytes = text.as_bytes();
    match kind {
        ValueKind::Time => read_time(bytes),
        ValueKind::Patterns(part) => read_patterns(alloc, part, bytes),
        ValueKind::Nodata | ValueKind::Quality | ValueKind::Seconds | ValueKind::Flag =>
            read_option(kind, bytes),
        ValueKind::Decimal => read_number(bytes),
        ValueKind::Latitude => read_latitude(bytes),
        ValueKind::Longitude => read_longitude(bytes),
        ValueKind::Count | ValueKind::EntryNumber => read_whole_word(kind, bytes),
        ValueKind::Text => read_plain_text(alloc, text),
        ValueKind::EventOrder => read_order(bytes),
        ValueKind::Qualities => read_qualities_word(alloc, bytes),
        ValueKind::Merges => read_merges_word(alloc, bytes),
        ValueKind::SpansOrder => read_spans_order_word(bytes),
        ValueKind::ExtentOrder => read_extent_order_word(bytes),
        ValueKind::AvailForm => read_form(bytes),
        ValueKind::Level => read_level_word(bytes),
        ValueKind::Format | ValueKind::TextForm | ValueKind::Always | ValueKind::Never =>
            read_fixed(kind, bytes),
        ValueKind::LeftOut => Err(ValueFault::Value),
    }
}

/// Reads a value of a kind.
pub fn read_word(alloc: Global, kind: ValueKind, value: &str) -> Result<ParameterValue, ValueFault>
    ensures word { IfOk result (ReadsValue kind value.now) }
    ensures refused { IfErr result (RefusesValue kind value.now) }
{
    if is_left_out(kind, value.as_bytes()) {
        return Err(ValueFault::OutOfScope);
    }
    if is_garbled(value) {
        return Err(ValueFault::Value);
    }
    read_text(alloc, kind, value)
}

/// No word for each of so many names.
pub fn no_words(alloc: Global, count: usize) -> Result<Vec<Option<ParameterValue>>, AllocError>
    ensures { IfOk result (λ v. v.items ≡ replicate count None) }
{
    let mut words = Vec::new(alloc);
    'fill: for _place in 0..count {
        words.push(None)?;
    }
    Ok(words)
}

/// Takes one parameter.
pub fn take_parameter(
    alloc: Global,
    table: &[ParameterName],
    words: &mut Vec<Option<ParameterValue>>,
    number: u64,
    name: &str,
    value: &str,
) -> Result<(), QueryFault>
    requires { length words.old.items ≡ length table.now }
    ensures put { OnOk result (PutsValue (names_of table.now) name.now value.now words.old.items words.new.items) }
    ensures refused { IfErr result (RefusesPut (names_of table.now) number name.now value.now words.old.items) }
{
    let Some(row) = place_of_name(table, name.as_bytes()) else {
        return Err(QueryFault::Unknown(number));
    };
    if words[row].is_some() {
        return Err(QueryFault::Repeated(number));
    }
    match read_word(alloc, table[row].kind, value) {
        Ok(word) => words[row] = Some(word),
        Err(ValueFault::OutOfScope) => return Err(QueryFault::OutOfScope(number)),
        Err(ValueFault::Value) => return Err(QueryFault::Value(number)),
        Err(ValueFault::OutOfMemory) => return Err(QueryFault::OutOfMemory),
    }
    Ok(())
}

/// The words of a query string: the first wrong parameter decides.
pub fn read_words(
    alloc: Global,
    table: &[ParameterName],
    query: &[u8],
) -> Result<Vec<Option<ParameterValue>>, QueryFault>
    requires { length (pairs_of query.now) ≤ 1000 }
    ensures words { IfOk result (λ v. HasReadParameters (names_of table.now) (parameters_of query.now) (parameters_of query.now) [] v.items) }
    ensures refused { IfErr result (RefusesParameters (names_of table.now) (parameters_of query.now)) }
{
    let mut words = no_words(alloc, table.len())?;
    let mut number = 1u64;
    'pairs: for pair in form_urlencoded::parse(alloc, query) {
        let (name, value) = pair?;
        take_parameter(
            alloc,
            table,
            &mut words,
            number,
            name.as_str(),
            value.as_str(),
        )?;
        number += 1;
    }
    Ok(words)
}
