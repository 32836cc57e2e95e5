//! The selection lines of a body.
ghost use Rattle.std.specs.Prelude.{◌≡◌, ◌==◌, Option, IfOk, IfErr, MatchOption, map, filter};
ghost use Rattle.query_parameters.specs.Bodies.{Fields, selection_fields, limit_text, AreFields, AreCodeFields, IsWindow, AreSix, AreSelections, IsSelection, numbered_line};
ghost use Rattle.query_parameters.specs.Gets.{IsLimit};
ghost use Rattle.query_parameters.specs.Selecting.{texts, HasNone, IsWindowPair, line_fault, RefusesRest};

use crate::extracts::is_backwards;
use crate::fault::QueryFault;
use crate::lines::{BodyLine, has_equals, is_gap};
use crate::words::{ValueFault, read_list};
use channel_globs::Part;
use dataselect::Selection;
use exact_time::{Many, Moment};
use std::alloc::{AllocError, Global};

/// The six fields of a selection line.
#[derive(Clone, Copy)]
pub struct FieldTexts<'a> {
    pub network: &'a [u8],
    pub station: &'a [u8],
    pub location: &'a [u8],
    pub channel: &'a [u8],
    pub start: &'a [u8],
    pub end: &'a [u8],
}

// The fields of a line, between runs of spaces and tabs.
fn field_list(alloc: Global, text: &[u8]) -> Result<Vec<&[u8]>, AllocError>
    ensures { IfOk result (λ v. map (λ x. x.now) v.items ≡ selection_fields text.now) }
{
    text.split(|byte| is_gap(*byte))
        .filter(|field| !field.is_empty())
        .collect(alloc)
}

// The six fields of a line, if it has six.
fn six_of<'a>(fields: &[&'a [u8]]) -> Option<FieldTexts<'a>>
    ensures { MatchOption result ((f : Fields) → ¬ (AreSix (map (λ x. x.now) fields.now) f)) (λ six. AreSix (map (λ x. x.now) fields.now) (texts six)) }
{
    let [network, station, location, channel, start, end] = fields else {
        return None;
    };
    Some(FieldTexts {
        network: *network,
        station: *station,
        location: *location,
        channel: *channel,
        start: *start,
        end: *end,
    })
}

// A limit of a selection line; `*` is none.
fn limit_of(text: &[u8]) -> Result<Option<Moment>, ValueFault>
    ensures limit { IfOk result (IsLimit (limit_text text.now)) }
    ensures refused { IfErr result (HasNone (IsLimit (limit_text text.now))) }
{
    if text == b"*".as_slice() {
        return Ok(None);
    }
    match Moment::read(text) {
        Ok(moment) => Ok(Some(moment)),
        Err(_) => Err(ValueFault::Value),
    }
}

// The window of two fields.
fn window_of(fields: &FieldTexts<'_>) -> Result<(Option<Moment>, Option<Moment>), ValueFault>
    ensures window { IfOk result (λ w. IsWindow (texts fields.now) w.0 w.1) }
    ensures refused { IfErr result (HasNone (IsWindowPair (texts fields.now))) }
{
    let start = limit_of(fields.start)?;
    let end = limit_of(fields.end)?;
    if is_backwards(start, end) {
        return Err(ValueFault::Value);
    }
    Ok((start, end))
}

// The selection of four codes, in a window.
fn selection_of(
    alloc: Global,
    fields: &FieldTexts<'_>,
    start: Option<Moment>,
    end: Option<Moment>,
) -> Result<Selection, ValueFault>
    ensures codes { IfOk result (AreCodeFields (texts fields.now)) }
    ensures start { IfOk result (λ s. s.start ≡ start) }
    ensures end { IfOk result (λ s. s.end ≡ end) }
    ensures refused { IfErr result (HasNone (AreCodeFields (texts fields.now))) }
{
    let network = read_list(alloc, Part::Network, fields.network)?;
    let station = read_list(alloc, Part::Station, fields.station)?;
    let location = read_list(alloc, Part::Location, fields.location)?;
    let channel = read_list(alloc, Part::Channel, fields.channel)?;
    Ok(Selection {
        network,
        station,
        location,
        channel,
        start,
        end,
    })
}

// The selection of six fields.
fn spelled(alloc: Global, fields: &FieldTexts<'_>) -> Result<Selection, ValueFault>
    ensures selection { IfOk result (AreFields (texts fields.now)) }
    ensures refused { IfErr result (HasNone (AreFields (texts fields.now))) }
{
    let (start, end) = window_of(fields)?;
    selection_of(alloc, fields, start, end)
}

// The selection of a line.
fn read_selection(alloc: Global, text: &[u8]) -> Result<Selection, ValueFault>
    ensures selection { IfOk result (IsSelection text.now) }
    ensures refused { IfErr result (HasNone (IsSelection text.now)) }
{
    if !text.is_ascii() || has_equals(text) {
        return Err(ValueFault::Value);
    }
    let Ok(fields) = field_list(alloc, text) else {
        return Err(ValueFault::OutOfMemory);
    };
    match six_of(&fields) {
        Some(six) => spelled(alloc, &six),
        None => Err(ValueFault::Value),
    }
}

// How a fault of a line's value is a fault of a query.
fn line_fault(fault: ValueFault, number: u64) -> QueryFault
    ensures { result ≡ line_fault fault number }
{
    match fault {
        ValueFault::OutOfMemory => QueryFault::OutOfMemory,
        _ => QueryFault::Line(number),
    }
}

/// The selections of the lines behind the parameter lines: the first wrong line decides.
pub fn read_selections(alloc: Global, lines: &[BodyLine<'_>]) -> Result<Many<Selection>, QueryFault>
    ensures selections { IfOk result (AreSelections (map numbered_line lines.now)) }
    ensures refused { IfErr result (RefusesRest (map numbered_line lines.now)) }
{
    let mut selections = Many::new(alloc);
    'lines: for line in lines {
        match read_selection(alloc, line.text) {
            Ok(selection) => selections.push(selection)?,
            Err(fault) => return Err(line_fault(fault, line.number)),
        }
    }
    Ok(selections)
}
