//! The text that a query for events is answered with.
ghost use Rattle.std.specs.Prelude.{◌≡◌, ◌-◌, [], ◌++◌, map, take, drop, IfOk, IfErr, OnOk, Ok};
ghost use Rattle.epochs.specs.Views.{values_of_line};
ghost use Rattle.epochs.specs.declared.line.Line.TheVariants.{Evt};
ghost use Rattle.line_columns.specs.Answers.{RefusesTextAs};
ghost use Rattle.event_text.specs.Orders.{limited, given_events};
ghost use Rattle.event_text.specs.Ranks.{line_at};
ghost use Rattle.event_text.specs.Texts.{event_text, answer_text, text_answer_of};

use crate::ranking::ordered_events;
use epoch_catalog::Catalog;
use epochs::Event;
use exact_time::{OutOfMemory, Text, TextRefusal};
use line_columns::{Column, write_columns};
use query_words::EventQuery;
use std::alloc::Global;

const HEADER: &str =
    "#EventID|Time|Latitude|Longitude|Depth/km|Author|Catalog|Contributor|ContributorID|MagType|Magnitude|MagAuthor|EventLocationName\n";

// What is behind so many items.
fn behind<'a, 'b>(events: &'a [&'b Event], count: u64) -> &'a [&'b Event]
    ensures { result.now ≡ drop count events.now }
{
    let skipped = count.min(events.len() as u64) as usize;
    &events[skipped..]
}

// The first items, at most so many.
fn at_most<'a, 'b>(events: &'a [&'b Event], limit: Option<u64>) -> &'a [&'b Event]
    ensures { result.now ≡ limited limit events.now }
{
    match limit {
        None => events,
        Some(limit) => &events[..limit.min(events.len() as u64) as usize],
    }
}

// The events from the offset on, at most so many as the limit says.
fn given_events<'a, 'b>(events: &'a [&'b Event], query: &EventQuery) -> &'a [&'b Event]
    ensures { result.now ≡ given_events query.now events.now }
{
    at_most(behind(events, query.offset.saturating_sub(1)), query.limit)
}

// Appends the line of an event.
fn write_event(alloc: Global, out: &mut Text, event: &Event) -> Result<(), OutOfMemory>
    ensures { OnOk result (out.new ≡ out.old ++ event_text (values_of_line (Evt event.now))) }
{
    write_columns(
        alloc,
        out,
        &[
            Column::Words(&event.id),
            Column::Start(event.time),
            Column::Number(event.hypocentre.latitude),
            Column::Number(event.hypocentre.longitude),
            Column::Optional(event.hypocentre.depth),
            Column::Words(&event.attribution.author),
            Column::Words(&event.attribution.catalog),
            Column::Words(&event.attribution.contributor),
            Column::Words(&event.attribution.contributor_id),
            Column::Words(&event.magnitude.kind),
            Column::Optional(event.magnitude.magnitude),
            Column::Words(&event.magnitude.author),
            Column::Words(&event.magnitude.location),
        ],
    )
}

// The header line, and then a line for each of these events.
fn answer_text(alloc: Global, events: &[&Event]) -> Result<Text, OutOfMemory>
    ensures { IfOk result (λ text. text ≡ answer_text (map line_at events.now)) }
{
    let mut text = Text::new(alloc);
    text.push(HEADER)?;
    'events: for event in events {
        write_event(alloc, &mut text, event)?;
    }
    Ok(text)
}

/// The text that a query is answered with (FDSN Web Service Specifications 1.2, event, format=text): a header
/// line, and a line for each live event that is asked for, in the order asked for, from the offset on and at
/// most `limit`. Columns are separated by `|`, and a line ends with a line feed. Empty where there is no such
/// event; TooLarge where there are more lines than `max_lines`, the header line not counted.
pub fn answer(
    alloc: Global,
    catalog: &Catalog,
    query: &EventQuery,
    max_lines: u64,
) -> Result<Text, TextRefusal>
    ensures text { IfOk result (λ text. text_answer_of query.now max_lines catalog.now ≡ Ok text) }
    ensures refused { IfErr result (RefusesTextAs (text_answer_of query.now max_lines catalog.now)) }
{
    let ordered = ordered_events(alloc, catalog, query)?;
    let events = given_events(ordered.as_slice(), query);
    if events.is_empty() {
        return Err(TextRefusal::Empty);
    }
    let lines = events.len() as u64;
    if lines > max_lines {
        return Err(TextRefusal::TooLarge(lines));
    }
    Ok(answer_text(alloc, events)?)
}
