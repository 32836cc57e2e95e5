//! Which events a query asks for.
ghost use Rattle.std.specs.Prelude.{◌≡◌, int_le, Option, None, Some, true, false, MatchOption};
ghost use Rattle.std.specs.Str.{bytes_eq};
ghost use Rattle.dataselect.specs.Query.{holds};
ghost use Rattle.epochs.specs.Views.{values_of_line};
ghost use Rattle.epochs.specs.declared.line.Line.TheVariants.{Evt};
ghost use Rattle.line_columns.specs.Columns.{optional_millionths};
ghost use Rattle.event_text.specs.Events.{event_of, is_within, is_in_window, is_text, has_texts, has_numbers, asks_for, is_event_asked};

use epochs::{Event, Line};
use exact_time::{Decimal, Moment, Text};
use query_words::{EventQuery, Limits2};

// Whether a number that may be absent is in its limits; an absent one fails each limit.
fn is_within(limits: &Limits2, number: Option<Decimal>) -> bool
    ensures { result ≡ is_within limits.now (optional_millionths number) }
{
    match number {
        None => limits.is_none(),
        Some(number) => limits.contains(number),
    }
}

fn is_from(time: Moment, start: Option<Moment>) -> bool
    ensures { result ≡ holds (λ t. int_le t.micros time.micros) start }
{
    match start {
        None => true,
        Some(start) => start.micros <= time.micros,
    }
}

fn is_up_to(time: Moment, end: Option<Moment>) -> bool
    ensures { result ≡ holds (λ t. int_le time.micros t.micros) end }
{
    match end {
        None => true,
        Some(end) => time.micros <= end.micros,
    }
}

// Whether a text is the given one, where one is given.
fn is_text(given: &Option<Text>, text: &Text) -> bool
    ensures { result ≡ is_text given.now text.now }
{
    match given {
        None => true,
        Some(given) => text.as_slice() == given.as_slice(),
    }
}

fn has_texts(query: &EventQuery, event: &Event) -> bool
    ensures { result ≡ has_texts query.now (event_of (values_of_line (Evt event.now))) }
{
    (is_text(&query.id, &event.id) && is_text(&query.catalog, &event.attribution.catalog))
        && (is_text(&query.contributor, &event.attribution.contributor)
            && is_text(&query.magnitude_kind, &event.magnitude.kind))
}

fn has_numbers(query: &EventQuery, event: &Event) -> bool
    ensures { result ≡ has_numbers query.now (event_of (values_of_line (Evt event.now))) }
{
    query
        .area
        .contains(event.hypocentre.latitude, event.hypocentre.longitude)
        && (is_within(&query.depth, event.hypocentre.depth)
            && is_within(&query.magnitude, event.magnitude.magnitude))
}

// Whether a query asks for an event.
fn asks_for(query: &EventQuery, event: &Event) -> bool
    ensures { result ≡ asks_for query.now (event_of (values_of_line (Evt event.now))) }
{
    (is_from(event.time, query.start) && is_up_to(event.time, query.end))
        && (has_numbers(query, event) && has_texts(query, event))
}

/// The event of a line, if the query asks for it.
pub fn asked_event<'a>(query: &EventQuery, line: &'a Line) -> Option<&'a Event>
    ensures { MatchOption result (is_event_asked query.now (values_of_line line.now) ≡ false) (λ event. (is_event_asked query.now (values_of_line line.now) ≡ true) × (values_of_line line.now ≡ values_of_line (Evt event.now))) }
{
    match line {
        Line::Evt(event) => {
            if asks_for(query, event) {
                Some(event)
            } else {
                None
            }
        }
        _ => None,
    }
}
