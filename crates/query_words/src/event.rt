//! What clients ask of events.
ghost use Rattle.std.specs.Prelude.{◌≡◌, ◌+◌, ◌≤◌, ◌↔◌, IsTrue, length};
ghost use Rattle.query_words.specs.EventOptions.{offset_word, AreNumberWords, AreEventWords, IsEventInOrder};

use crate::tables::{END, START};
use dataselect::Nodata;
use exact_time::{Moment, Text};
use query_parameters::{
    Area, EventOrder, Limits2, ParameterValue, area_in, event_order_in, is_area_in_order,
    is_backwards, is_range, limit_in, nodata_in, number_in, text_in, whole_in,
};

// Where the table of event has each name; the start and the end of a window come first.
const NODATA: usize = 2;

const AREA: usize = 3;

const DEPTH: usize = 7;

const MAGNITUDE: usize = 9;

const TEXTS: usize = 11;

const ORDER: usize = 15;

const LIMIT: usize = 16;

const OFFSET: usize = 17;

/// A query for events (FDSN Web Service Specifications 1.2, event). What is absent is no limit.
#[derive(Debug, Drop)]
pub struct EventQuery {
    /// The least time of an event.
    pub start: Option<Moment>,
    /// The greatest.
    pub end: Option<Moment>,
    pub area: Area,
    /// In kilometres.
    pub depth: Limits2,
    pub magnitude: Limits2,
    /// The type of magnitude, compared exactly, as the three texts that follow.
    pub magnitude_kind: Option<Text>,
    pub id: Option<Text>,
    pub catalog: Option<Text>,
    pub contributor: Option<Text>,
    pub order: EventOrder,
    /// How many events at most, from 1.
    pub limit: Option<u64>,
    /// The number of the first event that is given, from 1.
    pub offset: u64,
    /// What to say where there is nothing.
    pub nodata: Nodata,
}

// Limits of two words from that place on.
fn limits_in(words: &[Option<ParameterValue>], first: usize) -> Limits2
    requires { first + 2 ≤ length words.now }
    ensures { AreNumberWords words.now first result }
{
    Limits2 {
        least: number_in(&words[first]),
        most: number_in(&words[first + 1]),
    }
}

// The number of the first event, by its word.
fn offset_in(word: &Option<ParameterValue>) -> u64
    ensures { result ≡ offset_word word.now }
{
    match whole_in(word) {
        Some(offset) => offset,
        None => 1,
    }
}

/// The query of the words, of which the texts are taken out.
pub fn event_query_in(words: &mut Vec<Option<ParameterValue>>) -> EventQuery
    requires { 18 ≤ length words.old.items }
    ensures { AreEventWords words.old.items result }
{
    let start = limit_in(&words[START]);
    let end = limit_in(&words[END]);
    let nodata = nodata_in(&words[NODATA]);
    let area = area_in(words, AREA);
    let depth = limits_in(words, DEPTH);
    let magnitude = limits_in(words, MAGNITUDE);
    let order = event_order_in(&words[ORDER]);
    let limit = whole_in(&words[LIMIT]);
    let offset = offset_in(&words[OFFSET]);
    EventQuery {
        start,
        end,
        area,
        depth,
        magnitude,
        magnitude_kind: text_in(words, TEXTS),
        id: text_in(words, TEXTS + 1),
        catalog: text_in(words, TEXTS + 2),
        contributor: text_in(words, TEXTS + 3),
        order,
        limit,
        offset,
        nodata,
    }
}

/// Whether no least limit of a query is above its greatest.
pub fn is_event_in_order(query: &EventQuery) -> bool
    ensures { IsTrue result ↔ IsEventInOrder query.now }
{
    !is_backwards(query.start, query.end)
        && is_area_in_order(query.area)
        && is_range(query.depth)
        && is_range(query.magnitude)
}
