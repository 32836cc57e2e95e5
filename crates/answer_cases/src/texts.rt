//! Answers of text: stations and events of the catalog, spans and extents of the shelf.
use crate::names::{number, told, word};
use access_digest::Pass;
use availability::{extent_body, spans_body};
use case_lines::escaped;
use dataselect::{All, PlainShelf, Sight};
use epoch_catalog::Catalog;
use exact_time::{Bytes, OutOfMemory, Text, TextRefusal};
use query_words::{
    AvailMethod, AvailQuery, QueryFault, StationQuery, avail_get, avail_post, event_get,
    station_get, station_post,
};
use std::alloc::Global;

// The text, or why there is none.
fn shown(alloc: Global, answer: Result<Text, TextRefusal>) -> Result<String, OutOfMemory> {
    match answer {
        Ok(text) => escaped(alloc, text.as_slice()),
        Err(refusal) => Ok(format!(in alloc; "{refusal:?}")?),
    }
}

fn stations(
    alloc: Global,
    catalog: &Catalog,
    query: Result<StationQuery, QueryFault>,
    most: u64,
) -> Result<String, OutOfMemory> {
    match query {
        Ok(query) => shown(alloc, station_text::answer(alloc, catalog, &query, most)),
        Err(fault) => Ok(format!(in alloc; "{fault}")?),
    }
}

fn events(
    alloc: Global,
    catalog: &Catalog,
    query: &[u8],
    most: u64,
) -> Result<Result<Text, TextRefusal>, OutOfMemory> {
    match event_get(alloc, query) {
        Ok(query) => Ok(event_text::answer(alloc, catalog, &query, most)),
        Err(_) => Err(OutOfMemory),
    }
}

// The header of an answer, and the first letter of each line behind it.
fn letters(alloc: Global, answer: Result<Text, TextRefusal>) -> Result<String, OutOfMemory> {
    match answer {
        Ok(text) => {
            let (header, lines) = text.as_str().split_once('\n').unwrap_or(("", ""));
            let mut letters = escaped(alloc, header.as_bytes())?;
            letters.push_str("\\n")?;
            'lines: for line in lines.lines() {
                let first = line.as_bytes().get(..1).unwrap_or(b"-");
                letters.push_str(escaped(alloc, first)?.as_str())?;
            }
            Ok(letters)
        }
        Err(refusal) => Ok(format!(in alloc; "{refusal:?}")?),
    }
}

fn spans(
    alloc: Global,
    shelf: &PlainShelf,
    query: Result<AvailQuery, QueryFault>,
    most: u64,
) -> Result<String, OutOfMemory> {
    match query {
        Ok(query) => shown(alloc, spans_body(alloc, shelf, &All, &query, most)),
        Err(fault) => Ok(format!(in alloc; "{fault}")?),
    }
}

fn extent<V: Sight>(
    alloc: Global,
    shelf: &PlainShelf,
    sight: &V,
    query: &[u8],
    most: u64,
) -> Result<String, OutOfMemory> {
    match avail_get(alloc, query, AvailMethod::Extent) {
        Ok(query) => shown(alloc, extent_body(alloc, shelf, sight, &query, most)),
        Err(fault) => Ok(format!(in alloc; "{fault}")?),
    }
}

/// What a step gives: at most so many lines.
pub fn given(
    alloc: Global,
    catalog: &Catalog,
    shelf: &PlainShelf,
    words: &[Bytes],
) -> Result<String, OutOfMemory> {
    let most = number(words, 1);
    let query = word(words, 2);
    match word(words, 0) {
        b"stations" => stations(alloc, catalog, station_get(alloc, query), most),
        b"stations-body" => stations(alloc, catalog, station_post(alloc, query), most),
        b"events" => shown(alloc, events(alloc, catalog, query, most)?),
        b"letters" => letters(alloc, events(alloc, catalog, query, most)?),
        b"spans" => spans(
            alloc,
            shelf,
            avail_get(alloc, query, AvailMethod::Spans),
            most,
        ),
        b"spans-body" => spans(
            alloc,
            shelf,
            avail_post(alloc, query, AvailMethod::Spans),
            most,
        ),
        b"extent" => extent(alloc, shelf, &All, query, most),
        b"extent-of" => {
            let user = catalog.user(word(words, 3));
            extent(alloc, shelf, &Pass { catalog, user }, query, most)
        }
        _ => told(alloc, "no such call"),
    }
}
