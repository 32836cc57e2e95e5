//! Queries for rows.
use crate::names::{number, text, word};
use channel_globs::{Part, PatternList};
use dataselect::{DataQuery, Nodata, Selection};
use exact_time::{Bytes, Many, Moment, OutOfMemory};
use mseed_header::Quality;
use std::alloc::Global;

// The moment that a number of microseconds is, if there is one.
fn moment(words: &[Bytes], n: usize) -> Option<Moment> {
    match text(words, n).parse::<i64>() {
        Ok(micros) => Some(Moment { micros }),
        Err(_) => None,
    }
}

/// A selection: four lists and a window in microseconds.
pub fn selection_of(alloc: Global, words: &[Bytes]) -> Option<Selection> {
    Some(Selection {
        network: PatternList::read(alloc, word(words, 0), Part::Network).ok()?,
        station: PatternList::read(alloc, word(words, 1), Part::Station).ok()?,
        location: PatternList::read(alloc, word(words, 2), Part::Location).ok()?,
        channel: PatternList::read(alloc, word(words, 3), Part::Channel).ok()?,
        start: moment(words, 4),
        end: moment(words, 5),
    })
}

/// A query: its quality, its least length in microseconds, whether only the longest is asked for, and its selections.
fn query_of(alloc: Global, words: &[Bytes]) -> Result<DataQuery, OutOfMemory> {
    let mut selections = Many::new(alloc);
    if let Some(rest) = words.get(3..) {
        'selections: for words in rest.chunks(6) {
            if let Some(selection) = selection_of(alloc, words) {
                selections.push(selection)?;
            }
        }
    }
    Ok(DataQuery {
        selections,
        quality: match word(words, 0) {
            b"R" => Some(Quality::R),
            _ => None,
        },
        minimum: number(words, 1),
        longest: word(words, 2) == b"longest".as_slice(),
        nodata: Nodata::Quiet,
    })
}

/// What a step gives.
pub fn given(
    alloc: Global,
    queries: &mut Vec<DataQuery>,
    words: &[Bytes],
) -> Result<String, OutOfMemory> {
    match word(words, 0) {
        b"none" => queries.clear(),
        _ => queries.push(query_of(alloc, words)?)?,
    }
    Ok(format!(in alloc; "{}", queries.len())?)
}
