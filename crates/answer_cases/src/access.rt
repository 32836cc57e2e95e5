//! Who asks, and what a caller has under restrictions, grants and withdrawals.
use crate::names::{copy, number, text, told, word};
use crate::shelves::{Shelves, choose_both, name_of};
use access_digest::{Pass, may, who, withdrawn};
use case_lines::escaped;
use dataselect::{DataQuery, Shelf, Sight, answer};
use epoch_catalog::Catalog;
use exact_time::{Bytes, Moment, OutOfMemory};
use http_digest::Credentials;
use sample_data::SECRET;
use std::alloc::Global;

// The pass of a user; without a name, that of a caller without a user.
fn pass_of<'a>(catalog: &'a Catalog, name: &[u8]) -> Pass<'a> {
    Pass {
        catalog,
        user: catalog.user(name),
    }
}

// What a pass says of the row at a place: whether its caller may have it, sees it, and finds it restricted.
fn row(alloc: Global, pass: &Pass<'_>, shelves: &Shelves, n: u64) -> Result<String, OutOfMemory> {
    let shelf = &shelves.plain;
    if n >= shelf.len() as u64 {
        return told(alloc, "no row");
    }
    let row = shelf.row(n as usize);
    let may = may(pass.catalog, pass.user, row);
    Ok(format!(in alloc; "{may} {} {}", pass.sees(row), pass.restricted(row))?)
}

// Whether the row at a place is withdrawn.
fn is_withdrawn(
    alloc: Global,
    catalog: &Catalog,
    shelves: &Shelves,
    n: u64,
) -> Result<String, OutOfMemory> {
    let shelf = &shelves.plain;
    if n >= shelf.len() as u64 {
        return told(alloc, "no row");
    }
    let is_so = withdrawn(catalog, shelf.row(n as usize));
    Ok(format!(in alloc; "{is_so}")?)
}

// The bytes that a caller is answered with, so many at most.
fn body(
    alloc: Global,
    pass: &Pass<'_>,
    shelves: &Shelves,
    queries: &[DataQuery],
    most: u64,
) -> Result<String, OutOfMemory> {
    let Some(query) = queries.last() else {
        return told(alloc, "no query");
    };
    match answer(alloc, &shelves.plain, pass, query, most) {
        Ok(body) => escaped(alloc, body.as_slice()),
        Err(refusal) => Ok(format!(in alloc; "{refusal:?}")?),
    }
}

// Who asks: at a moment in microseconds, for a target, with a header if there is one.
fn asked(alloc: Global, catalog: &Catalog, words: &[Bytes]) -> Result<String, OutOfMemory> {
    let credentials = Credentials {
        header: if words.len() > 3 {
            Some(copy(alloc, word(words, 3)))
        } else {
            None
        },
        method: copy(alloc, b"GET"),
        target: copy(alloc, word(words, 2)),
    };
    let now = Moment {
        micros: text(words, 1).parse::<i64>().unwrap_or(0),
    };
    match who(alloc, catalog, &credentials, now, &SECRET) {
        Ok(name) => told(alloc, name.as_str()),
        Err(fault) => Ok(format!(in alloc; "{fault:?}")?),
    }
}

/// What a step gives.
pub fn given(
    alloc: Global,
    catalog: &Catalog,
    shelves: &Shelves,
    queries: &[DataQuery],
    words: &[Bytes],
) -> Result<String, OutOfMemory> {
    let pass = pass_of(catalog, word(words, 1));
    match word(words, 0) {
        b"who" => asked(alloc, catalog, words),
        b"row" => row(alloc, &pass, shelves, number(words, 2)),
        b"withdrawn" => is_withdrawn(alloc, catalog, shelves, number(words, 1)),
        b"answer" => body(alloc, &pass, shelves, queries, number(words, 2)),
        b"choose" => choose_both(alloc, shelves, &pass, queries),
        b"whole" => Ok(match name_of(words.get(1..).unwrap_or(&[])) {
            Some(name) => format!(in alloc; "{}", pass.whole(&name))?,
            None => String::from_str(alloc, "no name")?,
        }),
        _ => told(alloc, "no such call"),
    }
}
