//! What is counted of an archive.
ghost use Rattle.std.specs.Prelude.{◌≡◌, ◌∷◌, [], ◌≤◌, length, map, IfOk};
ghost use Rattle.mseed_header.specs.Records.{images_of};
ghost use Rattle.dataselect.specs.DataBody.{data_body};
ghost use Rattle.dataselect.specs.MergedSpans.{value_of};
ghost use Rattle.archive_state.specs.History.{arrived_of};
ghost use Rattle.channel_globs.specs.PatternText.{IsPatternList};
ghost use Rattle.centre_drill.specs.Figures.{all_seen, figures_with, one_station, selection_of, spans_of};

use archive_state::State;
use channel_globs::{GlobFault, Part, PatternList};
use dataselect::{All, DataQuery, DataRefusal, Nodata, Selection, Shelf, Span, answer};
use exact_time::{Many, OutOfMemory};
use mseed_header::Row;
use std::alloc::Global;

/// What a drill tells of its archive.
#[derive(Clone, Copy, Debug, PartialEq, Eq)]
pub struct Figures {
    pub entries: u64,
    /// The records that are held.
    pub records: u64,
    /// The bytes of these records.
    pub bytes: u64,
    /// The merged spans of all names.
    pub spans: u64,
    /// The bytes of the records of network XX and station S0.
    pub selected: u64,
}

// The list of one pattern.
fn pattern(alloc: Global, text: &[u8], part: Part) -> Result<PatternList, OutOfMemory>
    requires { IsPatternList part text.now (text.now ∷ []) }
    ensures { IfOk result (λ list. list ≡ text.now ∷ []) }
{
    match PatternList::read(alloc, text, part) {
        Ok(list) => Ok(list),
        Err(GlobFault::OutOfMemory) => Err(OutOfMemory),
        Err(_) => unreachable!(),
    }
}

// A network and a station by their patterns, with all their channels, at all times.
fn selection(alloc: Global, network: &[u8], station: &[u8]) -> Result<Selection, OutOfMemory>
    requires network { IsPatternList Part.Network network.now (network.now ∷ []) }
    requires station { IsPatternList Part.Station station.now (station.now ∷ []) }
    ensures { IfOk result (λ s. s ≡ selection_of network.now station.now) }
{
    Ok(Selection {
        network: pattern(alloc, network, Part::Network)?,
        station: pattern(alloc, station, Part::Station)?,
        location: pattern(alloc, b"*", Part::Location)?,
        channel: pattern(alloc, b"*", Part::Channel)?,
        start: None,
        end: None,
    })
}

fn query(alloc: Global) -> Result<DataQuery, OutOfMemory>
    ensures { IfOk result (λ query. query ≡ one_station) }
{
    let mut selections = Many::new(alloc);
    selections.push(selection(alloc, b"XX", b"S0")?)?;
    Ok(DataQuery {
        selections,
        quality: None,
        minimum: 0,
        longest: false,
        nodata: Nodata::Quiet,
    })
}

fn row_bytes(row: &Row) -> u64
    ensures value { result ≡ length row.now.image }
    ensures bound { result ≤ 65_536 }
{
    row.image.len() as u64
}

fn bytes_held<S: Shelf>(shelf: &S) -> u64
    ensures { result ≡ length (images_of (S.rows shelf.now)) }
{
    let mut total = 0;
    'rows: for i in 0..shelf.len() {
        total += row_bytes(shelf.row(i));
    }
    total
}

// The merged spans of all names.
fn all_spans<S: Shelf>(alloc: Global, shelf: &S) -> Result<Vec<Span>, OutOfMemory>
    ensures { IfOk result (λ spans. map value_of spans.items ≡ spans_of (S.rows shelf.now)) }
{
    let names = shelf.names(&selection(alloc, b"*", b"*")?)?;
    let mut spans = Vec::new(alloc);
    'names: for name in names.as_slice() {
        let mut more = shelf.merged_spans(name)?.into_vec();
        spans.append(&mut more)?;
    }
    Ok(spans)
}

// The bytes that a query for XX and S0 is answered with. An answer that may have none is told by its size.
fn bytes_selected<S: Shelf>(alloc: Global, shelf: &S) -> Result<u64, OutOfMemory>
    ensures { IfOk result (λ bytes. bytes ≡ length (data_body all_seen one_station (S.rows shelf.now))) }
{
    match answer(alloc, shelf, &All, &query(alloc)?, 0) {
        Ok(body) => Ok(body.len() as u64),
        Err(DataRefusal::Empty) => Ok(0),
        Err(DataRefusal::TooLarge(bytes)) => Ok(bytes),
        Err(DataRefusal::OutOfMemory) => Err(OutOfMemory),
    }
}

impl Figures {
    /// Those of a state and of all records that have arrived.
    pub(crate) fn of(alloc: Global, state: &State) -> Result<Figures, OutOfMemory>
        ensures { IfOk result (λ figures. figures ≡ figures_with state.now (arrived_of state.now)) }
    {
        let shelf = state.shelf();
        Ok(Figures {
            entries: state.entries().len() as u64,
            records: shelf.len() as u64,
            bytes: bytes_held(shelf),
            spans: all_spans(alloc, shelf)?.len() as u64,
            selected: bytes_selected(alloc, shelf)?,
        })
    }
}
