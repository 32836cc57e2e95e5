//! What a query path is asked for.
ghost use Rattle.std.specs.Prelude.{◌≡◌, ◌≤◌, IfOk};
ghost use Rattle.centre_desk.specs.Queries.{data_got, data_sent, avail_got, avail_sent, station_got, station_sent, event_got, seq_got, from_got, data_of, avail_of, station_of, wanted_of, nodata_of, is_post, IsAnswer};

use dataselect::{DataQuery, Nodata};
use desk_words::Wanted;
use exact_time::OutOfMemory;
use query_words::{
    AvailMethod, AvailQuery, EventQuery, QueryFault, StationQuery, avail_get, avail_post, data_get,
    data_post, entries_get, event_get, feed_get, station_get, station_post,
};
use service_paths::Asked;
use std::alloc::Global;

fn data_got(alloc: Global, query: &[u8]) -> Result<DataQuery, QueryFault>
    ensures { IsAnswer (data_got query.now) result }
{
    data_get(alloc, query)
}

fn data_sent(alloc: Global, body: &[u8]) -> Result<DataQuery, QueryFault>
    ensures { IsAnswer (data_sent body.now) result }
{
    data_post(alloc, body)
}

fn avail_got(alloc: Global, method: AvailMethod, query: &[u8]) -> Result<AvailQuery, QueryFault>
    ensures { IsAnswer (avail_got method query.now) result }
{
    avail_get(alloc, query, method)
}

fn avail_sent(alloc: Global, method: AvailMethod, body: &[u8]) -> Result<AvailQuery, QueryFault>
    ensures { IsAnswer (avail_sent method body.now) result }
{
    avail_post(alloc, body, method)
}

fn station_got(alloc: Global, query: &[u8]) -> Result<StationQuery, QueryFault>
    ensures { IsAnswer (station_got query.now) result }
{
    station_get(alloc, query)
}

fn station_sent(alloc: Global, body: &[u8]) -> Result<StationQuery, QueryFault>
    ensures { IsAnswer (station_sent body.now) result }
{
    station_post(alloc, body)
}

fn event_got(alloc: Global, query: &[u8]) -> Result<EventQuery, QueryFault>
    ensures { IsAnswer (event_got query.now) result }
{
    event_get(alloc, query)
}

// The number of the first entry that is wanted.
fn from_got(alloc: Global, query: &[u8]) -> Result<u64, QueryFault>
    ensures { IsAnswer (from_got query.now) result }
{
    entries_get(alloc, query)
}

// The sequence number of a command.
fn seq_got(alloc: Global, query: &[u8]) -> Result<u64, QueryFault>
    ensures answer { IsAnswer (seq_got query.now) result }
    ensures bound { IfOk result (λ seq. (1 ≤ seq) × (seq ≤ 1_000_000_000_000_000_000)) }
{
    feed_get(alloc, query)
}

/// The sequence number that a query string gives a command, or its fault.
pub(crate) fn seq_of(alloc: Global, query: &[u8]) -> Result<Result<u64, QueryFault>, OutOfMemory>
    ensures answer { IfOk result (λ read. read ≡ seq_got query.now) }
    ensures bound { IfOk result (λ read. IfOk read (λ seq. (1 ≤ seq) × (seq ≤ 1_000_000_000_000_000_000))) }
{
    match seq_got(alloc, query) {
        Ok(seq) => Ok(Ok(seq)),
        Err(QueryFault::OutOfMemory) => Err(OutOfMemory),
        Err(fault) => Ok(Err(fault)),
    }
}

/// Whether the query stands in the body.
fn is_post(method: &[u8]) -> bool
    ensures { result ≡ is_post method.now }
{
    method == b"POST".as_slice()
}

fn data_read(
    alloc: Global,
    method: &[u8],
    query: &[u8],
    body: &[u8],
) -> Result<DataQuery, QueryFault>
    ensures { IsAnswer (data_of method.now query.now body.now) result }
{
    if !is_post(method) {
        return data_got(alloc, query);
    }
    if !query.is_empty() {
        return Err(QueryFault::OutOfScope(1));
    }
    data_sent(alloc, body)
}

fn avail_read(
    alloc: Global,
    way: AvailMethod,
    method: &[u8],
    query: &[u8],
    body: &[u8],
) -> Result<AvailQuery, QueryFault>
    ensures { IsAnswer (avail_of way method.now query.now body.now) result }
{
    if !is_post(method) {
        return avail_got(alloc, way, query);
    }
    if !query.is_empty() {
        return Err(QueryFault::OutOfScope(1));
    }
    avail_sent(alloc, way, body)
}

fn station_read(
    alloc: Global,
    method: &[u8],
    query: &[u8],
    body: &[u8],
) -> Result<StationQuery, QueryFault>
    ensures { IsAnswer (station_of method.now query.now body.now) result }
{
    if !is_post(method) {
        return station_got(alloc, query);
    }
    if !query.is_empty() {
        return Err(QueryFault::OutOfScope(1));
    }
    station_sent(alloc, body)
}

fn wanted(
    alloc: Global,
    asked: Asked,
    method: &[u8],
    query: &[u8],
    body: &[u8],
) -> Result<Wanted, QueryFault>
    ensures { IsAnswer (wanted_of asked method.now query.now body.now) result }
{
    match asked {
        Asked::Records => Ok(Wanted::Waves(data_read(alloc, method, query, body)?)),
        Asked::Spans => {
            let way = AvailMethod::Spans;
            Ok(Wanted::Spans(avail_read(alloc, way, method, query, body)?))
        }
        Asked::Extents => {
            let way = AvailMethod::Extent;
            Ok(Wanted::Extent(avail_read(alloc, way, method, query, body)?))
        }
        Asked::Stations => Ok(Wanted::Station(station_read(alloc, method, query, body)?)),
        Asked::Events => Ok(Wanted::Event(event_got(alloc, query)?)),
        Asked::Entries => {
            let from = from_got(alloc, query)?;
            Ok(Wanted::Entries { from })
        }
    }
}

/// What a method, a query string and a body ask for on a query path, or the fault of the query. A query string
/// beside a body of POST is out of scope.
pub(crate) fn wanted_of(
    alloc: Global,
    asked: Asked,
    method: &[u8],
    query: &[u8],
    body: &[u8],
) -> Result<Result<Wanted, QueryFault>, OutOfMemory>
    ensures { IfOk result (λ read. read ≡ wanted_of asked method.now query.now body.now) }
{
    match wanted(alloc, asked, method, query, body) {
        Ok(wanted) => Ok(Ok(wanted)),
        Err(QueryFault::OutOfMemory) => Err(OutOfMemory),
        Err(fault) => Ok(Err(fault)),
    }
}

/// How the query wants to be told that there is nothing.
pub(crate) fn nodata_of(wanted: &Wanted) -> Nodata
    ensures { result ≡ nodata_of wanted.now }
{
    match wanted {
        Wanted::Nothing | Wanted::Entries { .. } => Nodata::Quiet,
        Wanted::Waves(query) => query.nodata,
        Wanted::Spans(query) | Wanted::Extent(query) => query.nodata,
        Wanted::Station(query) => query.nodata,
        Wanted::Event(query) => query.nodata,
    }
}
