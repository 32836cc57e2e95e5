//! The query for stations of a query string.
ghost use Rattle.std.specs.Prelude.{◌⊎◌, IfOk, IfErr, IsErrOf};
ghost use Rattle.list_laws.specs.Only.{IsOnly};
ghost use Rattle.query_words.specs.StationGet.{IsStationGet, IsStationGetFault, RefusesStationGet};

use crate::places::{station_options_in, station_query_of};
use crate::station::StationQuery;
use crate::tables::{CODES, END, OPTIONS, START, station_names};
use exact_time::Many;
use query_parameters::{
    QueryFault, has_too_many, is_area_in_order, is_backwards, limit_in, read_words, selection_in,
};
use std::alloc::Global;

/// The query for stations that a query string spells (FDSN Web Service Specifications 1.2, station). Names
/// are compared without regard to case, and a name and its alias are one name. The first wrong
/// parameter decides; a start after the end, or a least limit above its greatest, comes last.
pub fn station_get(alloc: Global, query: &[u8]) -> Result<StationQuery, QueryFault>
    ensures query { IfOk result (IsStationGet query.now) }
    ensures refused { IfErr result (RefusesStationGet query.now) }
    ensures exact { IsErrOf result QueryFault.OutOfMemory
        ⊎ IsOnly (IsStationGet query.now) (IsStationGetFault query.now) result }
{
    if has_too_many(query) {
        return Err(QueryFault::TooMany);
    }
    let mut words = read_words(alloc, &station_names(), query)?;
    let start = limit_in(&words[START]);
    let end = limit_in(&words[END]);
    let options = station_options_in(&words, OPTIONS);
    if is_backwards(start, end) {
        return Err(QueryFault::Order);
    }
    if !is_area_in_order(options.area) {
        return Err(QueryFault::Order);
    }
    let selection = selection_in(alloc, &mut words, CODES, start, end)?;
    let mut selections = Many::new(alloc);
    selections.push(selection)?;
    Ok(station_query_of(selections, options))
}
