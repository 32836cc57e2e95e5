//! The query for stations of a body.
ghost use Rattle.std.specs.Prelude.{◌⊎◌, IfOk, IfErr, IsErrOf};
ghost use Rattle.list_laws.specs.Only.{IsOnly};
ghost use Rattle.query_words.specs.StationPost.{IsStationPost, IsStationPostFault, RefusesStationPost};

use crate::places::{station_options_in, station_query_of};
use crate::station::StationQuery;
use crate::tables::{OPTIONS, station_names};
use query_parameters::{QueryFault, is_area_in_order, read_body};
use std::alloc::Global;

/// The query for stations that a body spells (FDSN Web Service Specifications 1.2, station, POST). The first
/// wrong line decides; then comes a least limit above its greatest, and last that no line selects.
pub fn station_post(alloc: Global, body: &[u8]) -> Result<StationQuery, QueryFault>
    ensures query { IfOk result (IsStationPost body.now) }
    ensures refused { IfErr result (RefusesStationPost body.now) }
    ensures exact { IsErrOf result QueryFault.OutOfMemory
        ⊎ IsOnly (IsStationPost body.now) (IsStationPostFault body.now) result }
{
    let read = read_body(alloc, &station_names()[OPTIONS..], body)?;
    let options = station_options_in(&read.words, 0);
    if !is_area_in_order(options.area) {
        return Err(QueryFault::Order);
    }
    if read.selections.is_empty() {
        return Err(QueryFault::NoLine);
    }
    Ok(station_query_of(read.selections, options))
}
