//! The options of station that its words give.
ghost use Rattle.std.specs.Prelude.{◌≡◌, ◌+◌, ◌≤◌, ◌<◌, ◌↔◌, IsTrue, length};
ghost use Rattle.query_words.specs.Options.{AreStationWords, IsStationMade};

use crate::station::StationQuery;
use dataselect::{Nodata, Selection};
use exact_time::{Many, Moment};
use query_parameters::{Area, Level, ParameterValue, area_in, level_in, limit_in, nodata_in};

/// The options of a query for stations.
#[derive(Clone, Copy, Debug)]
pub struct StationOptions {
    pub nodata: Nodata,
    pub start_before: Option<Moment>,
    pub start_after: Option<Moment>,
    pub end_before: Option<Moment>,
    pub end_after: Option<Moment>,
    pub area: Area,
    pub level: Level,
}

/// The options of the words from that place on.
pub fn station_options_in(words: &[Option<ParameterValue>], first: usize) -> StationOptions
    requires { first + 10 ≤ length words.now }
    ensures { AreStationWords words.now first result }
{
    StationOptions {
        nodata: nodata_in(&words[first]),
        start_before: limit_in(&words[first + 1]),
        start_after: limit_in(&words[first + 2]),
        end_before: limit_in(&words[first + 3]),
        end_after: limit_in(&words[first + 4]),
        area: area_in(words, first + 5),
        level: level_in(&words[first + 9]),
    }
}

/// The query of some selections, with these options.
pub fn station_query_of(selections: Many<Selection>, options: StationOptions) -> StationQuery
    ensures { IsStationMade selections options result }
{
    StationQuery {
        selections,
        start_before: options.start_before,
        start_after: options.start_after,
        end_before: options.end_before,
        end_after: options.end_after,
        area: options.area,
        level: options.level,
        nodata: options.nodata,
    }
}
