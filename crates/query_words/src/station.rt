//! What clients ask of stations.
use dataselect::{Nodata, Selection};
use exact_time::{Many, Moment};
use query_parameters::{Area, Level};

/// A query for networks, stations or channels (FDSN Web Service Specifications 1.2, station). An absent
/// moment is no limit; those of `start_before` to `end_after` are no ends that an epoch may have.
#[derive(Debug, Drop)]
pub struct StationQuery {
    pub selections: Many<Selection>,
    /// `startbefore`: the epoch starts before this moment.
    pub start_before: Option<Moment>,
    /// `startafter`: the epoch starts after it.
    pub start_after: Option<Moment>,
    /// `endbefore`: the epoch ends before it.
    pub end_before: Option<Moment>,
    /// `endafter`: the epoch ends after it, or has no end.
    pub end_after: Option<Moment>,
    pub area: Area,
    pub level: Level,
    /// What to say where there is nothing.
    pub nodata: Nodata,
}
