//! Queries as clients write them (FDSN Web Service Specifications 1.2, dataselect, station and event;
//! fdsnws-availability 1.0).
//!
//! What the crates above use: [`data_get`] reads a query string and [`data_post`] a body. Each answers
//! Ok exactly where the text spells that query (`IsDataGet` of `specs/DataGet.antt`, `IsDataPost` of
//! `specs/DataPost.antt`), and else the one fault that the text has (`IsGetFault`, `IsPostFault`): by
//! those definitions each text has exactly one answer (`src/law.rt`). Only
//! [`QueryFault::OutOfMemory`] needs no cause. [`station_get`] and [`station_post`] do the same for stations
//! (`specs/StationGet.antt`, `specs/StationPost.antt`), [`avail_get`] and [`avail_post`] for spans and extents
//! (`specs/AvailGet.antt`, `specs/AvailPost.antt`), [`event_get`] for events (`specs/EventGet.antt`), and
//! [`feed_get`] and [`entries_get`] for the number of an entry (`specs/NumberGet.antt`).
//!
//! Which names a method has, and what kind of value each takes, stands in a table
//! (`specs/Tables.antt`, `specs/AvailTables.antt`, `src/tables.rt`), by which `query_parameters` reads the words of a query. What
//! an absent parameter means, the text that is its default, stands in `specs/DataGet.antt` and its like.
#![tactic(auto)]

mod asked;
mod avail;
mod avails;
mod event;
mod events;
mod get;
mod law;
mod number;
mod places;
mod post;
mod station;
mod station_bodies;
mod stations;
mod tables;

pub use avail::{AvailMethod, AvailQuery};
pub use avails::{avail_get, avail_post};
pub use event::EventQuery;
pub use events::event_get;
pub use get::data_get;
pub use law::{
    a_body_for_availability_is_one_query_or_one_fault, a_body_is_one_query_or_one_fault,
    a_query_string_for_a_number_is_one_number_or_one_fault,
    a_query_string_for_availability_is_one_query_or_one_fault,
    a_query_string_for_events_is_one_query_or_one_fault, a_query_string_is_one_query_or_one_fault,
    a_station_body_is_one_query_or_one_fault, a_station_query_string_is_one_query_or_one_fault,
};
pub use number::{entries_get, feed_get};
pub use post::data_post;
pub use query_parameters::{
    Area, AvailForm, AvailOrder, BadValue, EventOrder, Level, Limits2, QualitySet, QueryFault,
    read_flag, read_minimum, read_nodata, read_quality, read_whole,
};
pub use station::StationQuery;
pub use station_bodies::station_post;
pub use stations::station_get;
