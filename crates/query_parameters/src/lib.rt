//! Parameters of queries as clients write them, in query strings and in bodies (FDSN Web Service
//! Specifications 1.2, query parameters).
//!
//! What the crates above use: a method has a table of names ([`ParameterName`]), each with the kind of
//! its values ([`ValueKind`]). [`read_words`] reads a query string by such a table, and [`read_body`]
//! a body: one word for each name, Ok exactly where each parameter or line is right, and else the fault
//! of the first wrong one (`specs/Gets.antt`, `specs/Posts.antt`); what each kind takes
//! stands in `specs/Values.antt`. Only [`QueryFault::OutOfMemory`] needs no cause.
//!
//! A query string is a list of parameters, decoded as web forms are (`specs/Parameters.antt`). A body
//! has parameter lines, each a name, `=` and a value, and then selection lines of six fields
//! (`specs/Bodies.antt`). Blank lines are passed over, and numbers count
//! all lines. The first wrong parameter or line decides: each before it is right, and it is refused
//! (`specs/FirstRefusals.antt`).
//!
//! [`read_quality`], [`read_minimum`], [`read_flag`], [`read_nodata`] and [`read_whole`] read single
//! values.
#![tactic(auto)]

mod area;
mod avail;
mod body;
mod counting;
mod extracts;
mod fault;
mod front;
mod level;
mod lines;
mod listed;
mod order;
mod rows;
mod selections;
mod values;
mod words;

pub use area::{Area, Limits2};
pub use avail::{AvailForm, AvailOrder, Merges, QualitySet};
pub use body::{BodyWords, read_body};
pub use counting::has_too_many;
pub use extracts::{
    area_in, avail_form_in, avail_order_in, event_order_in, flag_in, is_area_in_order,
    is_backwards, is_range, level_in, limit_in, merges_in, minimum_in, nodata_in, number_in,
    qualities_in, quality_in, selection_in, text_in, whole_in,
};
pub use fault::QueryFault;
pub use level::Level;
pub use order::EventOrder;
pub use rows::{ParameterName, ValueKind};
pub use values::{BadValue, read_flag, read_minimum, read_nodata, read_quality, read_whole};
pub use words::{ParameterValue, read_words};
