//! Queries for waveforms over the rows of a shelf (FDSN Web Service Specifications 1.2, dataselect).
//!
//! What the crates above use: over any [`Shelf`] and any [`Sight`], [`answer`] is the data body of
//! `specs/DataBody.antt`: the bytes of the picked rows, one after another, in the order of
//! `specs/Order.antt`. The chosen rows are cut into segments (`specs/Segments.antt`), of which the query
//! picks those of a least length, or the longest of each name (`specs/Picked.antt`). A shelf stands for
//! its list of rows in order of insertion (`specs/Rows.antt`). [`PlainShelf`] keeps that list and walks
//! it for each query.
//!
//! A shelf tells the names that it holds (`specs/HeldNames.antt`), and of a name the spans of its rows
//! (`specs/MergedSpans.antt`). Which rows make a span is said once for all ways to merge them
//! (`specs/Spans.antt`), so that availability's answers can cite it too.
#![tactic(auto)]

mod answers;
mod law;
mod lengths;
mod names;
mod order;
mod picked;
mod plain;
mod query;
mod segments;
mod shelf;
mod sight;
mod span;
mod span_order;
mod spans;

pub use answers::{DataRefusal, answer, answer_places};
pub use law::{
    chosen_in_the_subjects_words, names_in_the_subjects_words, picked_in_the_subjects_words,
    rows_put_in_together_are_held, rows_that_are_asked_for_decide, spans_in_the_subjects_words,
};
pub use names::list_names;
pub use order::{Rank, places_of, rank_of};
pub use picked::pick;
pub use plain::{PlainShelf, is_chosen};
pub use query::{DataQuery, Nodata, Selection};
pub use shelf::{Inserted, Shelf};
pub use sight::{All, Sight};
pub use span::Span;
pub use span_order::{SpanRank, span_rank_of};
pub use spans::spans_ranked;
