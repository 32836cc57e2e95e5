//! A shelf whose rows are found by their channel and time.
//!
//! What the crates above use: [`IndexedShelf`] and [`TimeIndex`] are each a `Shelf` of `dataselect`, so they answer
//! as [`dataselect::PlainShelf`] does. Per channel they keep the spots of its rows in order of their start,
//! and how long a row of the channel lasts at most: a query reads of each channel only the rows from its
//! window's start less that time up to its window's end. A sight is asked once for each channel whether it
//! sees the channel whole, and then for no row of it. `specs/Index.antt` says what the channels hold of the rows.
//!
//! [`IndexedShelf`] keeps the merged spans of its rows, and mends them as rows come in any order
//! (`specs/Kept.antt`). [`TimeIndex`] keeps none, and makes those of a name of the rows of its channel.
#![tactic(auto)]

mod asked;
mod channel_kept;
mod channel_spans;
mod channels;
mod doubles;
mod indexed;
mod kept;
mod kind;
mod kinds;
mod names;
mod shelf;
mod spot;
mod wholes;
mod windows;

pub use indexed::TimeIndex;
pub use shelf::IndexedShelf;
