//! Bodies of entries, by which an archive is copied: of each entry, in order, its spelling's length as four bytes with the
//! highest first, and its spelling.
//!
//! What the crates above use: [`entries_body`] is the body of a history's entries from a number on (`entries_body` of
//! `specs/Bodies.antt`), and [`entries_in`] reads a body: Ok exactly where it is a body of those entries (`IsBody`
//! there), and else the offset of the first piece that is none.
//!
//! The laws are in `src/law.rt`: a body is one list of entries at most, or has one bad place; and what is written of a
//! history reads back as entries of that history, in order, without a gap.
#![tactic(auto)]

mod law;
mod reading;
mod writing;

pub use law::{a_body_is_one_list_or_has_one_fault, what_is_sent_reads_back};
pub use reading::{BodyFault, entries_in};
pub use writing::{BodyRefusal, entries_body};
