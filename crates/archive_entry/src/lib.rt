//! The entries of an archive, and the one spelling of each.
//!
//! What the crates above use: [`encode`] gives the bytes of an [`Entry`], and [`decode`] reads it back: Ok exactly
//! where the payload spells that entry (`Spells` of `specs/Spelling.antt`), and else the offset of the first field that
//! breaks the format (`bad_field` of `specs/Format.antt`); [`decode_counted`] tells besides how many records its body
//! is. An entry is its number, its moment, its author, its number among the author's, its kind and a body, which are
//! the records of a batch, end to end, or the lines of a revision.
//!
//! What a body says is a function of its bytes: `revision_of` and `is_body` of `specs/Bodies.antt`, `batch_of`,
//! `batch_fault`, `record_count` and `batch_rows` of `specs/Batches.antt`.
//!
//! The laws are in `src/law.rt`: no spelling of an entry begins that of another, so each has one; what is spelled reads
//! back (`entry_of_payload` of `specs/Payload.antt`); every payload is one entry or has one fault; and the words of a
//! body are the one right answer of the relations on records (`mseed_header`) and on revisions (`epochs`).
//!
//! `src/reading.rt` reads a payload field by field (`specs/Reading.antt`).
#![tactic(auto)]

mod bodies;
mod decoding;
mod encoding;
mod entry;
mod fault;
mod law;
mod reading;

pub use decoding::{decode, decode_counted};
pub use encoding::encode;
pub use entry::{Entry, Kind};
pub use fault::EntryFault;
pub use law::{
    a_batch_has_one_reading, a_payload_is_one_entry_or_has_one_fault, a_revision_has_one_reading,
    no_spelling_begins_another, what_is_spelled_reads_back,
};
