//! Headers of miniSEED 2 records, and the records of a batch.
//!
//! What the crates above use: [`read_header`] is the header relation, both ways, and tells the first
//! test that isn't passed (`specs/Header.antt`; SEED 2.4, fixed section of data header, blockettes
//! 1000 and 1001), and [`cut_body`] cuts bytes into the records that stand in them end to end
//! (`specs/Records.antt`). [`count_records`] counts them without memory. A [`Row`] is a record with what
//! its header says; its type keeps that the header is that of the bytes. By the laws of `src/law.rt` every
//! byte string has exactly one answer of each.
//!
//! A header is read in the byte order in which its year is 1900 to 2055. Its chain of blockettes is
//! `specs/Blockettes.antt`'s.
#![tactic(auto)]

mod batch;
mod blockettes;
mod code_field;
mod cut;
mod header;
mod law;
mod numbers;
mod quality;
mod read;
mod row;
mod times;

pub use batch::count_records;
pub use cut::{CutFault, cut_body, cut_records};
pub use header::{Header, RecordFault};
pub use law::{
    a_refusal_stays, bytes_are_records_or_one_is_the_first_refused,
    bytes_begin_with_one_header_or_have_one_fault, qualities_are_in_order_of_their_letters,
};
pub use quality::Quality;
pub use read::read_header;
pub use row::Row;
pub use times::{last, next};
