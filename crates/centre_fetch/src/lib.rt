//! The command `fetch`: a window of a data centre's archive, over the links of a port.
//!
//! What the crate above uses: [`fetch`] reads the words as those of `select` are read, asks for their window on the links of the port,
//! in parts where it must, and writes the records of all answers on a sink. Its contract, `FetchRow` of `specs/Table.antt`, says
//! by how it ended what was asked, heard and written.
//!
//! The definition: `IsFetchAnswer` of `specs/Answers.antt`, which says what the words and what was heard determine: the records
//! of all answers without doubles, by name, quality letter and start, or why there are none. What is asked on a link, and what is
//! heard on it, is said by `split_fetch`; a request is one for dataselect's `query` (FDSN Web Service Specifications 1.2,
//! dataselect).
//!
//! Laws (`src/law.rt`): the words and what was heard have one answer ([`one_fetch_answer`], [`some_fetch_answer`]), and a run's row
//! is that answer ([`a_row_is_the_answer`]).
#![tactic(auto)]

mod ending;
mod fetching;
mod law;
mod words;

pub use ending::{FetchRefusal, FetchStop};
pub use fetching::fetch;
pub use law::{a_row_is_the_answer, one_fetch_answer, some_fetch_answer, words_decide};
