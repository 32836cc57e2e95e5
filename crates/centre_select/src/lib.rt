//! The command `select`: the records of an input that are asked for.
//!
//! What the crate above uses: [`select`] reads the query from the words, takes the records of a source, and writes those that
//! are asked for on a sink. Its contract, `SelectRow` of `specs/Table.antt`, says by how it ended what was read and written:
//! in order, the sink got the data body of the input's records for the query of the words, nothing more and nothing less
//! (`specs/Answers.antt`); and each refusal comes where its cause holds. [`tell_refusal`] tells why there is no body.
//!
//! What the program of `select` alone uses: [`run_select`], whose contract, `IsRun` of `specs/Table.antt`, says the same of
//! that program, with its status and its texts (`specs/Status.antt`).
//!
//! [`StdSource`] and [`StdSink`] are adapters over std's readers and writers.
#![tactic(auto)]

mod adapters;
mod ending;
mod help;
mod intake;
mod output;
mod running;
mod selecting;
mod telling;
mod words;

pub use adapters::{StdSink, StdSource};
pub use ending::{SelectRefusal, SelectStop, Word};
pub use help::SELECT_HELP;
pub use running::run_select;
pub use selecting::select;
pub use telling::{out_of_memory, tell, tell_refusal, unknown_command};
pub use words::select_query;

/// How many bytes the input of `select` may have.
pub const MAX_INPUT: usize = 67_108_864;
