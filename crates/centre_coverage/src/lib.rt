//! The command `coverage`: how much of each day an archive holds, channel by channel.
//!
//! What the crate above uses: [`coverage`] reads two dates, opens the archive that a disk holds, and writes the report of what its
//! history holds on a sink; it gives the disk no write. Its contract, `CoverageRow` of `specs/Table.antt`, says by how it ended what
//! was asked, seen and written. [`report`] is the report of a state of `archive_state`: that of `coverage_report`, over the rows that
//! are held, so a withdrawn record covers nothing.
//!
//! The definition: `IsCoverageAnswer` of `specs/Answers.antt`, which says what the words and the bytes of the file determine: the
//! report, or why there is none. Which days the words ask for stands in `specs/Words.antt`.
//!
//! Laws (`src/law.rt`): words ask for days or are refused ([`words_decide`]); words and a file have one answer
//! ([`one_coverage_answer`], [`some_coverage_answer`]), and a run's row is that answer ([`a_row_is_the_answer`]).
#![tactic(auto)]

mod covering;
mod days;
mod ending;
mod law;
mod reporting;
mod sight;

pub use covering::{Covered, coverage};
pub use ending::{CoverageRefusal, CoverageStop, DayWord};
pub use law::{a_row_is_the_answer, one_coverage_answer, some_coverage_answer, words_decide};
pub use reporting::report;
