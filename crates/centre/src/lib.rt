//! The program's commands over objects of the outside.
//!
//! What the program uses: [`run`] does what the words ask for. Its contract says that what the words and
//! what they make it read determine (`specs/Answers.antt`) is what comes: with status 0 of `select` the sink got
//! the data body of the input's records for the query of the words, nothing more and nothing less; with status 0 of
//! `init` the disk reads as the journal with the founding entry alone, and so does every file that a crash may leave;
//! `talk` is a session over the source and the sink on the archive of the disk (`specs/Talks.antt`); with status 0 of `drill`
//! the disk holds the archive of made records, and the sink got its figures (`specs/Drills.antt`); `serve` is a service over
//! the archive of the disk and the ports of several workers (`specs/Serves.antt`); with status 0 of `fetch` the sink got the
//! records of a window of another data centre, as the first port's links gave them (`specs/Fetches.antt`); with status 0 of
//! `coverage` it got the report of what the archive of the disk holds (`specs/Coverages.antt`); and each other status
//! comes where its cause holds (`specs/Settled.antt`), and leaves what the table says (`specs/Table.antt`).
//! [`outside_of`] says which file, and which address, the words name. Which command the words give is said by `command_words`.
//!
//! [`Source`] and [`Sink`], which are those of `streams`, `Disk` of `disk_model`, `Clock` of `centre_session`, and for each
//! [`Worker`] `Port` of `link_ports` and `Gate` of `snapshot_hall` are what it needs of the outside.
//! [`MemorySource`] and [`MemorySink`] are such objects in memory, [`StdSource`] and [`StdSink`] adapters
//! over std's readers and writers.
#![tactic(auto)]

mod covering;
mod ending;
mod fetching;
mod help;
mod law;
mod objects;
mod outside;
mod running;
mod selecting;
mod stops;
mod telling;

pub use centre_select::{MAX_INPUT, SELECT_HELP, StdSink, StdSource, Word};
pub use centre_serve::Worker;
pub use ending::{Refusal, Stop};
pub use help::{
    COVERAGE_HELP, DRILL_HELP, FETCH_HELP, HELP, INIT_HELP, SERVE_HELP, TALK_HELP, VERSION,
};
pub use law::{one_answer_at_most, some_answer, the_small_program_says_the_same};
pub use objects::Outside;
pub use outside::outside_of;
pub use running::{Ended, run};
pub use streams::{MemorySink, MemorySource, Sink, Source, Stream};
pub use telling::out_of_memory;
