//! An archive of made records in an empty file, and what is counted of it.
//!
//! What the crate above uses: [`drill`] founds an archive on a disk, adds a user and the records, each entry tested,
//! committed and taken into a state, and writes five figures of that state on a sink. Its contract, `DrillRow` of
//! `specs/Drill.antt`, says by how it ended what the disk then holds and what was written.
//!
//! The definitions: `specs/Records.antt` says which bytes the made records have, `specs/History.antt` which entries the
//! archive has, and `specs/Figures.antt` what is counted of a history. The law in `src/law.rt` says what the header of each
//! made record says.
#![tactic(auto)]

mod drilling;
mod ending;
mod figures;
mod law;
mod making;
mod records;

pub use drilling::{Drilled, drill};
pub use ending::DrillStop;
pub use figures::Figures;
pub use law::a_made_record_says_its_place_and_time;
