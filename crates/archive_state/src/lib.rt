//! Histories of entries: what a history holds, and the verdict on a command that is posted over it.
//!
//! What the crates above use: [`Admit`] judges a command and takes in the next entry; which history it stands for says
//! `IsAdmit` of `specs/Admits.antt`. [`State`] holds the rows that have arrived and the live lines of a history, as
//! whose list of entries it is seen. The verdict on a command is a function of the history as a list (`verdict_of` of
//! `specs/Verdicts.antt`), and so is whether a history is lawful (`is_lawful` of `specs/Lawful.antt`). What a history
//! holds are functions of the list too (`specs/History.antt`): its live lines, the rows that have arrived, those of them
//! that are held as no live withdrawal covers them, its records and bytes, and each author's entries.
//!
//! The laws are in `src/law.rt`: an accepted command gets the next number; a history with one entry more is lawful
//! exactly where the history is and the entry is the next one, which has a spelling; a command that was accepted once
//! is answered by its number from then on, and whatever is sent keeps a history lawful; each verdict says what its name
//! says; which rows are held.
#![tactic(auto)]

mod admit;
mod authors;
mod judging;
mod law;
mod limits;
mod lines;
mod numbering;
mod opening;
mod posted;
mod state;
mod verdict;

pub use admit::Admit;
pub use judging::{known_records, roles_of};
pub use law::{
    a_command_acts_once, a_founding_entry_comes_first, a_history_goes_on_with_its_next_entry,
    an_accepted_command_gets_the_next_number, commands_keep_a_history_lawful,
    held_in_the_subjects_words, held_rows_have_arrived, the_next_entry_can_be_absorbed,
    the_next_entry_has_a_spelling, verdicts_in_the_subjects_words,
};
pub use limits::Limits;
pub use opening::{founding_body, founding_entry};
pub use posted::Posted;
pub use state::State;
pub use verdict::Verdict;
