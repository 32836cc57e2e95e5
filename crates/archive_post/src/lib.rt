//! The way of a posted command: an archive with what judges its next command.
//!
//! What the crates above use: an [`Intake`], which stands for the history of an archive (`StandsFor` in
//! `specs/Intake.antt`). [`Intake::post`] asks who sends a command, judges it over that history, takes all memory, and
//! commits and notes its entry; [`Intake::append`] commits an entry that is handed in, if it comes next. What either
//! does is a row of `specs/Posts.antt`. The entry then waits until it is shown: [`Intake::take`] gives it to whom shows
//! it. After a commit that failed nothing is committed any more, and the entry of the first stays in hand.
//!
//! The definitions: `specs/Leaving.antt` says what a crash leaves.
#![tactic(auto)]

mod appending;
mod intake;
mod judging;
mod kept;
mod posting;
mod showing;

pub use appending::AppendFault;
pub use kept::Intake;
