//! Questions to a history, and who answers them and adds to it.
//!
//! What the crates above use: the trait [`Desk`]. A desk answers a [`Question`] over a prefix of one history, and takes a
//! command that is posted into it; what is known of it at a moment is a `Stand`, and each call is one relation of two
//! stands (`specs/Stand.antt`): `Asks`, `Submits`, `CatchesUp`. What was seen stays in front of what is seen later, and
//! is lawful. [`outcome`] answers a question over a `State`, for every desk.
//!
//! The definitions: `specs/Visible.antt` says what of a history a caller may see; `specs/Outcomes.antt` what a question
//! is answered with, which is a function of the number of entries, of who asks, and of what is visible to that one. So
//! what is hidden changes no answer ([`what_is_hidden_changes_nothing`]), but to one who asks for the entries themselves,
//! which wants a role ([`entries_are_for_replicas`]). `specs/Posting.antt` says which entry a posted command becomes.
#![tactic(auto)]

mod asking;
mod law;
mod outcomes;

pub use asking::{Answer, Desk, Outcome, Question, SubmitFault, Submitted, Wanted};
pub use law::{entries_are_for_replicas, what_is_hidden_changes_nothing};
pub use outcomes::outcome;
