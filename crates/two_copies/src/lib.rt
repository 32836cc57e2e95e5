//! Two swapped copies of an archive's state: one writer adds entries, and places look without a lock.
//!
//! What the crates above use: a [`Place`], from which one caller looks at the copy that is shown. [`Place::ask`] answers
//! a question over what the place has seen after the call, which begins with all that it had seen before; it takes no
//! lock and waits for nobody. [`Place::reach`] looks until the place has seen just what a token tells. The writer takes
//! [`Step`]s, each an entry between the tokens of the histories before it and behind it, and [`publish`] shows them:
//! what is shown only grows. Each copy is a [`HeldState`]: a `State` of `archive_state` beside the token of its history,
//! so that whoever looks at a copy knows for which history it stands.
//!
//! The definitions: `specs/Rule.antt` is the rule over the copies: each view has seen a beginning of what is shown.
//! `specs/Steps.antt` says what a step does to a list. The trait [`Carries`] is there for the prover's sake: a struct
//! can hold a writer of copies only of a type that is a parameter, and [`HeldState`] is the one type that meets it.
#![tactic(auto)]

mod carries;
mod held;
mod looking;
mod place;
mod publishing;
mod shares;
mod step;
mod view;

pub use carries::Carries;
pub use held::HeldState;
pub use place::{Catches, Place};
pub use publishing::publish;
pub use shares::Shares;
pub use step::Step;
pub use view::{CopyReader, CopyWriter, Published, View};
