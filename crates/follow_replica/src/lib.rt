//! A replica of another archive, over any disk.
//!
//! What the crates above use: a [`Follower`], seen as its archive. [`Follower::open`] opens what a disk holds, also a file without
//! a byte. [`Follower::take`] takes a body of entries, as the primary gives them: those whose numbers come next are committed, in
//! order, each tested by what is lawful next. Its contract, `TakesRow` of `specs/Takes.antt`, says for each answer what was added;
//! at every moment of the call, over all its commits, every image is a journal of the history of before and of some of these
//! entries, in order (`Adds`).
//!
//! Laws: [`a_replica_of_a_lawful_history`] says that of consecutive entries of a lawful history, of which the replica is a first
//! part, it stays one; [`always_a_prefix`] of the crate `follow_law` says that of all that may happen to replies.
#![tactic(auto)]

mod adding;
mod fault;
mod follower;
mod law;
mod numbers;

pub use fault::TakeFault;
pub use follow_law::{a_replica_takes_what_is_missing, always_a_prefix};
pub use follower::Follower;
pub use law::a_replica_of_a_lawful_history;
