//! How a replica follows a primary, over lists of entries of any kind: whatever becomes of the replies that bring them, what the
//! replica holds is a first part of what the primary holds.
//!
//! What the crate above uses: [`always_a_prefix`], over worlds and steps of `specs/Following.antt`: the primary grows, replies with
//! entries from a number on, and any reply that it ever made is delivered, late, again or never; the replica crashes, also while
//! it takes what a reply brings. [`a_replica_takes_what_is_missing`] says that what comes next of consecutive entries are all
//! that the replica hasn't.
#![tactic(auto)]

mod law;

pub use law::{a_replica_takes_what_is_missing, always_a_prefix};
