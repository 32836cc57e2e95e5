//! The desk of one owner: an archive that nobody else asks or adds to.
//!
//! What the crates above use: [`OwnedDesk`], a `Desk` of `desk_words` over any disk. [`OwnedDesk::start`] opens the
//! history that the disk's bytes spell, and [`OwnedDesk::close`] gives the disk back: every image, which is the file
//! that a crash then leaves, is a journal of what was seen, or of this and the one entry that was left: committed where
//! memory ran out behind the commit, or with it or without it where the disk stopped its commit (`LeavesLeft` of
//! `archive_post`, whose `Intake` is the way of a posted command).
//!
//! The definition: `specs/Owned.antt` says what a desk stands for.
#![tactic(auto)]

mod kept;
mod opening;
mod owned;

pub use kept::OwnedDesk;
