//! Rounds of a replica: what it asks its primary for on one link, what it makes of what is heard there, and one round after another.
//!
//! What the crates above use: [`follow`] over a [`Follower`](follow_replica::Follower) and a `Port`. Its contract, `FollowsRow` of
//! `specs/Following.antt`, says which links came back and what was heard on each, what the replica took, and why it ended.
//! [`round`] is one of its rounds. Its contract, `RoundRow` of `specs/Rounds.antt`, says what was heard on the link
//! (`specs/Hearing.antt`), what was written there (`specs/Requests.antt`), what the replica took, and the answer, which is a function
//! of these two.
//!
//! A law says that what is heard is a function of the bytes that came ([`a_link_is_heard_in_one_way`]).
//!
//! The credentials are those of RFC 2617, section 3.2.2, without a quality of protection.
#![tactic(auto)]

mod asking;
mod following;
mod heard;
mod hearing;
mod law;
mod one_round;
mod outcome;

pub use following::{FollowFault, follow};
pub use law::a_link_is_heard_in_one_way;
pub use one_round::round;
pub use outcome::{Round, RoundFault};
