//! Text answers to queries for events (FDSN Web Service Specifications 1.2, event, format=text).
//!
//! What the crates above use: [`answer`] is `text_answer_of` of `specs/Texts.antt`: the header line and the
//! lines of the live events that the query asks for, in the order that it asks for, or Empty exactly where
//! there is none, or TooLarge(n) exactly where these are n lines and more than the limit.
//!
//! Which events are asked for stands in `specs/Events.antt`, their order, the offset and the limit in
//! `specs/Orders.antt`. The law `events_are_in_the_order_asked_for` says it in the words of the standard.
#![tactic(auto)]

mod answers;
mod asked;
mod law;
mod rank;
mod ranking;

pub use answers::answer;
pub use law::events_are_in_the_order_asked_for;
