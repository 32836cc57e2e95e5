//! Text answers to queries for networks, stations and channels (FDSN Web Service Specifications 1.2,
//! station, format=text).
//!
//! What the crates above use: [`answer`] is `text_answer_of` of `specs/Answers.antt`: the header line and the
//! lines of the live epochs that the query asks for, each printed in its columns, or Empty exactly where
//! none is asked for, or TooLarge(n) exactly where these are n lines and more than the limit.
//!
//! Which lines are asked for stands in `specs/Asked.antt`: a filter of the catalog's live lines by the
//! codes, the window and the comparisons of the query, its area, and what a station or a network has within
//! its epoch. How a line is printed stands in `specs/Texts.antt`.
#![tactic(auto)]

mod answers;
mod asked;
mod found;
mod groups;
mod law;
mod lines;
mod matched;
mod place;
mod sections;
mod windows;

pub use answers::answer;
pub use law::answers_are_in_order;
