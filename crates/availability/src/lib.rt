//! What there is of a shelf, in text: time spans and extents (fdsnws-availability 1.0, query and extent).
//!
//! What the crates above use: [`spans_body`] and [`extent_body`] are `answer_of` of `specs/Texts.antt`, over
//! any `Shelf` and `Sight`: the lines of what each selection keeps of the spans, in the order asked for, or
//! Empty exactly where there is none, or TooLarge(n) exactly where these are n lines and more than the limit.
//!
//! Which rows make which spans stands in `specs/Spans.antt`, that they are made channel by channel in
//! `specs/Channels.antt`, what a selection keeps of them in `specs/Windows.antt`, the lines and their order in
//! `specs/Lines.antt`, and how they are printed, each text once, in `specs/Texts.antt`. The law
//! `lines_are_in_order` says that no two lines stand equal.
#![tactic(auto)]

mod bodies;
mod channel;
mod channels;
mod fields;
mod law;
mod line;
mod rank;
mod rows;
mod span;
mod spans;
mod texts;
mod window;

pub use bodies::{extent_body, spans_body};
pub use law::lines_are_in_order;
