//! One history that only grows, and tokens of its beginnings.
//!
//! What the crates above use: [`Book`] is the history of an archive, which exists in proofs alone; its bytes are the
//! number of its entries. A [`Front`] is a token of a beginning of it, seen as the list of these entries: whoever has
//! one knows that the history begins so. It has no entries in memory, so a copy ([`Front::again`]) costs nothing, and
//! two of them can be compared by their lengths: the longer begins with the shorter ([`Front::longer`]), and of the
//! same length they are the same ([`Front::same_as`]). So threads that never meet learn from a token which history a
//! value stands for. Only [`Front::add`] lengthens the history, by the entry that comes next; that a history is lawful
//! is part of what the book keeps.
//!
//! The definitions: `specs/Rules.antt` says what the book keeps and what a step of it tells, `specs/Fronts.antt` when
//! one list goes past another. [`Naming`] says which history it is.
#![tactic(auto)]

mod book;
mod front;
mod rule;

pub use book::{Book, Naming, Opened};
pub use front::Front;
