//! Streams of bytes: what the program needs of the outside to read and to write, and such streams in memory.
//!
//! What the crates above use: the traits [`Source`], [`Sink`] and [`Link`], each a [`Stream`]. What is told
//! of a stream at one moment is one record, its `StreamView` (`specs/View.antt`): the bytes that it has left
//! to give, those that were written to it, each where it tells them, and how often it failed. What a call
//! does, whether it answers Ok or fails, is one relation of two views (`specs/Effects.antt`): `Takes` for a
//! take, `Puts` for a put, `PutsAll` for [`put_all`], which writes whole bytes to a sink or a link, and
//! `OnlyTakes` for some takes. That what is told goes on from call to call (`GoesOn`) is a law, the contract
//! of a function without body; `proofs/GoingOn.antt` and `proofs/Grows.antt` have the lemmas for the loops
//! above.
//!
//! [`MemorySource`], [`MemorySink`] and [`MemoryLink`] are exact: which call fails is said by its number
//! (`specs/Calls.antt`; a [`Tally`] counts them, also for ports), which bytes of which piece it gives
//! (`specs/Pieces.antt`) and how much of a piece it takes (`specs/Memory.antt`). Where memory doesn't suffice to keep what is written, they no longer tell
//! it (`specs/Kept.antt`), and tell what is left as before.
#![tactic(auto)]

mod kept;
mod law;
mod link;
mod pieces;
mod sink;
mod source;
mod stream;
mod tally;
mod transfer;

pub use law::what_is_told_goes_on;
pub use link::MemoryLink;
pub use sink::MemorySink;
pub use source::MemorySource;
pub use stream::{Link, Sink, Source, Stream};
pub use tally::Tally;
pub use transfer::put_all;
