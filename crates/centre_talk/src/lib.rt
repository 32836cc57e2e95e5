//! One session over a source and a sink, on the archive of a disk.
//!
//! What the crate above uses: [`talk`] opens the archive that a disk holds, serves the requests that a source gives and
//! writes the replies on a sink, and gives back the disk and the turns. Its contract, `TalkRow` of `specs/Talk.antt`, says by
//! how it ended what was read, replied and written, and what the disk then holds.
//!
//! The definition: the session is that of `centre_session` over the source and the sink as one link
//! (`specs/Link.antt`) and over the desk of one owner. The history that is first seen is the one that the file's bytes
//! spell; every file that a crash then leaves is a journal of the history that is last seen, with or without the entry of
//! one command that was stopped or met want of memory.
#![tactic(auto)]

mod ending;
mod link;
mod talking;

pub use ending::TalkStop;
pub use talking::{Talked, talk};
