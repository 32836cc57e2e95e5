//! A journal that a crash can't spoil: the archive's one file, as a list of payloads.
//!
//! What the crate above uses: [`Journal`], over any disk of `disk_model`. Contracts see it as its disk, its
//! payloads and their number (`Opened` in `specs/Journal.antt`). [`Journal::commit`] adds a payload of a
//! [`Frame`]: at every moment since the call's start every image of the disk, which is the file that a crash
//! then leaves, is a journal of the payloads of before, or of these and the new one; after Ok every image has
//! it. Where the disk fails, the journal is stopped: it answers [`DiskFault`] to every further commit without
//! a call on the disk, and every image keeps the payloads, with the one that was in hand or without.
//! [`Journal::recover`] opens the payloads of what a read gives, after a crash too, and every image then holds
//! these; it writes nothing. [`Journal::read_entry`] reads a payload, and leaves the images as they were:
//! that a journal was only read is `WasRead`, a relation of two of its moments, which goes on from read to
//! read (`proofs/JournalReads.antt`). [`Journal::init`] makes a journal in an empty file. So after an `init` or a
//! `recover` that answered Ok, no image that a journal's calls leave is damaged ([`RecoverFault`]); a crash
//! inside `init` may leave anything, and it is run again on an empty file. All this is in the type: callers
//! show lengths, numbers, and that they reserved before they commit.
//!
//! The definition: `specs/Frames.antt` says what a file is. A file has 16 bytes of magic and then frames: a
//! gate, the payload's length (four bytes, the greatest first) and the payload. A gate of 1 is open, every
//! other byte is a closed one; the payloads are those of the frames up to the first closed gate, and what
//! follows it isn't read. A file is a journal of its payloads (`IsJournal`), or is damaged at an offset
//! (`IsDamaged`), or is no journal (`IsNoJournal`); `reading_of` says which, and the law
//! [`a_file_reads_in_one_way`] that there is no second way.
//!
//! How it goes: the last gate of a file stands closed on the disk before anything is written behind it. A
//! commit writes the frame and the next closed gate behind it, syncs, opens it by a write of one byte, and
//! syncs (`proofs/Adding.antt`). No checksum is trusted.
#![tactic(auto)]

mod commit;
mod fault;
mod frame;
mod journal;
mod law;
mod recover;
mod room;

pub use fault::{DiskFault, InitFault, ReadFault, RecoverFault};
pub use frame::Frame;
pub use journal::Journal;
pub use law::{a_file_reads_in_one_way, the_first_gate_stands_at_16};
pub use room::Room;
