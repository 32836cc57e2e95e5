//! A disk that may crash at any moment: the base under the archive's journal.
//!
//! What the crate above uses: the trait [`Disk`]. What is told of a disk at one moment is one record, its
//! `DiskView` (`specs/View.antt`): what a read gives, which images a crash now may leave, which a crash at
//! some moment since an earlier one might have left, and how often the disk failed. What a call does,
//! whether it answers Ok or fails, is one relation of two views (`specs/Effects.antt`, in the words on
//! files of `specs/Disk.antt`). All these relations are a `DiskRun`: so what is said of a disk that tells
//! is said in one place, and of a disk that doesn't the faults alone. That every image at every moment of
//! a run has a property is `AlwaysLeaves`. The lemmas by which all this goes on from call to call are
//! `proofs/Moments.antt` (the time), `proofs/Runs.antt` (one run and then another, and calls that write
//! nothing), `proofs/Leaving.antt` (from the images before a call to those after it) and
//! `proofs/Overwrites.antt` (what a torn write is, byte by byte). [`write_through`] is a write and a sync
//! with such a clause, and [`add_and_mark`] a worked run over any disk, which goes as a journal's commit
//! does.
//!
//! The definition: `specs/Images.antt` states outright which files a crash may leave, from the file at
//! the last sync, the least and the greatest length since, and the bytes written since. [`MemoryDisk`] is
//! that definition (`specs/Changes.antt`, from the list of all changes), and is proved to be a [`Disk`];
//! in the other direction `proofs/Leaving.antt` brings the definition to every disk by the trait's
//! clauses alone. What each call of a [`MemoryDisk`] leaves, when it fails and what it counts is a record
//! of `specs/Calls.antt`. [`FuseDisk`] passes so many calls of a disk in memory, each by the same record,
//! and then fails. [`FileDisk`] is a real file, which counts its errors and tells nothing; after a sync
//! that failed it fails every call.
#![tactic(auto)]

mod change;
mod choice;
mod disk;
mod file;
mod fuse;
mod law;
mod memory;
mod replay;
mod through;

pub use change::Change;
pub use choice::Choice;
pub use disk::Disk;
pub use file::FileDisk;
pub use fuse::FuseDisk;
pub use law::add_and_mark;
pub use memory::MemoryDisk;
pub use through::write_through;
