//! Replicas that lack memory once: what was taken stays, and the rest is taken after.
use crate::disks::CHOICES;
use crate::names::{number, told, word};
use crate::replicas::disk_of;
use archive_log::StartFault;
use disk_model::{Choice, MemoryDisk};
use exact_time::{Bytes, OutOfMemory};
use follow_replica::{Follower, TakeFault};
use std::alloc::Global;

// How many entries a file has as a replica; none where it isn't one.
fn entries(alloc: Global, file: &[u8]) -> Result<Option<u64>, OutOfMemory> {
    match Follower::open(alloc, disk_of(alloc, file)?) {
        Ok(follower) => Ok(Some(follower.wanted().saturating_sub(1))),
        // A disk in memory fails where it lacks memory, and else these don't.
        Err((_disk, StartFault::OutOfMemory | StartFault::DiskFault)) => Err(OutOfMemory),
        Err(_) => Ok(None),
    }
}

// Whether each image is a replica of so many entries, or of one more.
fn are_kept(alloc: Global, disk: &MemoryDisk, had: u64) -> Result<bool, OutOfMemory> {
    let mut kept = true;
    'images: for choice in CHOICES {
        let image = disk.image(choice)?;
        let count = entries(alloc, image.as_slice())?;
        kept = kept && (count == Some(had) || count == Some(had.saturating_add(1)));
    }
    Ok(kept)
}

// Whether a replica answers two times as it has to, if memory or a growth of the disk is refused once at most: the body's
// entries, of which there are so many in all, are taken, or the rest of them the second time, or the disk has failed.
fn goes_on(alloc: Global, follower: &mut Follower<MemoryDisk>, body: &[u8], all: u64) -> bool {
    let missing = all.saturating_add(1).saturating_sub(follower.wanted());
    let first = follower.take(alloc, body);
    let left = all.saturating_add(1).saturating_sub(follower.wanted());
    let second = follower.take(alloc, body);
    match first {
        Ok(taken) => taken == missing && left == 0 && second.unwrap_or(0) == 0,
        Err(TakeFault::OutOfMemory) => second == Ok(left),
        Err(fault) => fault == TakeFault::DiskFault && second == Err(fault),
    }
}

// Opens the replica that a disk holds, and brings it the body; the disk, and whether all was as it has to be.
fn attempt(
    alloc: Global,
    disk: MemoryDisk,
    body: &[u8],
    all: u64,
) -> Result<(MemoryDisk, bool), OutOfMemory> {
    match Follower::open(alloc, disk) {
        Ok(mut follower) => {
            let goes_on = goes_on(alloc, &mut follower, body, all);
            let had = follower.wanted().saturating_sub(1);
            let disk = follower.close();
            let are_kept = are_kept(alloc, &disk, had)?;
            Ok((disk, goes_on && are_kept))
        }
        Err((disk, fault)) => {
            let is_want = fault == StartFault::OutOfMemory || fault == StartFault::DiskFault;
            Ok((disk, is_want))
        }
    }
}

/// Whether an empty replica that lacks memory once at most has, the second time that it is opened and brought the body, this
/// journal.
pub fn given(alloc: Global, words: &[Bytes]) -> Result<String, OutOfMemory> {
    let body = word(words, 1);
    let all = number(words, 3);
    let (disk, first) = attempt(alloc, disk_of(alloc, b"")?, body, all)?;
    let (disk, second) = attempt(alloc, disk, body, all)?;
    let is_whole = disk.image(Choice::Old)?.as_slice() == word(words, 2);
    told(
        alloc,
        if first && second && is_whole {
            "kept"
        } else {
            "lost"
        },
    )
}
