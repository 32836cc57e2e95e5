//! Replicas over disks in memory: what they take of bodies, where the disk stops, and what each image then takes.
use crate::disks::{CHOICES, Drives};
use crate::names::{copied, number, parts, told, word};
use crate::scarce;
use disk_model::{Choice, Disk, FuseDisk, MemoryDisk};
use exact_time::{Bytes, Many, OutOfMemory};
use follow_replica::Follower;
use std::alloc::Global;

/// A disk in memory with this file.
pub fn disk_of(alloc: Global, file: &[u8]) -> Result<MemoryDisk, OutOfMemory> {
    MemoryDisk::new(alloc, copied(alloc, file)?, Many::new(alloc))
}

// What a replica answers to a body, and the number of the entry that it wants then.
fn answer<D: Disk>(
    alloc: Global,
    follower: &mut Follower<D>,
    body: &[u8],
) -> Result<String, OutOfMemory> {
    let taken = follower.take(alloc, body);
    let wanted = follower.wanted();
    Ok(match taken {
        Ok(count) => format!(in alloc; "{count} (wants {wanted})")?,
        Err(fault) => format!(in alloc; "{fault} (wants {wanted})")?,
    })
}

// What it answers to the bodies from the third word on, one after another.
fn answers(
    alloc: Global,
    follower: &mut Follower<FuseDisk>,
    words: &[Bytes],
) -> Result<String, OutOfMemory> {
    let mut shown = String::new(alloc);
    'bodies: for n in 2..words.len() {
        if n > 2 {
            shown.push_str(", ")?;
        }
        shown.push_str(answer(alloc, follower, word(words, n))?.as_str())?;
    }
    Ok(shown)
}

// Opens the replica that the disk's file is, behind a fuse that passes so many calls, and brings it bodies.
fn take(alloc: Global, drives: &mut Drives, words: &[Bytes]) -> Result<String, OutOfMemory> {
    let Some(disk) = drives.disk.take() else {
        return told(alloc, "no disk");
    };
    match Follower::open(alloc, FuseDisk::new(disk, number(words, 1))) {
        Ok(mut follower) => {
            let given = answers(alloc, &mut follower, words);
            drives.disk = Some(follower.close().into_disk());
            given
        }
        Err((fuse, fault)) => {
            drives.disk = Some(fuse.into_disk());
            Ok(format!(in alloc; "{fault}")?)
        }
    }
}

// How many entries a file has as a replica, how many it then takes of a body, and whether that makes it the journal.
fn gone_on(alloc: Global, file: &[u8], body: &[u8], journal: &[u8]) -> Result<String, OutOfMemory> {
    let (had, taken, left) = match Follower::open(alloc, disk_of(alloc, file)?) {
        Ok(mut follower) => {
            let had = follower.wanted().saturating_sub(1);
            let taken = follower.take(alloc, body);
            (had, taken, follower.close().image(Choice::Old)?)
        }
        Err((_disk, fault)) => return Ok(format!(in alloc; "{fault}")?),
    };
    let told = if left.as_slice() == journal {
        ""
    } else {
        " other"
    };
    Ok(match taken {
        Ok(count) => format!(in alloc; "{had}+{count}{told}")?,
        Err(fault) => format!(in alloc; "{had} {fault}{told}")?,
    })
}

// The same of each image.
fn images(alloc: Global, drives: &Drives, words: &[Bytes]) -> Result<String, OutOfMemory> {
    let Some(disk) = &drives.disk else {
        return told(alloc, "no disk");
    };
    let mut shown = String::new(alloc);
    'images: for choice in CHOICES {
        if !shown.is_empty() {
            shown.push_str(", ")?;
        }
        let image = disk.image(choice)?;
        let given = gone_on(alloc, image.as_slice(), word(words, 1), word(words, 2))?;
        shown.push_str(given.as_str())?;
    }
    Ok(shown)
}

// What a replica with this file answers to a body.
fn cut(alloc: Global, file: &[u8], body: &[u8]) -> Result<String, OutOfMemory> {
    match Follower::open(alloc, disk_of(alloc, file)?) {
        Ok(mut follower) => answer(alloc, &mut follower, body),
        Err((_disk, fault)) => Ok(format!(in alloc; "{fault}")?),
    }
}

/// What a step gives.
pub fn given(alloc: Global, drives: &mut Drives, words: &[Bytes]) -> Result<String, OutOfMemory> {
    match word(words, 0) {
        b"take" => take(alloc, drives, words),
        b"images" => images(alloc, drives, words),
        b"cuts" => parts(alloc, word(words, 2), |alloc, part| {
            cut(alloc, word(words, 1), part)
        }),
        b"scarce" => scarce::given(alloc, words),
        _ => told(alloc, "no such call"),
    }
}
