//! Archives over disks in memory: the founding entry, a second one, damage, and stops.
ghost use Rattle.disk_model.specs.View.{WhereTold};
ghost use Rattle.disk_model.specs.Fuse.{fuse_view};
ghost use Rattle.archive_state.specs.Admits.{IsAdmit};

use crate::disks::{CHOICES, Drives};
use crate::names::{copy, number, parts, text, told, word};
use archive_entry::{Entry, decode};
use archive_log::Archive;
use archive_state::Admit;
use disk_model::{FuseDisk, MemoryDisk};
use epochs::{is_ha1, is_user_name};
use exact_time::{Bytes, Many, OutOfMemory};
use std::alloc::Global;

// How many entries an archive has that opens from this file, or why it doesn't open.
fn outcome(alloc: Global, file: &[u8]) -> Result<String, OutOfMemory> {
    let disk = MemoryDisk::new(alloc, copy(alloc, file), Many::new(alloc))?;
    let count = match Archive::start(alloc, disk) {
        Ok((archive, _entries, _admit)) => Ok(archive.count()),
        Err((_disk, fault)) => Err(fault),
    };
    Ok(match count {
        Ok(count) => format!(in alloc; "{count}")?,
        Err(fault) => format!(in alloc; "{fault}")?,
    })
}

// The same of a replica's file.
fn replica(alloc: Global, file: &[u8]) -> Result<String, OutOfMemory> {
    let disk = MemoryDisk::new(alloc, copy(alloc, file), Many::new(alloc))?;
    let count = match Archive::open(alloc, disk) {
        Ok((archive, _entries, _admit)) => Ok(archive.count()),
        Err((_disk, fault)) => Err(fault),
    };
    Ok(match count {
        Ok(count) => format!(in alloc; "{count}")?,
        Err(fault) => format!(in alloc; "{fault}")?,
    })
}

// What each image opens as.
fn outcomes(alloc: Global, drives: &Drives) -> Result<String, OutOfMemory> {
    let mut shown = String::new(alloc);
    if let Some(disk) = &drives.disk {
        for choice in CHOICES {
            let image = disk.image(choice)?;
            if !shown.is_empty() {
                shown.push_str(", ")?;
            }
            shown.push_str(outcome(alloc, image.as_slice())?.as_str())?;
        }
    }
    Ok(shown)
}

// Adds the entry that a payload spells.
fn commit(
    alloc: Global,
    archive: &mut Archive<FuseDisk>,
    admit: &Admit,
    payload: &[u8],
) -> Result<String, OutOfMemory>
    requires { WhereTold (fuse_view archive.old.disk) (IsAdmit admit.now archive.old.history) }
{
    let Ok(entry) = decode(alloc, payload) else {
        return told(alloc, "no entry");
    };
    if !admit.next_lawful(&entry)? {
        return told(alloc, "not the next entry");
    }
    let frame = archive.prepare(alloc, &entry)?;
    let number = match archive.commit(entry, &frame) {
        Ok(entry) => Ok(entry.number),
        Err(fault) => Err(fault),
    };
    Ok(match number {
        Ok(number) => format!(in alloc; "{number}")?,
        Err(fault) => format!(in alloc; "{fault}")?,
    })
}

fn shown(alloc: Global, offset: u64, entry: &Entry) -> Result<String, OutOfMemory> {
    let number = entry.number;
    Ok(format!(in alloc; "{offset} {number} {}", entry.author.as_str())?)
}

// Reads entry n: its offset, its number and its author.
fn read(alloc: Global, archive: &mut Archive<FuseDisk>, n: u64) -> Result<String, OutOfMemory> {
    if n == 0 || n > archive.count() {
        return told(alloc, "none");
    }
    let offset = archive.offset(n);
    match archive.read(alloc, n) {
        Ok(entry) => shown(alloc, offset, &entry),
        Err(fault) => Ok(format!(in alloc; "{fault}")?),
    }
}

// What became of a commit, how many entries there are then, and whether one is in hand.
fn committed(
    alloc: Global,
    archive: &mut Archive<FuseDisk>,
    admit: &Admit,
    payload: &[u8],
) -> Result<String, OutOfMemory>
    requires { WhereTold (fuse_view archive.old.disk) (IsAdmit admit.now archive.old.history) }
{
    let made = commit(alloc, archive, admit, payload)?;
    let count = archive.count();
    let hand = archive.in_hand().map(|entry| entry.number);
    Ok(format!(in alloc; "{made}, {count} entries, {hand:?} in hand")?)
}

// Opens the archive that the disk's file is, behind a fuse that passes so many calls.
fn open(alloc: Global, drives: &mut Drives, words: &[Bytes]) -> Result<String, OutOfMemory> {
    let Some(disk) = drives.disk.take() else {
        return told(alloc, "no disk");
    };
    match Archive::start(alloc, FuseDisk::new(disk, number(words, 1))) {
        Ok((mut archive, entries, admit)) => {
            let given = match word(words, 0) {
                b"commit" => committed(alloc, &mut archive, &admit, word(words, 2)),
                b"read" => read(alloc, &mut archive, number(words, 2)),
                _ => counts(alloc, &archive, entries.len()),
            };
            drives.disk = Some(archive.close().into_disk());
            given
        }
        Err((fuse, fault)) => {
            drives.disk = Some(fuse.into_disk());
            Ok(format!(in alloc; "{fault}")?)
        }
    }
}

// How many entries there are, how many were read, and whether one is in hand.
fn counts(alloc: Global, archive: &Archive<FuseDisk>, read: usize) -> Result<String, OutOfMemory> {
    let count = archive.count();
    let hand = archive.in_hand().map(|entry| entry.number);
    Ok(format!(in alloc; "{count} entries, {read} read, {hand:?} in hand")?)
}

// Founds an archive in the disk's file.
fn found(alloc: Global, drives: &mut Drives, words: &[Bytes]) -> Result<String, OutOfMemory> {
    let operator = text(words, 2);
    let ha1 = text(words, 3);
    if !is_user_name(operator.as_bytes()) || !is_ha1(ha1.as_bytes()) {
        return told(alloc, "not an operator");
    }
    let Some(disk) = drives.disk.take() else {
        return told(alloc, "no disk");
    };
    match Archive::found(alloc, FuseDisk::new(disk, number(words, 1)), operator, ha1) {
        Ok(archive) => {
            let count = archive.count();
            drives.disk = Some(archive.close().into_disk());
            Ok(format!(in alloc; "{count}")?)
        }
        Err((fuse, fault)) => {
            drives.disk = Some(fuse.into_disk());
            Ok(format!(in alloc; "{fault}")?)
        }
    }
}

/// What a step gives.
pub fn given(alloc: Global, drives: &mut Drives, words: &[Bytes]) -> Result<String, OutOfMemory> {
    match word(words, 0) {
        b"file" => outcome(alloc, word(words, 1)),
        b"parts" => parts(alloc, word(words, 1), outcome),
        b"images" => outcomes(alloc, drives),
        b"replica" => replica(alloc, word(words, 1)),
        b"replica-parts" => parts(alloc, word(words, 1), replica),
        b"found" => found(alloc, drives, words),
        _ => open(alloc, drives, words),
    }
}
