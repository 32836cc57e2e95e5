//! A journal's bytes, its faults, and stops at each call of a commit.
use crate::disks::{CHOICES, Drives};
use crate::names::{copy, number, told, word};
use archive_journal::{Frame, Journal, ReadFault};
use case_lines::escaped;
use disk_model::{FuseDisk, MemoryDisk};
use exact_time::{Bytes, Many, OutOfMemory};
use std::alloc::Global;

type Open = Option<Journal<FuseDisk>>;

// Makes a journal in the disk's file, behind a fuse that passes so many calls.
fn init(
    alloc: Global,
    drives: &mut Drives,
    journal: &mut Open,
    calls: u64,
) -> Result<String, OutOfMemory> {
    let Some(disk) = drives.disk.take() else {
        return told(alloc, "no disk");
    };
    match Journal::init(alloc, FuseDisk::new(disk, calls)) {
        Ok(made) => {
            let count = made.count();
            *journal = Some(made);
            Ok(format!(in alloc; "{count}")?)
        }
        Err((fuse, fault)) => {
            drives.disk = Some(fuse.into_disk());
            Ok(format!(in alloc; "{fault}")?)
        }
    }
}

// Opens the journal that the disk's file is, behind a fuse that passes so many calls.
fn recover(
    alloc: Global,
    drives: &mut Drives,
    journal: &mut Open,
    calls: u64,
) -> Result<String, OutOfMemory> {
    let Some(disk) = drives.disk.take() else {
        return told(alloc, "no disk");
    };
    match Journal::recover(alloc, FuseDisk::new(disk, calls)) {
        Ok(found) => {
            let count = found.count();
            *journal = Some(found);
            Ok(format!(in alloc; "{count}")?)
        }
        Err((fuse, fault)) => {
            drives.disk = Some(fuse.into_disk());
            Ok(format!(in alloc; "{fault}")?)
        }
    }
}

// Reserves, and commits a payload.
fn add(
    alloc: Global,
    journal: &mut Journal<FuseDisk>,
    payload: &[u8],
) -> Result<String, OutOfMemory> {
    if payload.is_empty() || payload.len() > 2_097_152 {
        return told(alloc, "not sized");
    }
    journal.reserve()?;
    let done = journal.commit(&Frame::of(alloc, payload)?);
    Ok(match done {
        Ok(number) => format!(in alloc; "{number}")?,
        Err(fault) => format!(in alloc; "{fault}")?,
    })
}

// The offset and the bytes of payload n, if there is one.
fn payload(alloc: Global, journal: &mut Journal<FuseDisk>, n: u64) -> Result<String, OutOfMemory> {
    if n == 0 || n > journal.count() {
        return told(alloc, "none");
    }
    let offset = journal.offset(n);
    match journal.read_entry(n) {
        Ok(bytes) => {
            let shown = escaped(alloc, bytes.as_slice())?;
            Ok(format!(in alloc; "{offset} {shown}")?)
        }
        Err(fault) => Ok(format!(in alloc; "{fault}")?),
    }
}

// The disk of the journal.
fn close(drives: &mut Drives, journal: &mut Open) -> &'static str {
    match journal.take() {
        Some(journal) => {
            drives.disk = Some(journal.close().into_disk());
            "ok"
        }
        None => "no journal",
    }
}

// What recovery says of a file: how many payloads it has, or its fault.
fn outcome(alloc: Global, file: &[u8]) -> Result<String, OutOfMemory> {
    let disk = MemoryDisk::new(alloc, copy(alloc, file), Many::new(alloc))?;
    let count = match Journal::recover(alloc, disk) {
        Ok(journal) => Ok(journal.count()),
        Err((_disk, fault)) => Err(fault),
    };
    Ok(match count {
        Ok(count) => format!(in alloc; "{count}")?,
        Err(fault) => format!(in alloc; "{fault}")?,
    })
}

// What recovery says of each image.
fn outcomes(alloc: Global, drives: &Drives) -> Result<String, OutOfMemory> {
    let mut shown = String::new(alloc);
    if let Some(disk) = &drives.disk {
        for choice in CHOICES {
            let image = disk.image(choice)?;
            if !shown.is_empty() {
                shown.push_str(", ")?;
            }
            shown.push_str(outcome(alloc, image.as_slice())?.as_str())?;
        }
    }
    Ok(shown)
}

// A call on the open journal.
fn on_journal(
    alloc: Global,
    journal: &mut Journal<FuseDisk>,
    words: &[Bytes],
) -> Result<String, OutOfMemory> {
    match word(words, 0) {
        b"count" => Ok(format!(in alloc; "{}", journal.count())?),
        b"add" => add(alloc, journal, word(words, 1)),
        b"payload" => payload(alloc, journal, number(words, 1)),
        _ => told(alloc, "no such call"),
    }
}

/// What a step gives.
pub fn given(
    alloc: Global,
    drives: &mut Drives,
    journal: &mut Open,
    words: &[Bytes],
) -> Result<String, OutOfMemory> {
    match word(words, 0) {
        b"file" => outcome(alloc, word(words, 1)),
        b"images" => outcomes(alloc, drives),
        b"init" => init(alloc, drives, journal, number(words, 1)),
        b"recover" => recover(alloc, drives, journal, number(words, 1)),
        b"close" => told(alloc, close(drives, journal)),
        b"fault" => Ok(format!(in alloc; "{}", ReadFault::OutOfMemory)?),
        _ => match journal {
            Some(journal) => on_journal(alloc, journal, words),
            None => told(alloc, "no journal"),
        },
    }
}
