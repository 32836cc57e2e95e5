//! A journal over a real file.

use archive_journal::{Frame, Journal};
use disk_model::{Disk, FileDisk};
use exact_time::OutOfMemory;
use std::alloc::Global;
use std::fs;
use std::test::Fail;

const FOLDER: &str = "archive_journal_test";

const PATH: &str = "archive_journal_test/journal";

const COMMITS: u64 = 1000;

fn file_disk<R: fs::Files<File = fs::File> + Drop>(
    files: R,
    alloc: Global,
    may_make: bool,
) -> Result<FileDisk<R>, OutOfMemory> {
    let path = String::from_str(alloc, PATH)?;
    Ok(FileDisk::new(files, Some(path), may_make))
}

// Commits a number as its eight bytes.
fn commit_number<D: Disk>(
    alloc: Global,
    journal: &mut Journal<D>,
    number: u64,
) -> Result<Option<u64>, OutOfMemory> {
    journal.reserve()?;
    Ok(
        journal
            .commit(&Frame::of(alloc, &number.to_be_bytes())?)
            .ok(),
    )
}

// Commits each number, and says whether each was the next payload.
fn commit_numbers<D: Disk>(alloc: Global, journal: &mut Journal<D>) -> bool {
    for number in 0..COMMITS {
        if commit_number(alloc, journal, number) != Ok(Some(number + 1)) {
            return false;
        }
    }
    true
}

fn is_number<D: Disk>(journal: &mut Journal<D>, number: u64) -> bool {
    if number >= journal.count() {
        return false;
    }
    match journal.read_entry(number + 1) {
        Ok(payload) => payload.as_slice() == number.to_be_bytes().as_slice(),
        Err(_) => false,
    }
}

// Whether the payloads are these numbers.
fn has_numbers<D: Disk>(journal: &mut Journal<D>) -> bool {
    for number in 0..COMMITS {
        if !is_number(journal, number) {
            return false;
        }
    }
    journal.count() == COMMITS
}

#[test]
fn keeps_a_thousand_commits(rt: HostRuntime) -> Result<(), Fail> {
    let _ = fs::remove_dir_all(&rt, FOLDER);
    fs::create_dir(&rt, FOLDER)?;
    match Journal::init(rt.alloc(), file_disk(&rt, rt.alloc(), true)?) {
        Ok(mut journal) => assert!(rt; commit_numbers(rt.alloc(), &mut journal)),
        Err((_disk, fault)) => assert!(rt; false, "{fault}"),
    }
    match Journal::recover(rt.alloc(), file_disk(&rt, rt.alloc(), false)?) {
        Ok(mut journal) => assert!(rt; has_numbers(&mut journal)),
        Err((_disk, fault)) => assert!(rt; false, "{fault}"),
    }
    // The magic, a frame of 13 bytes for each number, and the closed gate.
    assert_eq!(rt; fs::read(&rt, PATH)?.len() as u64, 16 + COMMITS * 13 + 1);
    fs::remove_dir_all(&rt, FOLDER)?;
    Ok(())
}
