//! A disk that fails at one call of a commit.
use super::{Course, archive_file, entries_left, left_by};
use disk_model::Choice;
use std::alloc::Global;
use std::process::Abort;
use std::sync::Wait;
use std::test::Fail;
use std::thread::Threads;

// Both desks are stopped by a disk that fails at this call, and a crash would leave so many entries, at the images of
// before the last sync, of all that was written, and of three bytes in place of what may have changed.
fn check_stop(
    rt: &(impl Threads + Wait + Abort + Sync),
    alloc: Global,
    file: &[u8],
    call: u64,
    left: [u64; 5],
) -> Result<(), Fail> {
    let disk = left_by(rt, alloc, file, &[call], Course::BothAreStopped)?;
    let found = [
        entries_left(alloc, &disk, Choice::Old)?,
        entries_left(alloc, &disk, Choice::New)?,
        entries_left(alloc, &disk, Choice::Fill(0))?,
        entries_left(alloc, &disk, Choice::Fill(1))?,
        entries_left(alloc, &disk, Choice::Fill(255))?,
    ];
    assert_eq!(rt; found, left);
    Ok(())
}

// A start of three entries makes ten calls, so that a commit makes the next four: it writes the entry behind the closed
// gate, syncs, opens the gate, and syncs. Only an open gate, which is 1, lets the entry be read.
#[test]
fn a_stop_at_each_call_of_a_commit(rt: HostRuntime) -> Result<(), Fail> {
    let alloc = rt.alloc();
    let file = archive_file(&rt, alloc)?;
    let file = file.as_slice();
    check_stop(&rt, alloc, file, 11, [3, 3, 3, 3, 3])?;
    check_stop(&rt, alloc, file, 12, [3, 3, 3, 3, 3])?;
    check_stop(&rt, alloc, file, 13, [3, 3, 3, 4, 3])?;
    check_stop(&rt, alloc, file, 14, [3, 4, 3, 4, 3])?;
    Ok(())
}
