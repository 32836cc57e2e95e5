//! Finds the frames of a file that a crash may have left, by reading alone.
ghost use Rattle.std.specs.Prelude.{◌≡◌, ◌+◌, ◌^◌, ◌<◌, ◌≤◌, ℕ, List, length, take, drop, IfOk, IfErr, IfSome, MatchResult, IsErrOf};
ghost use Rattle.disk_model.specs.View.{WhereTold, file_of};
ghost use Rattle.disk_model.specs.Effects.{OnlyReads, WritesNothing};
ghost use Rattle.archive_journal.specs.Recovery.{IsNext, IsFound, Explains, HasMagic, IsSyncedUnlessFailed};

use crate::fault::RecoverFault;
use crate::frame::{LIMIT, MAGIC, OPEN};
use disk_model::Disk;
use std::alloc::Global;

// Where the gates stand in a file.
#[derive(Drop)]
pub(crate) struct Found {
    // The offset of each payload's gate.
    pub(crate) offsets: Vec<u64>,
    // The offset of the closed gate behind them.
    pub(crate) end: u64,
}

// What the first bytes at a gate say, up to 5, in a file of `len` bytes: the next gate's offset behind a
// whole open frame, None at a closed gate, or that the file is damaged here.
fn next_gate(head: &[u8], at: u64, len: u64) -> Result<Option<u64>, RecoverFault>
    requires { at < 2 ^ 63 }
    ensures next { (file : List ℕ) → head.now ≡ take 5 (drop at file) → len ≡ length file → IsNext (drop at file) at result }
    ensures bound { IfOk result (λ next. IfSome next (λ next. (at < next) × (next ≤ len))) }
    ensures damaged { IfErr result (λ fault. fault ≡ RecoverFault.Damaged at) }
{
    if head.is_empty() {
        return Err(RecoverFault::Damaged(at));
    }
    if head[0] != OPEN {
        return Ok(None);
    }
    if head.len() < 5 {
        return Err(RecoverFault::Damaged(at));
    }
    let size = u32::from_be_bytes([head[1], head[2], head[3], head[4]]);
    let next = at + 5 + size as u64;
    if size == 0 || size > LIMIT || next > len {
        return Err(RecoverFault::Damaged(at));
    }
    Ok(Some(next))
}

// Reads what stands at a gate.
fn read_gate<D: Disk>(disk: &mut D, at: u64, len: u64) -> Result<Option<u64>, RecoverFault>
    requires { at < 2 ^ 63 }
    ensures next { WhereTold (D.view disk.old) (len ≡ length (file_of (D.view disk.old)) → IsNext (drop at (file_of (D.view disk.old))) at result) }
    ensures bound { IfOk result (λ next. IfSome next (λ next. (at < next) × (next ≤ len))) }
    ensures read { OnlyReads (D.view disk.old) (D.view disk.new) (IsErrOf result RecoverFault.DiskFault) }
{
    let mut head = [0; 5];
    let count = disk.read(at, &mut head)?;
    next_gate(&head[..count], at, len)
}

// Tests the magic, and that there is a gate behind it.
fn check_magic<D: Disk>(disk: &mut D) -> Result<(), RecoverFault>
    ensures magic { WhereTold (D.view disk.old) (MatchResult result (λ _. HasMagic (file_of (D.view disk.old))) (Explains (file_of (D.view disk.old)))) }
    ensures read { OnlyReads (D.view disk.old) (D.view disk.new) (IsErrOf result RecoverFault.DiskFault) }
{
    let mut head = [0; 17];
    let count = disk.read(0, &mut head)?;
    if count < head.len() || !head.starts_with(&MAGIC) {
        return Err(RecoverFault::NotAJournal);
    }
    Ok(())
}

// Goes from gate to gate up to the first that is closed, in a file of `len` bytes with the magic.
fn walk<D: Disk>(alloc: Global, disk: &mut D, len: u64) -> Result<Found, RecoverFault>
    requires len { (len < 2 ^ 63) × WhereTold (D.view disk.old) (len ≡ length (file_of (D.view disk.old))) }
    requires magic { WhereTold (D.view disk.old) (HasMagic (file_of (D.view disk.old))) }
    ensures bound { IfOk result (λ found. found.end < 2 ^ 63) }
    ensures found { WhereTold (D.view disk.old)
        (MatchResult result (λ found. IsFound (file_of (D.view disk.old)) found.offsets.items found.end) (Explains (file_of (D.view disk.old)))) }
    ensures read { OnlyReads (D.view disk.old) (D.view disk.new) (IsErrOf result RecoverFault.DiskFault) }
{
    let mut offsets = Vec::new(alloc);
    let mut at = MAGIC.len() as u64;
    'gates: while let Some(next) = read_gate(disk, at, len)? {
        offsets.push(at)?;
        at = next;
    }
    Ok(Found { offsets, end: at })
}

// Syncs, and then finds the frames: unless the disk failed, what is read is on the disk, also where it is
// no journal.
pub(crate) fn find_frames<D: Disk>(alloc: Global, disk: &mut D) -> Result<Found, RecoverFault>
    ensures bound { IfOk result (λ found. found.end < 2 ^ 63) }
    ensures found { WhereTold (D.view disk.old)
        (MatchResult result (λ found. IsFound (file_of (D.view disk.old)) found.offsets.items found.end) (Explains (file_of (D.view disk.old)))) }
    ensures synced { WhereTold (D.view disk.old) (IsSyncedUnlessFailed (D.view disk.new) (file_of (D.view disk.old)) result) }
    ensures disk { WritesNothing (D.view disk.old) (D.view disk.new) (IsErrOf result RecoverFault.DiskFault) }
{
    disk.sync()?;
    let len = disk.len()?;
    check_magic(disk)?;
    walk(alloc, disk, len)
}
