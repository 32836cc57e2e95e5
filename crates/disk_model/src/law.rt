//! A law of every disk, by a worked run over it.
ghost use Rattle.std.specs.Prelude.{◌≡◌, ◌+◌, ◌<◌, ◌≤◌, length};
ghost use Rattle.disk_model.specs.View.{WhereTold, IsSynced, file_of};
ghost use Rattle.disk_model.specs.Marked.{AddsAndMarks};

use crate::disk::Disk;
use crate::through::write_through;
use exact_time::Failed;

/// Adds bytes at the end of a synced disk, syncs, sets one byte among them, and syncs. At every moment
/// of the call every image has the bytes of before where they were, and behind them any part of the new
/// bytes (`specs/Marked.antt`). It shows how a journal's commit goes: first the frame, then its gate.
pub fn add_and_mark<D: Disk>(
    disk: &mut D,
    end: u64,
    bytes: &[u8],
    at: u64,
    byte: u8,
) -> Result<(), Failed>
    requires end { WhereTold (D.view disk.old) (end ≡ length (file_of (D.view disk.old))) }
    requires synced { WhereTold (D.view disk.old) (IsSynced (D.view disk.old)) }
    requires among { (end ≤ at) × (at < end + length bytes.now) }
    ensures { AddsAndMarks bytes.now at byte (D.view disk.old) (D.view disk.new) result }
{
    write_through(disk, end, bytes)?;
    write_through(disk, at, &[byte])
}
