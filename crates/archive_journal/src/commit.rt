//! The writes of a journal.
ghost use Rattle.std.specs.Prelude.{◌+◌, ◌^◌, ◌<◌, ◌++◌, ◌∷◌, [], length, OnOk};
ghost use Rattle.disk_model.specs.Disk.{Torn};
ghost use Rattle.disk_model.specs.View.{WhereTold, IsSynced, DiskRun, file_of};
ghost use Rattle.disk_model.specs.Effects.{WritesThrough};
ghost use Rattle.archive_journal.specs.Frames.{magic, open_gate, closed_gate, body_of, IsSized};
ghost use Rattle.archive_journal.specs.Writing.{MakesEmpty, AddsFrame};

use crate::fault::InitFault;
use crate::frame::{Frame, OPEN};
use disk_model::{Disk, write_through};
use exact_time::Failed;

// The file of a journal without payloads: the magic, and a closed gate.
const EMPTY: [u8; 17] = *b"FDSNARCHIVE-0001\0";

// Tests that the file is empty, and writes an empty journal.
pub(crate) fn begin<D: Disk>(disk: &mut D) -> Result<(), InitFault>
    ensures { MakesEmpty (D.view disk.old) (D.view disk.new) result }
{
    let len = disk.len()?;
    if len != 0 {
        return Err(InitFault::NotEmpty(len));
    }
    disk.write_at(0, &EMPTY)?;
    disk.sync()?;
    Ok(())
}

// Writes a frame behind its closed gate, with the next closed gate, and syncs.
fn bring<D: Disk>(disk: &mut D, gate: u64, frame: &Frame) -> Result<(), Failed>
    requires inside { WhereTold (D.view disk.old) (gate < length (file_of (D.view disk.old))) }
    requires fits { gate < 2 ^ 63 }
    requires synced { WhereTold (D.view disk.old) (IsSynced (D.view disk.old)) }
    ensures sized { IsSized frame.now }
    ensures size { OnOk result (gate + 6 + length frame.now < 2 ^ 63) }
    ensures call { WritesThrough (gate + 1) (body_of frame.now ++ closed_gate ∷ []) (D.view disk.old) (D.view disk.new) result }
{
    write_through(disk, gate + 1, frame.as_slice())
}

// Opens a gate, and syncs.
fn open<D: Disk>(disk: &mut D, gate: u64) -> Result<(), Failed>
    requires inside { WhereTold (D.view disk.old) (gate < length (file_of (D.view disk.old))) }
    requires synced { WhereTold (D.view disk.old) (IsSynced (D.view disk.old)) }
    ensures { WritesThrough gate (open_gate ∷ []) (D.view disk.old) (D.view disk.new) result }
{
    write_through(disk, gate, &[OPEN])
}

// Adds a frame to a journal whose closed gate is at `gate`, in four calls: writes the frame and the next
// closed gate, syncs, opens the gate, syncs. Before the gate is opened all that it will show is on the
// disk; so at every moment every image is a journal of the payloads of before, or of these and the
// frame's.
pub(crate) fn add_frame<D: Disk>(disk: &mut D, gate: u64, frame: &Frame) -> Result<(), Failed>
    requires inside { WhereTold (D.view disk.old) (gate < length (file_of (D.view disk.old))) }
    requires fits { gate < 2 ^ 63 }
    requires synced { WhereTold (D.view disk.old) (IsSynced (D.view disk.old)) }
    ensures sized { IsSized frame.now }
    ensures size { OnOk result (gate + 6 + length frame.now < 2 ^ 63) }
    ensures call { AddsFrame gate frame.now (D.view disk.old) (D.view disk.new) result }
{
    bring(disk, gate, frame)?;
    open(disk, gate)
}
