//! A write that is on the disk once it answers.
ghost use Rattle.std.specs.Prelude.{◌+◌, ◌^◌, ◌<◌, ◌≤◌, length, OnOk};
ghost use Rattle.disk_model.specs.View.{WhereTold, IsSynced, file_of};
ghost use Rattle.disk_model.specs.Effects.{WritesThrough};

use crate::disk::Disk;
use exact_time::Failed;

/// Writes and syncs. On a synced disk every image, at every moment of the call, is the file of before,
/// torn in the range that is written; after Ok the one image is the file with the bytes.
pub fn write_through<D: Disk>(disk: &mut D, at: u64, bytes: &[u8]) -> Result<(), Failed>
    requires inside { WhereTold (D.view disk.old) (at ≤ length (file_of (D.view disk.old))) }
    requires synced { WhereTold (D.view disk.old) (IsSynced (D.view disk.old)) }
    ensures size { OnOk result (at + length bytes.now < 2 ^ 63) }
    ensures call { WritesThrough at bytes.now (D.view disk.old) (D.view disk.new) result }
{
    disk.write_at(at, bytes)?;
    disk.sync()
}
