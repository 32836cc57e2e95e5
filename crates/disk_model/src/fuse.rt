//! A disk that stops after so many calls.
ghost use Rattle.std.specs.Prelude.{◌≡◌, ◌+◌, ◌-◌, ◌^◌, ◌<◌, ◌≤◌, ◌↔◌, length, OnOk, IfOk, IsTrue};
ghost use Rattle.disk_model.specs.Disk.{Gives};

use crate::change::Change;
use crate::disk::Disk;
use crate::memory::MemoryDisk;
use exact_time::Failed;

/// Passes so many calls of a disk in memory, which go as they would without a fuse, and then fails every
/// call, as where the machine stops: no later call reaches the disk.
#[derive(Drop)]
pub struct FuseDisk {
    disk: MemoryDisk,
    left: u64,
}

impl FuseDisk {
    ghost use Rattle.disk_model.specs.Fuse.{disk_of, calls_left};

    /// A fuse before this disk, which passes so many calls.
    pub fn new(disk: MemoryDisk, calls: u64) -> Self
        ensures disk { disk_of result ≡ disk }
        ensures calls { calls_left result ≡ calls }
    {
        FuseDisk { disk, left: calls }
    }

    /// The disk behind the fuse.
    pub fn into_disk(self) -> MemoryDisk
        ensures { result ≡ disk_of self }
    {
        self.disk
    }

    // Whether a call passes, which uses it up.
    fn passes(&mut self) -> bool
        ensures passes { IsTrue result ↔ (0 < calls_left self.old) }
        ensures left { calls_left self.new ≡ calls_left self.old - 1 }
        ensures disk { disk_of self.new ≡ disk_of self.old }
    {
        let passes = self.left > 0;
        self.left = self.left.saturating_sub(1);
        passes
    }
}

impl Disk for FuseDisk {
    ghost use Rattle.disk_model.specs.MemoryLaws.{memory_honest};
    ghost use Rattle.disk_model.specs.Memory.{content_of};
    ghost use Rattle.disk_model.specs.Calls.{ReadsOnly, Writes, Makes};
    ghost use Rattle.disk_model.specs.Effects.{ChangesNothing, WritesInto, ShortensTo, MakesDurable};
    ghost use Rattle.disk_model.specs.Fuse.{disk_of, fuse_view, Burns};

    ghost view = { fuse_view };

    fn faults(&self) -> u64 {
        self.disk.faults()
    }

    fn len(&mut self) -> Result<u64, Failed>
        ensures fuse { Burns ReadsOnly self.old self.new result }
        ensures bound { IfOk result (λ len. len < 2 ^ 63) }
        ensures length { IfOk result (λ len. len ≡ length (content_of (disk_of self.old))) }
        ensures told { ChangesNothing (fuse_view self.old) (fuse_view self.new) result }
    {
        if self.passes() {
            self.disk.len()
        } else {
            Err(self.disk.refuse())
        }
    }

    fn read(&mut self, at: u64, into: &mut [u8]) -> Result<usize, Failed>
        ensures fuse { Burns ReadsOnly self.old self.new result }
        ensures bytes { IfOk result (λ count. Gives (content_of (disk_of self.old)) at count into.new) }
        ensures told { ChangesNothing (fuse_view self.old) (fuse_view self.new) result }
    {
        if self.passes() {
            self.disk.read(at, into)
        } else {
            Err(self.disk.refuse())
        }
    }

    fn write_at(&mut self, at: u64, bytes: &[u8]) -> Result<(), Failed>
        requires { at ≤ length (content_of (disk_of self.old)) }
        ensures fuse { Burns (Writes at bytes.now) self.old self.new result }
        ensures size { OnOk result (at + length bytes.now < 2 ^ 63) }
        ensures told { WritesInto at bytes.now (fuse_view self.old) (fuse_view self.new) result }
    {
        if self.passes() {
            self.disk.write_at(at, bytes)
        } else {
            Err(self.disk.refuse())
        }
    }

    fn cut(&mut self, len: u64) -> Result<(), Failed>
        requires { len ≤ length (content_of (disk_of self.old)) }
        ensures fuse { Burns (Makes (Change.Cut len)) self.old self.new result }
        ensures told { ShortensTo len (fuse_view self.old) (fuse_view self.new) result }
    {
        if self.passes() {
            self.disk.cut(len)
        } else {
            Err(self.disk.refuse())
        }
    }

    fn sync(&mut self) -> Result<(), Failed>
        ensures fuse { Burns (Makes Change.Synced) self.old self.new result }
        ensures told { MakesDurable (fuse_view self.old) (fuse_view self.new) result }
    {
        if self.passes() {
            self.disk.sync()
        } else {
            Err(self.disk.refuse())
        }
    }

    ghost honest = { λ fuse tells. memory_honest fuse.disk };
}
