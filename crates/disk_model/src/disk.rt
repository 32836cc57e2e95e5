//! A disk: what a read gives, and what a crash may leave.
ghost use Rattle.std.specs.Prelude.{◌≡◌, ◌+◌, ◌^◌, ◌<◌, ◌≤◌, length, OnOk, IfOk};
ghost use Rattle.disk_model.specs.Disk.{Gives};
ghost use Rattle.disk_model.specs.View.{DiskView, WhereTold, IsHonest, file_of};
ghost use Rattle.disk_model.specs.Effects.{ChangesNothing, WritesInto, ShortensTo, MakesDurable};

use exact_time::Failed;

/// One file on a disk that may crash at any moment, during a call or between two.
///
/// Since the last sync each byte that was written, and each byte past the length at that sync, may be
/// any byte in what a crash leaves, or be missing at the end; all others are as at that sync. After a
/// sync that succeeds a crash leaves what a read gives.
///
/// What is said of the file, its images and the time is said of a disk that tells. Such a disk is
/// honest: each call keeps it so, and a disk that is honest after a call was honest before it. What each
/// call does to what is told is one relation of `specs/Effects.antt`.
pub trait Disk {
    /// What is told of the disk (`specs/View.antt`). A real file tells nothing but its faults.
    ghost view: { Self → DiskView };

    /// How often the disk has failed.
    fn faults(&self) -> u64
        ensures { result ≡ (view self.now).faults };

    /// The length of the file in bytes, at most 2^63 - 1.
    fn len(&mut self) -> Result<u64, Failed>
        ensures bound { IfOk result (λ len. len < 2 ^ 63) }
        ensures length { WhereTold (view self.old) (IfOk result (λ len. len ≡ length (file_of (view self.old)))) }
        ensures call { ChangesNothing (view self.old) (view self.new) result };

    /// Gives as many bytes as there are from the offset `at` on, up to the slice.
    fn read(&mut self, at: u64, into: &mut [u8]) -> Result<usize, Failed>
        ensures bound { IfOk result (λ count. count ≤ length into.new) }
        ensures bytes { WhereTold (view self.old) (IfOk result (λ count. Gives (file_of (view self.old)) at count into.new)) }
        ensures call { ChangesNothing (view self.old) (view self.new) result };

    /// Writes from the offset `at` on, which is at most the length, over what is there and past the
    /// end, no further than 2^63 - 1. Until a sync, a crash may leave any bytes in the range. A write that
    /// fails may have done any part of it.
    fn write_at(&mut self, at: u64, bytes: &[u8]) -> Result<(), Failed>
        requires { WhereTold (view self.old) (at ≤ length (file_of (view self.old))) }
        ensures size { OnOk result (at + length bytes.now < 2 ^ 63) }
        ensures call { WritesInto at bytes.now (view self.old) (view self.new) result };

    /// Cuts the file to its first `len` bytes, which is at most its length. Until a sync, a crash may
    /// leave it longer. A cut that fails may have done any part of it.
    fn cut(&mut self, len: u64) -> Result<(), Failed>
        requires { WhereTold (view self.old) (len ≤ length (file_of (view self.old))) }
        ensures { ShortensTo len (view self.old) (view self.new) result };

    /// After it, a crash leaves what a read gives. A sync that fails leaves the images as they were, or
    /// fewer.
    fn sync(&mut self) -> Result<(), Failed>
        ensures { MakesDurable (view self.old) (view self.new) result };

    /// What is told is honest (`specs/View.antt`).
    ghost honest: { (disk : Self) → WhereTold (view disk) (IsHonest (view disk)) };
}
