//! A disk in memory, which keeps each image that it had.
ghost use Rattle.std.specs.Prelude.{◌≡◌, [], ◌<◌, ◌≤◌, ◌^◌, ◌+◌, ◌-◌, true, length, IfOk, OnOk, OnErr, min, IsTrue, ◌↔◌};
ghost use Rattle.exact_time.specs.Causes.{Rose};
ghost use Rattle.disk_model.specs.Disk.{Gives, LeavesOnly};
ghost use Rattle.disk_model.specs.Sound.{IsReplayed, HasRoom, waiting};
ghost use Rattle.disk_model.specs.View.{is_told};

use crate::change::{Change, Step};
use crate::choice::Choice;
use crate::disk::Disk;
use crate::replay::{fill_free, put};
use exact_time::{Bytes, Failed, Many, OutOfMemory};
use std::alloc::Global;
use std::snapshot::Snapshot;

/// A disk in memory, which fails at the calls numbered in `fails`, from 1, and where a growth is
/// refused. It keeps what each call since it was made did to it (`specs/Calls.antt`).
#[derive(Drop)]
pub struct MemoryDisk {
    alloc: Global,
    // The file as it was given.
    first: Snapshot<Bytes>,
    // The file as it reads.
    current: Vec<u8>,
    // The file at the last sync.
    base: Bytes,
    // What was done to the file, with room for what the calls that are still to fail will leave.
    steps: Vec<Step>,
    // The place in the steps behind the last sync.
    since: usize,
    fails: Vec<u64>,
    calls: u64,
    moment: u64,
    faults: u64,
    ghost kept: { IsReplayed first.value current.items base steps.items since moment },
    ghost room: { HasRoom 0 steps calls fails.items },
}

impl MemoryDisk {
    ghost use Rattle.disk_model.specs.Choices.{IsImageFor};
    ghost use Rattle.disk_model.specs.Memory.{made_with, changes_of, content_of, state_of, images_now, faults_of, memory_view, calls_of, fails_of, IsSame, IsChanged, SameCount};
    ghost use Rattle.disk_model.specs.Calls.{is_to_fail, one_more};

    /// A disk with this file, all of it synced, which fails at these calls. It takes the room for what
    /// these will leave.
    pub fn new(alloc: Global, bytes: Bytes, fails: Many<u64>) -> Result<Self, OutOfMemory>
        ensures tells { IfOk result (λ disk. is_told (memory_view disk) ≡ true) }
        ensures content { IfOk result (λ disk. content_of disk ≡ bytes) }
        ensures synced { IfOk result (λ disk. LeavesOnly (images_now disk) bytes) }
        ensures faults { IfOk result (λ disk. faults_of disk ≡ 0) }
        ensures calls { IfOk result (λ disk. calls_of disk ≡ 0) }
        ensures fails { IfOk result (λ disk. fails_of disk ≡ fails) }
        ensures first { IfOk result (λ disk. made_with disk ≡ bytes) }
        ensures changes { IfOk result (λ disk. changes_of disk ≡ []) }
    {
        let current = bytes.as_slice().to_vec(alloc)?;
        let steps = Vec::with_capacity(alloc, fails.len())?;
        Ok(MemoryDisk {
            alloc,
            first: Snapshot::of(&bytes),
            current,
            base: bytes,
            steps,
            since: 0,
            fails: fails.into_vec(),
            calls: 0,
            moment: 0,
            faults: 0,
        })
    }

    /// An image of the present moment, copied. It costs no more than the file and the changes since the
    /// last sync.
    pub fn image(&self, choice: Choice) -> Result<Bytes, OutOfMemory>
        ensures image { IfOk result (images_now self.now) }
        ensures choice { IfOk result (IsImageFor (state_of self.now) choice) }
    {
        let mut image = Bytes::new(self.alloc);
        match choice {
            Choice::Old => image.extend(self.base.as_slice())?,
            Choice::New => image.extend(&self.current)?,
            Choice::Fill(byte) => {
                let mut copy = self.current.to_vec(self.alloc)?;
                let base = self.base.as_slice();
                fill_free(
                    base,
                    &self.steps[self.since..],
                    &self.current,
                    byte,
                    &mut copy,
                );
                image.extend(&copy)?;
            }
        }
        Ok(image)
    }

    // How much room one more step takes, with that of the calls that are still to fail.
    fn room(&self) -> usize
        ensures { waiting self.now.calls self.now.fails.items < result }
    {
        self.fails.len() + 1
    }

    // Counts a call, and says whether it is one of those that fail: its step has room then.
    fn is_failing(&mut self) -> bool
        ensures same { IsSame self.old self.new }
        ensures moment { self.new.moment ≡ self.old.moment }
        ensures faults { self.new.faults ≡ self.old.faults }
        ensures counted { calls_of self.new ≡ one_more (calls_of self.old) }
        ensures numbers { fails_of self.new ≡ fails_of self.old }
        ensures numbered { result ≡ is_to_fail self.old }
        ensures room { IsTrue result → HasRoom 1 self.new.steps self.new.calls self.new.fails.items }
    {
        let has_number = self.calls < u64::MAX;
        self.calls = self.calls.saturating_add(1);
        has_number && self.fails.contains(&self.calls)
    }

    // Lets time go on.
    fn pass(&mut self)
        ensures same { IsSame self.old self.new }
        ensures rises { Rose self.old.moment self.new.moment }
        ensures faults { self.new.faults ≡ self.old.faults }
        ensures count { SameCount self.old self.new }
    {
        self.moment = self.moment.saturating_add(1);
    }

    /// Fails, and counts it. Nothing else changes but the time.
    pub(crate) fn refuse(&mut self) -> Failed
        ensures same { IsSame self.old self.new }
        ensures rises { Rose self.old.moment self.new.moment }
        ensures faults { self.new.faults ≡ one_more self.old.faults }
        ensures no_fall { self.old.faults ≤ self.new.faults }
        ensures count { SameCount self.old self.new }
    {
        self.moment = self.moment.saturating_add(1);
        self.faults = self.faults.saturating_add(1);
        Failed
    }

    // Writes, and notes it.
    fn write(&mut self, at: usize, bytes: &[u8]) -> Result<(), OutOfMemory>
        requires inside { at ≤ length (content_of self.old) }
        requires time { self.old.moment < 2 ^ 64 - 1 }
        ensures ok { OnOk result (IsChanged (Change.Wrote at bytes.now) self.old self.new) }
        ensures err { OnErr result (IsSame self.old self.new) }
        ensures faults { self.new.faults ≡ self.old.faults }
        ensures count { SameCount self.old self.new }
    {
        let mut written = Bytes::new(self.alloc);
        written.extend(bytes)?;
        let room = self.room();
        self.steps.reserve(room)?;
        put(&mut self.current, at, bytes)?;
        self.moment += 1;
        let change = Change::Wrote { at, bytes: written };
        self.steps.push_reserved(Step {
            change,
            moment: self.moment,
        });
        Ok(())
    }

    // Notes a write of so many bytes that failed, for which there is room.
    fn tear(&mut self, at: usize, len: usize)
        requires inside { at ≤ length (content_of self.old) }
        requires time { self.old.moment < 2 ^ 64 - 1 }
        requires room { HasRoom 1 self.old.steps self.old.calls self.old.fails.items }
        ensures torn { IsChanged (Change.Tore at len) self.old self.new }
        ensures faults { self.new.faults ≡ self.old.faults }
        ensures count { SameCount self.old self.new }
    {
        self.moment += 1;
        self.steps.push_reserved(Step {
            change: Change::Tore { at, len },
            moment: self.moment,
        });
    }

    // Cuts the file, and notes it.
    fn shorten(&mut self, len: usize) -> Result<(), OutOfMemory>
        requires inside { len ≤ length (content_of self.old) }
        requires time { self.old.moment < 2 ^ 64 - 1 }
        ensures ok { OnOk result (IsChanged (Change.Cut len) self.old self.new) }
        ensures err { OnErr result (IsSame self.old self.new) }
        ensures faults { self.new.faults ≡ self.old.faults }
        ensures count { SameCount self.old self.new }
    {
        let room = self.room();
        self.steps.reserve(room)?;
        self.current.truncate(len);
        self.moment += 1;
        self.steps.push_reserved(Step {
            change: Change::Cut { len },
            moment: self.moment,
        });
        Ok(())
    }

    // Keeps the file as it reads as that of the last sync, and notes it.
    fn settle(&mut self) -> Result<(), OutOfMemory>
        requires { self.old.moment < 2 ^ 64 - 1 }
        ensures ok { OnOk result (IsChanged Change.Synced self.old self.new) }
        ensures err { OnErr result (IsSame self.old self.new) }
        ensures faults { self.new.faults ≡ self.old.faults }
        ensures count { SameCount self.old self.new }
    {
        let mut base = Bytes::new(self.alloc);
        base.extend(&self.current)?;
        let room = self.room();
        self.steps.reserve(room)?;
        self.base = base;
        self.moment += 1;
        self.steps.push_reserved(Step {
            change: Change::Synced,
            moment: self.moment,
        });
        self.since = self.steps.len();
        Ok(())
    }
}

// Whether a write of so many bytes would end past 2^63 - 1.
fn is_too_long(at: u64, len: usize) -> bool
    ensures { IsTrue result ↔ (2 ^ 63 ≤ at + len) }
{
    const LIMIT: u64 = 1 << 63;
    at >= LIMIT || len as u64 >= LIMIT - at
}

impl Disk for MemoryDisk {
    ghost use Rattle.disk_model.specs.Memory.{content_of, memory_view};
    ghost use Rattle.disk_model.specs.Calls.{ReadsOnly, Writes, Makes};
    ghost use Rattle.disk_model.specs.Effects.{ChangesNothing, WritesInto, ShortensTo, MakesDurable};
    ghost use Rattle.disk_model.specs.MemoryLaws.{memory_honest};

    ghost view = { memory_view };

    fn faults(&self) -> u64 {
        self.faults
    }

    fn len(&mut self) -> Result<u64, Failed>
        ensures call { ReadsOnly self.old self.new result }
        ensures bound { IfOk result (λ len. len < 2 ^ 63) }
        ensures length { IfOk result (λ len. len ≡ length (content_of self.old)) }
        ensures told { ChangesNothing (memory_view self.old) (memory_view self.new) result }
    {
        if self.is_failing() {
            Err(self.refuse())
        } else {
            self.pass();
            Ok(self.current.len() as u64)
        }
    }

    fn read(&mut self, at: u64, into: &mut [u8]) -> Result<usize, Failed>
        ensures call { ReadsOnly self.old self.new result }
        ensures bytes { IfOk result (λ count. Gives (content_of self.old) at count into.new) }
        ensures told { ChangesNothing (memory_view self.old) (memory_view self.new) result }
    {
        if self.is_failing() {
            return Err(self.refuse());
        }
        let count = give(&self.current, at, into);
        self.pass();
        Ok(count)
    }

    fn write_at(&mut self, at: u64, bytes: &[u8]) -> Result<(), Failed>
        requires { at ≤ length (content_of self.old) }
        ensures call { Writes at bytes.now self.old self.new result }
        ensures size { OnOk result (at + length bytes.now < 2 ^ 63) }
        ensures told { WritesInto at bytes.now (memory_view self.old) (memory_view self.new) result }
    {
        let is_failing = self.is_failing();
        if self.moment == u64::MAX || is_too_long(at, bytes.len()) {
            return Err(self.refuse());
        }
        if is_failing {
            self.tear(at as usize, bytes.len());
            return Err(self.refuse());
        }
        match self.write(at as usize, bytes) {
            Ok(()) => Ok(()),
            Err(OutOfMemory) => Err(self.refuse()),
        }
    }

    fn cut(&mut self, len: u64) -> Result<(), Failed>
        requires { len ≤ length (content_of self.old) }
        ensures call { Makes (Change.Cut len) self.old self.new result }
        ensures told { ShortensTo len (memory_view self.old) (memory_view self.new) result }
    {
        if self.is_failing() || self.moment == u64::MAX {
            return Err(self.refuse());
        }
        match self.shorten(len as usize) {
            Ok(()) => Ok(()),
            Err(OutOfMemory) => Err(self.refuse()),
        }
    }

    fn sync(&mut self) -> Result<(), Failed>
        ensures call { Makes Change.Synced self.old self.new result }
        ensures told { MakesDurable (memory_view self.old) (memory_view self.new) result }
    {
        if self.is_failing() || self.moment == u64::MAX {
            return Err(self.refuse());
        }
        match self.settle() {
            Ok(()) => Ok(()),
            Err(OutOfMemory) => Err(self.refuse()),
        }
    }

    ghost honest = { λ disk tells. memory_honest disk };
}

// Gives as many bytes as there are from `at` on, up to the slice.
fn give(file: &[u8], at: u64, into: &mut [u8]) -> usize
    ensures { Gives file.now at result into.new }
{
    if at >= file.len() as u64 {
        return 0;
    }
    let rest = &file[at as usize..];
    let count = rest.len().min(into.len());
    into[..count].copy_from_slice(&rest[..count]);
    count
}
