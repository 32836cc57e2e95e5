//! An open journal.
ghost use Rattle.std.specs.Prelude.{◌≡◌, ◌⊎◌, ◌+◌, ◌-◌, ◌^◌, ◌<◌, ◌≤◌, [], true, false, length, take, drop, Some, slice_get, IfOk, IfErr, OnOk, OnErr, IsErr, IsErrOf};
ghost use Rattle.exact_time.specs.Causes.{Rose};
ghost use Rattle.disk_model.specs.View.{WhereTold, DiskRun, file_of};
ghost use Rattle.disk_model.specs.Effects.{OnlyReads, WritesNothing};
ghost use Rattle.archive_journal.specs.Frames.{reading_of, Holds};

use crate::commit::{add_frame, begin};
use crate::fault::{DiskFault, InitFault, ReadFault, RecoverFault};
use crate::frame::{Frame, MAGIC};
use crate::recover::find_frames;
use crate::room::Room;
use disk_model::Disk;
use exact_time::{Bytes, OutOfMemory};
use std::alloc::Global;
use std::marker::Model;

/// A journal over a disk: payloads, one after another, to which a commit adds one.
#[derive(Drop)]
pub struct Journal<D: Disk> {
    disk: D,
    // The offset of each payload's gate.
    offsets: Vec<u64>,
    // The offset of the closed gate behind them.
    end: u64,
    // Whether a commit failed.
    stopped: bool,
    // How often the disk had failed when it was opened.
    faults: u64,
}

impl<D: Disk> Model for Journal<D> {
    ghost use Rattle.std.specs.Prelude.{◌-◌, length};
    ghost use Rattle.std.specs.Vec.{vec_len, vec_capacity};
    ghost use Rattle.disk_model.specs.View.{file_of};
    ghost use Rattle.archive_journal.specs.Journal.{Opened, IsOpenJournal, first_payloads};

    ghost Value = { Opened D };

    ghost view = { λ j. record {
      disk = j.disk;
      payloads = first_payloads (length j.offsets.items) (file_of (D.view j.disk));
      count = length j.offsets.items;
      spare = vec_capacity j.offsets - vec_len j.offsets;
      stopped = j.stopped;
      faults = j.faults;
    } };

    ghost invariant = { λ j. IsOpenJournal (D.view j.disk) j.faults j.offsets.items j.end j.stopped };
}

impl<D: Disk> Journal<D> {
    ghost use Rattle.archive_journal.specs.Faults.{ExplainsRecover};
    ghost use Rattle.archive_journal.specs.Journal.{Keeps, WasRead, IsCommit, disk_in, outcome_in, gate_of};
    ghost use Rattle.archive_journal.specs.Recovery.{IsSyncedUnlessFailed};
    ghost use Rattle.archive_journal.specs.Writing.{MakesEmpty};

    /// Makes a journal without payloads in an empty file. After `NotEmpty`, which gives the file's length,
    /// the file reads as before; after `DiskFault` it may have any part of the first 17 bytes. Takes no
    /// memory.
    pub fn init(alloc: Global, disk: D) -> Result<Journal<D>, (D, InitFault)>
        ensures disk { MakesEmpty (D.view disk) (D.view (disk_in result)) (outcome_in result) }
        ensures payloads { WhereTold (D.view disk) (IfOk result (λ j. (j.payloads ≡ []) × Holds [] (file_of (D.view j.disk)))) }
        ensures opened { IfOk result (λ j. (j.count ≡ 0) × (j.stopped ≡ false) × (j.faults ≡ (D.view j.disk).faults)) }
    {
        Journal::init_with(Room::none(alloc), disk)
    }

    /// The same, with room for as many payloads as were reserved before the file was touched.
    pub fn init_with(room: Room, mut disk: D) -> Result<Journal<D>, (D, InitFault)>
        ensures disk { MakesEmpty (D.view disk) (D.view (disk_in result)) (outcome_in result) }
        ensures payloads { WhereTold (D.view disk) (IfOk result (λ j. (j.payloads ≡ []) × Holds [] (file_of (D.view j.disk)))) }
        ensures opened { IfOk result (λ j. (j.count ≡ 0) × (j.stopped ≡ false) × (j.faults ≡ (D.view j.disk).faults)) }
        ensures room { IfOk result (λ j. j.spare ≡ room) }
    {
        match begin(&mut disk) {
            Ok(()) => Ok(Journal {
                faults: disk.faults(),
                disk,
                offsets: room.offsets,
                end: MAGIC.len() as u64,
                stopped: false,
            }),
            Err(fault) => Err((disk, fault)),
        }
    }

    /// Opens the journal that a file is, after a crash too. It begins with a sync, so that what it says of
    /// the file stays so: after every answer but `DiskFault` a crash leaves what a read gives, also where
    /// that is refused. It gives the disk no write and no cut: the disk reads as before. A file with fewer
    /// than 17 bytes or another magic is `NotAJournal`; else the payloads are those of the frames up to the
    /// first closed gate, and a gate that is missing, or is open before a length of 0, over the limit or
    /// past the end of the file, is `Damaged` at its offset.
    pub fn recover(alloc: Global, mut disk: D) -> Result<Journal<D>, (D, RecoverFault)>
        ensures payloads { WhereTold (D.view disk) (IfOk result (λ j. Holds j.payloads (file_of (D.view disk)))) }
        // Unless the disk failed, each image is what a read gives, also where that is no journal.
        ensures synced { WhereTold (D.view disk) (IsSyncedUnlessFailed (D.view (disk_in result)) (file_of (D.view disk)) (outcome_in result)) }
        ensures opened { IfOk result (λ j. (j.stopped ≡ false) × (j.faults ≡ (D.view j.disk).faults)) }

        ensures fault { WhereTold (D.view disk) (IfErr (outcome_in result) (ExplainsRecover (reading_of (file_of (D.view disk))))) }
        // At every moment of the call, every image is one that was there before.
        ensures disk { WritesNothing (D.view disk) (D.view (disk_in result)) (IsErrOf (outcome_in result) RecoverFault.DiskFault) }
    {
        match find_frames(alloc, &mut disk) {
            Ok(found) => Ok(Journal {
                faults: disk.faults(),
                disk,
                offsets: found.offsets,
                end: found.end,
                stopped: false,
            }),
            Err(fault) => Err((disk, fault)),
        }
    }

    /// The number of payloads.
    pub fn count(&self) -> u64
        ensures count { result ≡ self.now.count }
        ensures bound { result < 2 ^ 60 }
        ensures kept { WhereTold (D.view self.now.disk) (Keeps D.view self.now) }
        ensures cause { self.now.stopped ≡ true → Rose self.now.faults (D.view self.now.disk).faults }
    {
        self.offsets.as_slice().len() as u64
    }

    /// The offset of the gate of payload `n`, from 1 to the number of payloads.
    pub fn offset(&self, n: u64) -> u64
        requires { (1 ≤ n) × (n ≤ self.now.count) }
        ensures { WhereTold (D.view self.now.disk) (result ≡ gate_of self.now.payloads n) }
    {
        self.offsets[n as usize - 1]
    }

    /// Takes the memory for a commit.
    pub fn reserve(&mut self) -> Result<(), OutOfMemory>
        ensures room { OnOk result (0 < self.new.spare) }
        ensures same { self.new ≡ record self.old { spare = self.new.spare } }
        ensures err { OnErr result (self.new ≡ self.old) }
    {
        self.offsets.reserve(1)?;
        Ok(())
    }

    /// Adds the frame's payload, and answers its number. It gives the disk four calls: it writes the frame
    /// and the next closed gate, syncs, opens the frame's gate, and syncs. After `DiskFault` every further
    /// commit answers so, without a call on the disk: recover the journal again. It takes no memory; after
    /// Ok it has used up the room for one.
    pub fn commit(&mut self, frame: &Frame) -> Result<u64, DiskFault>
        requires { 0 < self.old.spare }
        ensures refused { self.old.stopped ≡ true → IsErr result × (self.new ≡ self.old) }
        // Over a disk that tells: which images there are at every moment, and after it.
        ensures disk { DiskRun (D.view self.old.disk) (D.view self.new.disk) (IsErr result × (self.old.stopped ≡ false))
            (IsCommit D.view frame.now self.old self.new result) }
        ensures number { IfOk result (λ n. n ≡ self.new.count) }
        ensures ok { OnOk result (self.new ≡ record self.old {
          disk = self.new.disk;
          payloads = self.new.payloads;
          count = self.old.count + 1;
          spare = self.old.spare - 1;
        }) }

        ensures err { OnErr result (self.new ≡ record self.old {
          disk = self.new.disk;
          payloads = self.new.payloads;
          stopped = true;
        }) }
        ensures cause { OnErr result (Rose (D.view self.old.disk).faults (D.view self.new.disk).faults
            ⊎ Rose self.old.faults (D.view self.old.disk).faults) }
    {
        if self.stopped {
            return Err(DiskFault);
        }
        self.stopped = true;
        add_frame(&mut self.disk, self.end, frame)?;
        self.offsets.push_reserved(self.end);
        self.end += frame.size();
        self.stopped = false;
        Ok(self.offsets.len() as u64)
    }

    /// Reads payload `n`, from 1 to the number of payloads.
    pub fn read_entry(&mut self, n: u64) -> Result<Bytes, ReadFault>
        requires { (1 ≤ n) × (n ≤ self.old.count) }
        ensures payload { WhereTold (D.view self.old.disk) (IfOk result (λ bytes. slice_get self.old.payloads (n - 1) ≡ Some bytes)) }
        ensures read { WasRead D.view self.old self.new (IsErrOf result ReadFault.DiskFault) }
    {
        let mut buffer = Vec::new(*self.offsets.allocator());
        self.read_entry_into(n, &mut buffer)?;
        Ok(Bytes::from_vec(buffer))
    }

    /// Reads payload `n`, from 1 to the number of payloads, into a buffer, in place of what that holds. A buffer that
    /// serves for many payloads takes memory for the longest alone.
    pub fn read_entry_into(&mut self, n: u64, buffer: &mut Vec<u8>) -> Result<(), ReadFault>
        requires { (1 ≤ n) × (n ≤ self.old.count) }
        ensures payload { WhereTold (D.view self.old.disk) (OnOk result (slice_get self.old.payloads (n - 1) ≡ Some buffer.new.items)) }
        ensures read { WasRead D.view self.old self.new (IsErrOf result ReadFault.DiskFault) }
    {
        let start = self.offset(n).saturating_add(HEAD);
        let len = self.end_of(n).saturating_sub(start) as usize;
        read_bytes(&mut self.disk, start, len, buffer)
    }

    // The offset of the gate behind payload `n`.
    fn end_of(&self, n: u64) -> u64
        requires { n ≤ self.now.count }
        ensures { WhereTold (D.view self.now.disk) (result ≡ gate_of self.now.payloads (n + 1)) }
    {
        if (n as usize) < self.offsets.len() {
            self.offsets[n as usize]
        } else {
            self.end
        }
    }

    /// The disk.
    pub fn close(self) -> D
        ensures disk { result ≡ self.disk }
        ensures kept { WhereTold (D.view self.disk) (Keeps D.view self) }
    {
        let Journal {
            disk,
            offsets: _,
            end: _,
            stopped: _,
            faults: _,
        } = self;
        disk
    }
}

// The bytes of a frame before its payload.
const HEAD: u64 = 5;

// Reads so many bytes, or what there is of them, into a buffer, in place of what that holds.
fn read_bytes<D: Disk>(
    disk: &mut D,
    at: u64,
    len: usize,
    buffer: &mut Vec<u8>,
) -> Result<(), ReadFault>
    ensures bytes { WhereTold (D.view disk.old) (OnOk result (buffer.new.items ≡ take len (drop at (file_of (D.view disk.old))))) }
    ensures read { OnlyReads (D.view disk.old) (D.view disk.new) (IsErrOf result ReadFault.DiskFault) }
{
    buffer.resize(len, 0)?;
    let count = disk.read(at, buffer)?;
    buffer.truncate(count);
    Ok(())
}
