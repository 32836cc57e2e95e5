//! Opens and closes a desk of one owner.
ghost use Rattle.std.specs.Prelude.{◌≡◌, ◌<◌, ◌≤◌, true, false, length, None, is_some, IfOk, IfErr};
ghost use Rattle.exact_time.specs.Causes.{Rose};
ghost use Rattle.disk_model.specs.View.{WhereTold, AlwaysLeaves, file_of};
ghost use Rattle.disk_model.specs.Effects.{WritesNothing};
ghost use Rattle.archive_entry.specs.declared.entry.Entry.{Entry};
ghost use Rattle.archive_log.specs.Histories.{IsHistoryOf, RecoversWithOrWithout};
ghost use Rattle.archive_log.specs.Opening.{ExplainsStart, IsStarted};
ghost use Rattle.archive_post.specs.Waiting.{committed};
ghost use Rattle.archive_world.specs.Held.{LeavesHeld, StartsOver, held};
ghost use Rattle.archive_post.specs.Leaving.{LeavesLeft, KeepsHistory, left_of};

use crate::kept::OwnedDesk;
use archive_entry::Entry;
use archive_log::{Archive, StartFault};
use archive_post::Intake;
use archive_state::{Admit, State};
use desk_words::Desk;
use disk_model::Disk;
use exact_time::{Many, OutOfMemory};
use std::alloc::Global;

// A desk over an archive that was opened.
fn over<D: Disk>(
    alloc: Global,
    archive: Archive<D>,
    entries: &Many<Entry>,
    admit: Admit,
) -> Result<OwnedDesk<D>, (D, StartFault)>
    requires started { IsStarted D.view archive entries.now admit }
    ensures desk { IfOk result (λ d. (d.state ≡ entries.now) × (d.intake.waiting ≡ None) × (d.stops ≡ 0) × (d.caught ≡ 0) × (d.made ≡ 0) × (d.intake.archive ≡ archive)) }
    ensures refused { IfErr result (λ refused. refused ≡ (archive.disk, StartFault.OutOfMemory)) }
{
    match State::of(alloc, entries.as_slice()) {
        Ok(state) => Ok(OwnedDesk {
            intake: Intake::of(archive, admit),
            state,
            stops: 0,
            caught: 0,
            made: 0,
        }),
        Err(OutOfMemory) => Err((archive.close(), StartFault::OutOfMemory)),
    }
}

impl<D: Disk> OwnedDesk<D> {
    /// Opens the archive that a disk holds, after a crash too: what is seen is the history that the file's bytes spell,
    /// and nothing is left. It gives the disk no write and no cut: the disk reads as before.
    pub fn start(alloc: Global, disk: D) -> Result<OwnedDesk<D>, (D, StartFault)>
        ensures seen { WhereTold (D.view disk) (IfOk result (λ d. IsHistoryOf (file_of (D.view disk)) d.state)) }
        ensures some { IfOk result (λ d. 1 ≤ length d.state) }
        ensures left { IfOk result (λ d. (d.intake.waiting ≡ None) × (d.intake.archive.hand ≡ None) × (d.stops ≡ 0)) }
        // Whichever world it is that a crash left so, it recovers to the one in which this history is published.
        ensures recovers { IfOk result (λ d. StartsOver d.state (held (committed d.state d.intake.waiting) d.state d.intake.archive.hand)) }
        ensures opened { IfOk result (λ d. d.intake.archive.faults ≤ (D.view d.intake.archive.disk).faults) }
        ensures since { IfOk result (λ d. (D.view disk).faults ≤ d.intake.archive.faults) }
        ensures fault { WhereTold (D.view disk) (IfErr result (λ refused. ExplainsStart (file_of (D.view disk)) refused.1)) }
        ensures kept { IfOk result (λ d. WritesNothing (D.view disk) (D.view d.intake.archive.disk) ⊥) }
        ensures refused { IfErr result (λ refused. WritesNothing (D.view disk) (D.view refused.0) (refused.1 ≡ StartFault.DiskFault)) }
    {
        match Archive::start(alloc, disk) {
            Ok((archive, entries, admit)) => over(alloc, archive, &entries, admit),
            Err(refused) => Err(refused),
        }
    }

    /// What is seen, with what it holds.
    pub fn state(&self) -> &State
        ensures seen { result.now ≡ self.now.state }
    {
        &self.state
    }

    /// How many entries are seen, and what the desk's disk holds.
    pub fn count(&self) -> u64
        ensures count { result ≡ length self.now.state }
        ensures stands { WhereTold (D.view self.now.intake.archive.disk)
            (LeavesLeft (D.view self.now.intake.archive.disk).may_leave self.now.state (left_of self.now.intake.waiting self.now.intake.archive.hand)) }
        ensures history { WhereTold (D.view self.now.intake.archive.disk) (KeepsHistory self.now.state (left_of self.now.intake.waiting self.now.intake.archive.hand)) }
        ensures held { LeavesHeld (D.view self.now.intake.archive.disk)
            (held (committed self.now.state self.now.intake.waiting) self.now.state self.now.intake.archive.hand) }
        ensures hand { is_some self.now.intake.archive.hand ≡ self.now.intake.archive.stopped }
        ensures rest { WhereTold (D.view self.now.intake.archive.disk) (self.now.intake.archive.stopped ≡ false
            → (e : Entry) → AlwaysLeaves (D.view self.now.intake.archive.disk) (D.view self.now.intake.archive.disk) (RecoversWithOrWithout (committed self.now.state self.now.intake.waiting) e)) }
        ensures calm { 0 < self.now.stops → Rose self.now.intake.archive.faults (D.view self.now.intake.archive.disk).faults }
        ensures cause { self.now.intake.archive.stopped ≡ true → Rose self.now.intake.archive.faults (D.view self.now.intake.archive.disk).faults }
    {
        let _count = self.intake.count();
        self.state.entries().len() as u64
    }

    /// Gives the disk back. Every image is a journal of what was seen, or of this and of what was left.
    pub fn close(self) -> D
        ensures disk { result ≡ self.intake.archive.disk }
        ensures left { (⟦<OwnedDesk<D> as Desk>⟧.stand self).footing.told ≡ true
            → LeavesLeft (D.view result).may_leave (⟦<OwnedDesk<D> as Desk>⟧.stand self).seen (⟦<OwnedDesk<D> as Desk>⟧.stand self).left }
        // What was seen is a lawful history, and what was left comes next in it.
        ensures history { (⟦<OwnedDesk<D> as Desk>⟧.stand self).footing.told ≡ true
            → KeepsHistory (⟦<OwnedDesk<D> as Desk>⟧.stand self).seen (⟦<OwnedDesk<D> as Desk>⟧.stand self).left }
        ensures calm { 0 < (⟦<OwnedDesk<D> as Desk>⟧.stand self).stops
            → Rose (⟦<OwnedDesk<D> as Desk>⟧.stand self).footing.faults (D.view result).faults }
    {
        let _count = self.count();
        let OwnedDesk {
            intake,
            state: _,
            stops: _,
            caught: _,
            made: _,
        } = self;
        intake.close()
    }
}
