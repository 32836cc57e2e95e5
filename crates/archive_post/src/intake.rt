//! An archive that takes commands.
ghost use Rattle.std.specs.Prelude.{◌≡◌, ◌++◌, ◌<◌, ◌^◌, true, false, None, Some, is_some, List, OnOk, OnErr};
ghost use Rattle.std.specs.Option.{option_copied};
ghost use Rattle.exact_time.specs.Causes.{Rose};
ghost use Rattle.disk_model.specs.View.{WhereTold, AlwaysLeaves};
ghost use Rattle.archive_entry.specs.declared.entry.Entry.{Entry};
ghost use Rattle.archive_log.specs.Archive.{Stands};
ghost use Rattle.archive_log.specs.Histories.{RecoversWithOrWithout};
ghost use Rattle.archive_state.specs.Admits.{IsAdmit, IsNextOf};
ghost use Rattle.archive_post.specs.Intake.{StandsFor, StandsForSome};
ghost use Rattle.archive_post.specs.Leaving.{LeavesLeft, KeepsHistory, left_of};
ghost use Rattle.archive_post.specs.Waiting.{committed, waits};

use crate::kept::Intake;
use archive_entry::Entry;
use archive_log::Archive;
use archive_state::Admit;
use disk_model::Disk;
use exact_time::OutOfMemory;

// Judging takes in an entry, where there is one.
fn note_one(admit: &mut Admit, waiting: &Option<Entry>) -> Result<(), OutOfMemory>
    requires { (e : Entry) → waiting.now ≡ Some e → IsNextOf admit.old e }
    ensures ok { OnOk result ((h : List Entry) → IsAdmit admit.old h → waits h waiting.now ≡ true → IsAdmit admit.new (committed h waiting.now)) }
    ensures err { OnErr result ((h : List Entry) → IsAdmit admit.old h → IsAdmit admit.new h) }
{
    let Some(entry) = waiting else {
        return Ok(());
    };
    admit.note(entry)
}

impl<D: Disk> Intake<D> {
    /// Over an archive in which nothing is in hand, and what judges its next entry.
    pub fn of(archive: Archive<D>, admit: Admit) -> Intake<D>
        ensures parts { (result.archive ≡ archive) × (result.admit ≡ admit) }
        ensures none { (result.waiting ≡ None) × (result.noted ≡ true) }
    {
        Intake {
            archive,
            admit,
            waiting: None,
            noted: true,
        }
    }

    /// How many entries are committed, and what the disk holds of them.
    pub fn count(&self) -> u64
        ensures count { result ≡ self.now.archive.count }
        ensures bound { result < 2 ^ 60 }
        ensures hand { is_some self.now.archive.hand ≡ self.now.archive.stopped }
        ensures archive { WhereTold (D.view self.now.archive.disk) (Stands D.view self.now.archive) }
        ensures left { (h : List Entry) → StandsFor D.view self.now h → WhereTold (D.view self.now.archive.disk)
            (LeavesLeft (D.view self.now.archive.disk).may_leave h (left_of self.now.waiting self.now.archive.hand)) }
        ensures history { (h : List Entry) → StandsFor D.view self.now h → WhereTold (D.view self.now.archive.disk)
            (KeepsHistory h (left_of self.now.waiting self.now.archive.hand)) }
        ensures rest { (h : List Entry) → StandsFor D.view self.now h → WhereTold (D.view self.now.archive.disk) (self.now.archive.stopped ≡ false
            → (e : Entry) → AlwaysLeaves (D.view self.now.archive.disk) (D.view self.now.archive.disk) (RecoversWithOrWithout (committed h self.now.waiting) e)) }
        ensures cause { self.now.archive.stopped ≡ true → Rose self.now.archive.faults (D.view self.now.archive.disk).faults }
    {
        self.archive.count()
    }

    /// The entry that waits.
    pub fn waiting(&self) -> Option<&Entry>
        ensures { option_copied result ≡ self.now.waiting }
    {
        self.waiting.as_ref()
    }

    /// Whether a commit has failed.
    pub fn is_stopped(&self) -> bool
        ensures stopped { result ≡ self.now.archive.stopped }
    {
        let _count = self.archive.count();
        self.archive.in_hand().is_some()
    }

    /// Judging takes in what waits. Where memory is missing it waits on.
    pub fn note(&mut self) -> Result<(), OutOfMemory>
        requires { StandsForSome D.view self.old }
        ensures same { (self.new.archive ≡ self.old.archive) × (self.new.waiting ≡ self.old.waiting) }
        ensures ok { OnOk result (self.new.noted ≡ true) }
        ensures stands { (h : List Entry) → StandsFor D.view self.old h → StandsFor D.view self.new h }
    {
        if self.noted {
            return Ok(());
        }
        let Intake {
            admit,
            waiting,
            noted,
            ..
        } = self;
        note_one(admit, waiting)?;
        *noted = true;
        Ok(())
    }

    /// Gives what waits to whom shows it: from now on it stands for the history with it.
    pub fn take(&mut self) -> Option<Entry>
        requires noted { self.old.noted ≡ true }
        ensures entry { result ≡ self.old.waiting }
        ensures same { (self.new.archive ≡ self.old.archive) × (self.new.noted ≡ true) }
        ensures none { self.new.waiting ≡ None }
        ensures stands { (h : List Entry) → StandsFor D.view self.old h → StandsFor D.view self.new (committed h self.old.waiting) }
    {
        self.waiting.take()
    }

    /// The disk.
    pub fn close(self) -> D
        ensures disk { result ≡ self.archive.disk }
        ensures archive { WhereTold (D.view self.archive.disk) (Stands D.view self.archive) }
    {
        let Intake {
            archive,
            admit: _,
            waiting: _,
            noted: _,
        } = self;
        archive.close()
    }
}
