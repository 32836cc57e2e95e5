//! Appends an entry that is handed in.
ghost use Rattle.std.specs.Prelude.{◌≡◌, true, None, List, IsErrOf};
ghost use Rattle.archive_entry.specs.declared.entry.Entry.{Entry};
ghost use Rattle.archive_post.specs.Intake.{StandsFor, StandsForSome};
ghost use Rattle.archive_post.specs.Posts.{Appends, Commits};

use crate::kept::Intake;
use archive_entry::Entry;
use desk_words::SubmitFault;
use disk_model::Disk;
use exact_time::OutOfMemory;
use std::alloc::Global;

/// Why an entry wasn't appended.
#[derive(Clone, Copy, Debug, PartialEq, Eq)]
pub enum AppendFault {
    /// It doesn't come next in the history.
    NotNext,
    /// The disk failed, now or earlier: open the archive again.
    Stopped,
    /// Memory ran out, and nothing was appended.
    OutOfMemory,
}

impl From<OutOfMemory> for AppendFault {
    ghost use Rattle.archive_post.specs.declared.appending.AppendFault.TheVariants.{OutOfMemory as NoMemory};

    ghost from_gives = { λ _ fault. fault ≡ NoMemory };

    fn from(_error: OutOfMemory) -> AppendFault {
        AppendFault::OutOfMemory
    }
}

impl From<SubmitFault> for AppendFault {
    ghost use Rattle.archive_post.specs.Posts.{append_fault};

    ghost from_gives = { λ fault told. told ≡ append_fault fault };

    fn from(fault: SubmitFault) -> AppendFault {
        match fault {
            SubmitFault::Stopped => AppendFault::Stopped,
            SubmitFault::OutOfMemory => AppendFault::OutOfMemory,
        }
    }
}

impl<D: Disk> Intake<D> {
    /// Commits an entry that is handed in, as one of another archive, if it comes next in the history for which this
    /// stands; it then waits. All memory for the journal is taken before the first disk write.
    pub fn append(&mut self, alloc: Global, entry: Entry) -> Result<(), AppendFault>
        requires stands { StandsForSome D.view self.old }
        requires free { (self.old.waiting ≡ None) × (self.old.noted ≡ true) }
        ensures row { (h : List Entry) → StandsFor D.view self.old h → Appends self.old self.new h entry result }
        ensures stands { (h : List Entry) → StandsFor D.view self.old h → StandsFor D.view self.new h }
        ensures disk { (h : List Entry) → StandsFor D.view self.old h → Commits D.view self.old.archive self.new.archive h entry (IsErrOf result AppendFault.Stopped) }
    {
        let _count = self.count();
        if !self.admit.next_lawful(&entry)? {
            return Err(AppendFault::NotNext);
        }
        self.add(alloc, entry, None)?;
        Ok(())
    }
}
