//! What a committer keeps.
ghost use Rattle.std.specs.Prelude.{◌≡◌, ◌++◌, ◌∷◌, [], ◌+◌, ◌<◌, ◌≤◌, true, false, List, length, map, drop, take, fold, option_to_list, is_some};
ghost use mathlib.Core.List.{IsPrefix};
ghost use Rattle.core.specs.Mem.{manually_drop_value};
ghost use Rattle.exact_time.specs.Causes.{Rose};
ghost use Rattle.disk_model.specs.View.{WhereTold, AlwaysLeaves, is_told};
ghost use Rattle.archive_entry.specs.declared.entry.Entry.{Entry};
ghost use Rattle.archive_log.specs.Archive.{Stands};
ghost use Rattle.archive_log.specs.Histories.{RecoversWithOrWithout};
ghost use Rattle.archive_post.specs.Intake.{StandsFor};
ghost use Rattle.archive_post.specs.Waiting.{committed};
ghost use Rattle.archive_state.specs.Lawful.{IsLawful};
ghost use Rattle.archive_world.specs.Held.{LeavesHeld, held};

use archive_entry::Entry;
use archive_history::{Front, Naming};
use archive_post::Intake;
use disk_model::Disk;
use left_right::writer::Writer;
use std::mem::ManuallyDrop;
use std::sync::ledger::{Book, Ledger};
use two_copies::{Carries, Published, Step, View};

/// The archive on its disk, and the writer of the copies.
pub struct Committer<D: Disk, J: Naming, T: Carries<J> + Drop, L: Ledger, S: Ledger> {
    pub book: archive_history::Book<J>,
    pub intake: Intake<D>,
    // The history of all entries that the intake handed on, and the one that is shown.
    pub latest: Front<J>,
    pub front: Front<J>,
    // Handed on, and not handed to the writer yet.
    pub pending: Option<Step<J>>,
    pub writer: ManuallyDrop<Writer<T, Step<J>, View, Published<J>>>,
    pub made: Book<L>,
    pub stops: Book<S>,
    // A step adds its entry to the history that it follows.
    pub ghost law: { (h : List Entry) (e : Entry) → T.applied h (h, e) ≡ h ++ e ∷ [] },
    pub ghost stands: { StandsFor D.view intake latest },
    pub ghost shown: { T.state (manually_drop_value writer).desk.shown.value ≡ front },
    // What is shown, and at most one entry that waits, are the committed history, to which the steps lead.
    pub ghost tied: { front ++ map (λ step. step.1) (drop (manually_drop_value writer).behind (manually_drop_value writer).log.items ++ option_to_list pending) ≡ latest },
    pub ghost one: { length (drop (manually_drop_value writer).behind (manually_drop_value writer).log.items ++ option_to_list pending) + length (option_to_list intake.waiting) ≤ 1 },
    pub ghost leads: { fold T.applied front (drop (manually_drop_value writer).behind (manually_drop_value writer).log.items ++ option_to_list pending) ≡ latest },
    // What every run knows of the disk at the opening.
    pub ghost told_is: { is_told (D.view intake.archive.disk) ≡ J.told },
    pub ghost faults_are: { intake.archive.faults ≡ J.faults },
    // A commit was stopped exactly where some caller was told so.
    pub ghost never: { intake.archive.stopped ≡ false → stops.total ≡ 0 },
    pub ghost ever: { intake.archive.stopped ≡ true → 0 < stops.total },
    // The history goes on from the opening one, by as many entries as were made.
    pub ghost began: { take (length J.opening) latest ≡ J.opening },
    pub ghost made_are: { length (committed latest intake.waiting) ≡ length J.opening + made.total },
}

impl<D: Disk, J: Naming, T: Carries<J> + Drop, L: Ledger, S: Ledger> Committer<D, J, T, L, S> {
    /// The number of committed entries, and what the committer is.
    pub fn count(&self) -> u64
        ensures count { result ≡ length (committed self.now.latest self.now.intake.waiting) }
        ensures lawful { IsLawful (committed self.now.latest self.now.intake.waiting) }
        ensures stands { WhereTold (D.view self.now.intake.archive.disk) (Stands D.view self.now.intake.archive) }
        ensures kept { WhereTold (D.view self.now.intake.archive.disk) (self.now.intake.archive.history ≡ committed self.now.latest self.now.intake.waiting) }
        ensures few { length (committed self.now.latest self.now.intake.waiting) ≤ length self.now.front + 1 }
        ensures hand { is_some self.now.intake.archive.hand ≡ self.now.intake.archive.stopped }
        ensures left { LeavesHeld (D.view self.now.intake.archive.disk)
            (held (committed self.now.latest self.now.intake.waiting) self.now.front self.now.intake.archive.hand) }
        ensures begins { IsPrefix self.now.front (committed self.now.latest self.now.intake.waiting) }
        ensures rest { WhereTold (D.view self.now.intake.archive.disk) (self.now.intake.archive.stopped ≡ false
            → (e : Entry) → AlwaysLeaves (D.view self.now.intake.archive.disk) (D.view self.now.intake.archive.disk) (RecoversWithOrWithout (committed self.now.latest self.now.intake.waiting) e)) }
        ensures calm { 0 < self.now.stops.total → Rose self.now.intake.archive.faults (D.view self.now.intake.archive.disk).faults }
    {
        let _lawful = self.latest.count();
        self.intake.count()
    }
}
