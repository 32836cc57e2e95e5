//! Adds what waits to a state.
ghost use Rattle.std.specs.Prelude.{◌≡◌, true, None, OnOk, OnErr};
ghost use Rattle.std.specs.Option.{option_copied};
ghost use Rattle.archive_state.specs.Lawful.{IsLawful};
ghost use Rattle.archive_post.specs.Intake.{StandsFor};
ghost use Rattle.archive_post.specs.Waiting.{committed, waits};

use crate::kept::Intake;
use archive_entry::Entry;
use archive_state::State;
use disk_model::Disk;
use exact_time::OutOfMemory;

// The state takes in an entry, where there is one.
fn absorb_one(state: &mut State, waiting: Option<&Entry>) -> Result<(), OutOfMemory>
    requires lawful { IsLawful state.old }
    requires waits { waits state.old (option_copied waiting) ≡ true }
    ensures ok { OnOk result (state.new ≡ committed state.old (option_copied waiting.entry)) }
    ensures err { OnErr result (state.new ≡ state.old) }
{
    let Some(entry) = waiting else {
        return Ok(());
    };
    state.absorb(entry)
}

impl<D: Disk> Intake<D> {
    /// Adds what waits to the state of the history for which this stands. Where memory is missing, it waits on.
    pub fn show(&mut self, state: &mut State) -> Result<(), OutOfMemory>
        requires stands { StandsFor D.view self.old state.old }
        ensures stands { StandsFor D.view self.new state.new }
        ensures same { self.new.archive ≡ self.old.archive }
        ensures ok { OnOk result ((state.new ≡ committed state.old self.old.waiting) × (self.new.waiting ≡ None) × (self.new.noted ≡ true)) }
        ensures err { OnErr result ((state.new ≡ state.old) × (self.new.waiting ≡ self.old.waiting)) }
    {
        self.note()?;
        absorb_one(state, self.waiting())?;
        let _shown = self.take();
        Ok(())
    }
}
