//! What each copy holds.
ghost use Rattle.std.specs.Prelude.{◌≡◌, ◌++◌, ◌∷◌, [], IfOk, OnOk, OnErr};

use crate::carries::Carries;
use crate::step::Step;
use archive_entry::Entry;
use archive_history::{Front, Naming};
use archive_state::State;
use exact_time::OutOfMemory;
use left_right::Absorb;
use std::alloc::{AllocError, Global};
use std::marker::Model;

/// A state with the token of its history. Seen as this history.
#[derive(Drop)]
pub struct HeldState<J: Naming> {
    state: State,
    front: Front<J>,
}

impl<J: Naming> Model for HeldState<J> {
    ghost use Rattle.std.specs.Prelude.{◌≡◌, List};
    ghost use Rattle.archive_entry.specs.declared.entry.Entry.{Entry};

    ghost Value = { List Entry };

    ghost view = { λ h. h.front };

    ghost invariant = { λ h. h.state ≡ h.front };
}

impl<J: Naming> HeldState<J> {
    /// The state of the history of which this is the token, and these are the entries.
    pub fn of(
        alloc: Global,
        entries: &[Entry],
        front: &Front<J>,
    ) -> Result<HeldState<J>, OutOfMemory>
        requires { front.now ≡ entries.now }
        ensures { IfOk result (λ held. held ≡ front.now) }
    {
        let _lawful = front.count();
        let state = State::of(alloc, entries)?;
        Ok(HeldState {
            state,
            front: front.again(),
        })
    }

    // The step's entry comes next.
    fn take_in(&mut self, step: &Step<J>) -> Result<(), AllocError>
        requires { self.old ≡ step.now.0 }
        ensures ok { OnOk result (self.new ≡ step.now.0 ++ step.now.1 ∷ []) }
        ensures err { OnErr result (self.new ≡ self.old) }
    {
        let _lawful = step.after.count();
        let HeldState { state, front } = self;
        match state.absorb(&step.entry) {
            Ok(()) => {
                *front = step.after.again();
                Ok(())
            }
            Err(OutOfMemory) => Err(AllocError),
        }
    }
}

impl<J: Naming> Absorb<Step<J>> for HeldState<J> {
    // A clause reads an array as a list, of any length.
    type State = [Entry; 0];

    ghost use Rattle.std.specs.Prelude.{◌++◌, ◌∷◌, []};
    ghost use Rattle.two_copies.specs.Steps.{applied_to};

    ghost state = { λ h. h };

    ghost applied = { λ h step. applied_to h step.0 (step.0 ++ step.1 ∷ []) };

    fn absorb_first(&mut self, step: &Step<J>, _other: &HeldState<J>) -> Result<(), AllocError> {
        if !self.front.same_as(&step.before) {
            return Ok(());
        }
        self.take_in(step)
    }
}

impl<J: Naming> Carries<J> for HeldState<J> {
    fn front(&self) -> Front<J>
        ensures { result ≡ self.now }
    {
        self.front.again()
    }

    fn state(&self) -> &State
        ensures { result.now ≡ self.now }
    {
        &self.state
    }
}
