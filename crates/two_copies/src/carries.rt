//! What a copy gives to who looks at it.
ghost use Rattle.std.specs.Prelude.{◌≡◌};

use crate::step::Step;
use archive_entry::Entry;
use archive_history::{Front, Naming};
use archive_state::State;
use left_right::Absorb;

/// A copy that takes steps in, and gives its state and the token of its history. What both copies have in common is
/// this history.
pub trait Carries<J: Naming>: Absorb<Step<J>, State = [Entry; 0]> {
    /// The token of its history.
    fn front(&self) -> Front<J>
        ensures { result ≡ Self.state self.now };

    /// The state of its history.
    fn state(&self) -> &State
        ensures { result.now ≡ Self.state self.now };
}
