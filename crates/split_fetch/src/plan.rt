//! Where a round stands.
ghost use Rattle.std.specs.Prelude.{◌≤◌, ◌<◌};

use crate::answer::WindowAnswer;
use crate::heard::Outcome;
use crate::window::Window;
use exact_time::Many;
use std::alloc::Global;

/// Where a round stands: a `Stage` of `specs/Rounds.antt`.
#[derive(Drop)]
pub struct Plan {
    pub alloc: Global,
    pub whole: Window,
    /// The number of the round, from 1.
    pub round: u32,
    /// How many requests the round had.
    pub asked: u32,
    /// The windows to ask, the next one last.
    pub todo: Many<Window>,
    /// The answers, in order.
    pub taken: Many<WindowAnswer>,
    pub ghost round_in: { round ≤ 8 },
    pub ghost asked_in: { asked < 10_000 },
}

/// How asking goes on.
#[derive(Drop)]
pub enum Step {
    Goes(Plan),
    Ends(Outcome),
}
