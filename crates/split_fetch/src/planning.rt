//! How asking goes on after each reply.
//!
//! Windows are asked depth first, the earlier half first, each once in a round. A round ends early at a lost link; a lost link, and
//! fronts that moved, begin a new one, of eight at most.
ghost use Rattle.std.specs.Prelude.{◌≡◌, ◌≤◌, IfOk};
ghost use Rattle.split_fetch.specs.Rounds.{begun, after, heard_for, going, answered, next_round};
ghost use Rattle.split_fetch.specs.Fronts.{fronts_of, first_move};
ghost use Rattle.split_fetch.specs.Plans.{stage_of, way_of};

use crate::answer::WindowAnswer;
use crate::fronts::first_move;
use crate::heard::{Heard, Outcome};
use crate::plan::{Plan, Step};
use crate::window::Window;
use exact_time::{Many, OutOfMemory};
use std::alloc::Global;

// The round of this number begins with the whole window.
fn begun(alloc: Global, whole: Window, round: u32) -> Result<Plan, OutOfMemory>
    requires { round ≤ 8 }
    ensures { IfOk result (λ plan. stage_of plan ≡ begun whole round) }
{
    let mut todo = Many::new(alloc);
    todo.push(whole)?;
    Ok(Plan {
        alloc,
        whole,
        round,
        asked: 0,
        todo,
        taken: Many::new(alloc),
    })
}

// Where a round failed: a new one, or the end behind the eighth.
fn next_round(plan: Plan, outcome: Outcome) -> Result<Step, OutOfMemory>
    ensures { IfOk result (λ step. way_of step ≡ next_round (stage_of plan) outcome) }
{
    if plan.round < 8 {
        return Ok(Step::Goes(begun(plan.alloc, plan.whole, plan.round + 1)?));
    }
    Ok(Step::Ends(outcome))
}

// Where all windows were answered.
fn answered(plan: Plan) -> Result<Step, OutOfMemory>
    ensures { IfOk result (λ step. way_of step ≡ answered (stage_of plan) plan.taken (first_move (fronts_of plan.taken))) }
{
    match first_move(plan.taken.as_slice()) {
        Some((a, b)) => next_round(plan, Outcome::Moved(a, b)),
        None => Ok(Step::Ends(Outcome::Done(plan.taken))),
    }
}

// After a request, with the windows that are left.
fn going(plan: Plan) -> Result<Step, OutOfMemory>
    ensures { IfOk result (λ step. way_of step ≡ going (stage_of plan) (stage_of plan).taken (stage_of plan).todo) }
{
    if plan.todo.is_empty() {
        return answered(plan);
    }
    if plan.asked + 1 < 10_000 {
        let mut plan = plan;
        plan.asked += 1;
        return Ok(Step::Goes(plan));
    }
    Ok(Step::Ends(Outcome::Requests))
}

// What follows where this was heard for a window, which was the last of those to ask.
fn heard_for(plan: Plan, window: Window, heard: Heard) -> Result<Step, OutOfMemory>
    ensures { IfOk result (λ step. way_of step ≡ heard_for (stage_of plan) window (stage_of plan).todo heard) }
{
    let mut plan = plan;
    match heard {
        Heard::Lost => next_round(plan, Outcome::Lost),
        Heard::Peer(status) => Ok(Step::Ends(Outcome::Peer(status))),
        Heard::BadReply => Ok(Step::Ends(Outcome::BadReply)),
        Heard::TooMuch => {
            if !window.can_split() {
                return Ok(Step::Ends(Outcome::Peer(413)));
            }
            plan.todo.push(window.right())?;
            plan.todo.push(window.left())?;
            going(plan)
        }
        Heard::Got(front, rows) => {
            plan.taken.push(WindowAnswer {
                window,
                front,
                rows,
            })?;
            going(plan)
        }
    }
}

impl Plan {
    /// The first round, with the whole window to ask.
    pub fn begin(alloc: Global, whole: Window) -> Result<Plan, OutOfMemory>
        ensures { IfOk result (λ plan. stage_of plan ≡ begun whole 1) }
    {
        begun(alloc, whole, 1)
    }

    /// What follows where this was heard for the next window of those to ask. Without one there is nothing to hear.
    ///
    /// A window that has too much is asked again in its halves, where it has more than one moment. Behind 10,000 requests of one
    /// round with a window left it ends.
    pub fn after(self, heard: Heard) -> Result<Step, OutOfMemory>
        ensures { IfOk result (λ step. way_of step ≡ after (stage_of self) heard) }
    {
        let mut plan = self;
        match plan.todo.pop() {
            Some(window) => heard_for(plan, window, heard),
            None => Ok(Step::Goes(plan)),
        }
    }
}
