//! Looks at the copy that is shown.
ghost use Rattle.std.specs.Prelude.{◌≡◌, None, IfSome, IfOk};
ghost use mathlib.Core.List.{IsPrefix};
ghost use Rattle.left_right.specs.Sides.{view};
ghost use Rattle.archive_state.specs.Lawful.{IsLawful};
ghost use Rattle.desk_words.specs.Outcomes.{outcome_of};
ghost use Rattle.desk_words.specs.Setting.{setting};

use crate::carries::Carries;
use crate::view::{CopyReader, Looks};
use archive_history::{Front, Naming};
use archive_state::Limits;
use desk_words::{Outcome, Question, outcome};
use exact_time::OutOfMemory;
use http_digest::Secret;
use std::alloc::Global;

// What was found at a look: the token of the history, and what the question is answered with over it.
#[derive(Drop)]
pub struct Found<J: Naming> {
    pub front: Front<J>,
    pub outcome: Result<Outcome, OutOfMemory>,
}

// The token of the copy that is shown. None where the writer is gone.
pub fn find<J: Naming, T: Carries<J> + Drop>(
    reader: CopyReader<J, T>,
) -> (CopyReader<J, T>, Option<Front<J>>)
    ensures none { result.1 ≡ None → view result.0.place ≡ view reader.place }
    ensures lawful { IfSome result.1 IsLawful }
    ensures found { IfSome result.1 (λ front. (front ≡ (view result.0.place).seen) × IsPrefix (view reader.place).seen front) }
{
    match reader.enter_as::<Looks<J>>() {
        Ok(reading) => {
            let front = reading.get().front();
            let _count = front.count();
            (reading.leave(), Some(front))
        }
        Err(reader) => (reader, None),
    }
}

// The same, with the answer over that copy.
pub fn find_answer<J: Naming, T: Carries<J> + Drop>(
    reader: CopyReader<J, T>,
    alloc: Global,
    question: &Question,
    secret: &Secret,
    limits: &Limits,
) -> (CopyReader<J, T>, Option<Found<J>>)
    ensures none { result.1 ≡ None → view result.0.place ≡ view reader.place }
    ensures lawful { IfSome result.1 (λ f. IsLawful f.front) }
    ensures found { IfSome result.1 (λ f. (f.front ≡ (view result.0.place).seen) × IsPrefix (view reader.place).seen f.front) }
    ensures outcome { IfSome result.1 (λ f. IfOk f.outcome (λ o. o ≡ outcome_of f.front question.now (setting secret.now limits.now))) }
{
    match reader.enter_as::<Looks<J>>() {
        Ok(reading) => {
            let copy = reading.get();
            let front = copy.front();
            let _count = front.count();
            let outcome = outcome(alloc, copy.state(), question, secret, limits);
            (reading.leave(), Some(Found { front, outcome }))
        }
        Err(reader) => (reader, None),
    }
}
