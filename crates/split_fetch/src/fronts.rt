//! Whether the archive moved between two answers.
ghost use Rattle.std.specs.Prelude.{◌≡◌};
ghost use Rattle.split_fetch.specs.Fronts.{fronts_of, first_move};

use crate::answer::WindowAnswer;

/// The fronts of the first two neighbours that differ.
pub fn first_move(answers: &[WindowAnswer]) -> Option<(u64, u64)>
    ensures { result ≡ first_move (fronts_of answers.now) }
{
    let mut before = answers.first()?.front;
    'answers: for answer in answers {
        if answer.front != before {
            return Some((before, answer.front));
        }
        before = answer.front;
    }
    None
}
