//! The days that the words ask for.
ghost use Rattle.std.specs.Prelude.{IfOk, IfErr};
ghost use Rattle.command_words.specs.Arguments.{coverage_words_at};
ghost use Rattle.centre_coverage.specs.Words.{IsAsked, IsDayOf, RefusesCoverageWords};

use crate::ending::{CoverageRefusal, DayWord};
use command_words::CoverageArguments;
use exact_time::Moment;

/// So many days, from the beginning of the first one on.
#[derive(Clone, Copy)]
pub(crate) struct Days {
    pub(crate) first: Moment,
    pub(crate) count: u32,
}

// The beginning of the day that a word names. Of the spellings of a moment a date alone has ten bytes.
fn day_of(word: &str) -> Option<Moment>
    ensures { IsDayOf word.now result }
{
    if word.len() != 10 {
        return None;
    }
    match Moment::read(word.as_bytes()) {
        Ok(moment) => Some(moment),
        Err(_) => None,
    }
}

/// The days that the words ask for, or why they ask for none.
pub(crate) fn asked_days(arguments: &CoverageArguments) -> Result<Days, CoverageRefusal>
    ensures ok { IfOk result (λ days. IsAsked (coverage_words_at arguments.now) days.first.micros days.count) }
    ensures err { IfErr result (RefusesCoverageWords (coverage_words_at arguments.now)) }
{
    let Some(first) = day_of(arguments.start) else {
        return Err(CoverageRefusal::Value(DayWord::Start));
    };
    let Some(last) = day_of(arguments.end) else {
        return Err(CoverageRefusal::Value(DayWord::End));
    };
    if last.micros < first.micros {
        return Err(CoverageRefusal::Order);
    }
    let count = last.micros.abs_diff(first.micros) / 86_400_000_000 + 1;
    if count > 3660 {
        return Err(CoverageRefusal::Value(DayWord::End));
    }
    Ok(Days {
        first,
        count: count as u32,
    })
}
