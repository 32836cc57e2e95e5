//! The command `coverage` as a command of a run.
ghost use Rattle.std.specs.Prelude.{◌≡◌};
ghost use Rattle.centre.specs.Coverages.{refusal_for_coverage, stop_for_coverage, word_for};
ghost use Rattle.centre.specs.Ends.{ending_by};

use crate::ending::{Refusal, Stop};
use centre_coverage::{CoverageRefusal, CoverageStop, DayWord};
use centre_select::Word;

// The word of a day among the words of all commands.
fn word_for(word: DayWord) -> Word
    ensures { result ≡ word_for word }
{
    match word {
        DayWord::Start => Word::Start,
        DayWord::End => Word::End,
    }
}

// How a refusal of `coverage` refuses the run.
fn refusal_for_coverage(refusal: CoverageRefusal) -> Refusal
    ensures { result ≡ refusal_for_coverage refusal }
{
    match refusal {
        CoverageRefusal::Value(word) => Refusal::Value(word_for(word)),
        CoverageRefusal::Order => Refusal::Order,
        CoverageRefusal::NoData => Refusal::NoData,
        CoverageRefusal::TooManyLines { lines, limit } => Refusal::TooManyLines { lines, limit },
        CoverageRefusal::NotAJournal => Refusal::NotAJournal,
        CoverageRefusal::Damaged(at) => Refusal::Damaged(at),
    }
}

/// How `coverage` ends the run.
pub(crate) fn ending_of_coverage(outcome: Result<(), CoverageStop>) -> Result<(), Stop>
    ensures { result ≡ ending_by stop_for_coverage outcome }
{
    match outcome {
        Ok(()) => Ok(()),
        Err(CoverageStop::Refused(refusal)) => Err(Stop::Refused(refusal_for_coverage(refusal))),
        Err(CoverageStop::WriteFault) => Err(Stop::WriteFault),
        Err(CoverageStop::DiskFault) => Err(Stop::DiskFault),
        Err(CoverageStop::OutOfMemory) => Err(Stop::OutOfMemory),
    }
}
