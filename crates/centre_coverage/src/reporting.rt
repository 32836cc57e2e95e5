//! The report of what a history holds.
ghost use Rattle.std.specs.Prelude.{◌≡◌, IfOk, IfErr, Ok};
ghost use Rattle.archive_state.specs.History.{held_of};
ghost use Rattle.coverage_report.specs.Answers.{report, RefusesAs};
ghost use Rattle.coverage_report.specs.Days.{AreDays};
ghost use Rattle.centre_coverage.specs.Table.{stop_for_text, PutsReport};

use crate::days::Days;
use crate::ending::{CoverageRefusal, CoverageStop};
use crate::sight::NotWithdrawn;
use archive_state::State;
use coverage_report::report_of;
use exact_time::{Failed, Moment, Text, TextRefusal};
use std::alloc::Global;
use streams::{Sink, put_all};

/// How much of each of so many days from the first one on the records that the history of a state holds cover: for each channel and
/// each day of which they cover something, the codes, the date, the number of microseconds covered and the per cent of the day,
/// rounded down. A withdrawn record covers nothing. Empty where there is no line; TooLarge where there are more lines than `max_lines`.
pub fn report(
    alloc: Global,
    state: &State,
    first: Moment,
    days: u32,
    max_lines: u64,
) -> Result<Text, TextRefusal>
    requires { AreDays first.micros days }
    ensures text { IfOk result (λ text. report (held_of state.now) first.micros days max_lines ≡ Ok text) }
    ensures refused { IfErr result (RefusesAs (report (held_of state.now) first.micros days max_lines)) }
{
    let sight = NotWithdrawn {
        catalog: state.catalog(),
    };
    report_of(alloc, state.shelf(), &sight, first, days, max_lines)
}

// How a refusal of the report stops the command.
fn stop_for_text(limit: u64, refusal: TextRefusal) -> CoverageStop
    ensures { result ≡ stop_for_text limit refusal }
{
    match refusal {
        TextRefusal::Empty => CoverageStop::Refused(CoverageRefusal::NoData),
        TextRefusal::TooLarge(lines) => {
            CoverageStop::Refused(CoverageRefusal::TooManyLines { lines, limit })
        }
        TextRefusal::OutOfMemory => CoverageStop::OutOfMemory,
    }
}

/// Writes the report on the sink when all of it is there.
pub(crate) fn put_report<K: Sink>(
    alloc: Global,
    state: &State,
    days: Days,
    max_lines: u64,
    sink: &mut K,
) -> Result<(), CoverageStop>
    requires { AreDays days.first.micros days.count }
    ensures { PutsReport (held_of state.now) days.first.micros days.count max_lines (K.view sink.old) (K.view sink.new) result }
{
    let text = match report(alloc, state, days.first, days.count, max_lines) {
        Ok(text) => text,
        Err(refusal) => return Err(stop_for_text(max_lines, refusal)),
    };
    match put_all(sink, text.as_slice()) {
        Ok(()) => Ok(()),
        Err(Failed) => Err(CoverageStop::WriteFault),
    }
}
