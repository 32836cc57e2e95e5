//! The report in text.
ghost use Rattle.std.specs.Prelude.{◌≡◌, ◌*◌, filter, IfOk, IfErr, OnOk, Ok};
ghost use Rattle.coverage_report.specs.Answers.{report, RefusesAs};
ghost use Rattle.coverage_report.specs.Days.{AreDays};
ghost use Rattle.coverage_report.specs.Lines.{lines_of_name, report_lines};
ghost use Rattle.coverage_report.specs.Printable.{IsPrintableName};
ghost use Rattle.coverage_report.specs.Sweep.{put_all};

use crate::lines::{Lines, no_lines};
use crate::rows::{names_seen, stretches_of};
use crate::sweep::add_channel;
use channel_globs::Nslc;
use dataselect::{Shelf, Sight};
use exact_time::{Moment, OutOfMemory, Text, TextRefusal};
use std::alloc::Global;

// Adds the lines of a channel.
fn add_lines<S: Shelf, V: Sight>(
    alloc: Global,
    lines: &mut Lines,
    shelf: &S,
    sight: &V,
    name: &Nslc,
    first: Moment,
    days: u64,
) -> Result<(), OutOfMemory>
    requires name { IsPrintableName name.now }
    requires days { AreDays first.micros days }
    ensures { OnOk result (lines.new ≡ put_all lines.old
        (lines_of_name (filter (V.seen sight.now) (S.rows shelf.now)) first.micros days name.now)) }
{
    let stretches = stretches_of(alloc, shelf, sight, name, first, days * 86_400_000_000)?;
    add_channel(alloc, lines, name, first, days, &stretches)
}

// Adds the lines of all channels.
fn add_all<S: Shelf, V: Sight>(
    alloc: Global,
    lines: &mut Lines,
    shelf: &S,
    sight: &V,
    first: Moment,
    days: u64,
) -> Result<(), OutOfMemory>
    requires { AreDays first.micros days }
    ensures { OnOk result (lines.new ≡ put_all lines.old
        (report_lines (filter (V.seen sight.now) (S.rows shelf.now)) first.micros days)) }
{
    let names = names_seen(alloc, shelf, sight)?;
    'names: for name in &names {
        add_lines(alloc, lines, shelf, sight, name, first, days)?;
    }
    Ok(())
}

/// How much of each of so many days from the first one on the rows that are seen cover: for each channel and each day
/// of which they cover something, the codes, the date, the number of microseconds covered and the per cent of the day,
/// rounded down. Empty where there is no line; TooLarge where there are more lines than `max_lines`.
pub fn report_of<S: Shelf, V: Sight>(
    alloc: Global,
    shelf: &S,
    sight: &V,
    first: Moment,
    days: u32,
    max_lines: u64,
) -> Result<Text, TextRefusal>
    requires { AreDays first.micros days }
    ensures text { IfOk result (λ text. report (filter (V.seen sight.now) (S.rows shelf.now)) first.micros days max_lines ≡ Ok text) }
    ensures refused { IfErr result
        (RefusesAs (report (filter (V.seen sight.now) (S.rows shelf.now)) first.micros days max_lines)) }
{
    let mut lines = no_lines(alloc, max_lines);
    add_all(alloc, &mut lines, shelf, sight, first, days as u64)?;
    if lines.count == 0 {
        return Err(TextRefusal::Empty);
    }
    if lines.count > max_lines {
        return Err(TextRefusal::TooLarge(lines.count));
    }
    let Lines { text, .. } = lines;
    Ok(text)
}
