//! The lines of a channel, by a sweep over what its records cover.
ghost use Rattle.std.specs.Prelude.{◌≡◌, ◌<◌, ◌≤◌, ◌*◌, ◌∷◌, [], max, List, IfOk, OnOk};
ghost use Rattle.std.specs.List.{AllByRecursion};
ghost use Rattle.exact_time.specs.Written.{IsWritable};
ghost use Rattle.coverage_report.specs.Days.{AreDays, day_at};
ghost use Rattle.coverage_report.specs.Lines.{line_if};
ghost use Rattle.coverage_report.specs.Printable.{IsPrintableName};
ghost use Rattle.coverage_report.specs.Stretches.{IsStretch};
ghost use Rattle.coverage_report.specs.Sweep.{AreBehind, StartsRise, IsSameWalk, KeepsLines, lines_swept, put_all};
ghost use Rattle.coverage_report.specs.declared.stretch.Stretch.{Stretch};

use crate::line::Line;
use crate::lines::{Lines, put};
use crate::stretch::Stretch;
use crate::walk::Walk;
use channel_globs::Nslc;
use exact_time::{Moment, OutOfMemory};
use std::alloc::Global;
use std::collections::BTreeSet;

// Where the day of a number begins.
fn day_at(first: Moment, day: u64) -> Moment
    requires { IsWritable (day_at first.micros day) }
    ensures { result.micros ≡ day_at first.micros day }
{
    Moment {
        micros: (first.micros as i128 + day as i128 * 86_400_000_000) as i64,
    }
}

// Writes the line of the walk's day, if something of it is covered.
fn close(alloc: Global, lines: &mut Lines, walk: &Walk) -> Result<(), OutOfMemory>
    ensures { OnOk result (lines.new ≡ put_all lines.old
        (line_if walk.now.name (day_at walk.now.first.micros walk.now.day) walk.now.covered)) }
{
    if walk.covered == 0 {
        return Ok(());
    }
    let line = Line {
        name: walk.name,
        day: day_at(walk.first, walk.day),
        covered: walk.covered,
    };
    put(alloc, lines, &line)
}

// Sweeps what a stretch covers of the day at which the sweep goes on, and writes the line of an earlier day.
fn add_part(
    alloc: Global,
    lines: &mut Lines,
    walk: &Walk,
    stretch: &Stretch,
) -> Result<Walk, OutOfMemory>
    requires days { AreDays walk.now.first.micros walk.now.days }
    requires stretch { IsStretch walk.now.first.micros walk.now.days stretch.now }
    requires more { max walk.now.behind stretch.now.start < stretch.now.end }
    ensures same { IfOk result (λ next. IsSameWalk walk.now next) }
    ensures ahead { IfOk result (λ next. (max walk.now.behind stretch.now.start < next.behind) × (next.behind ≤ stretch.now.end)) }
    ensures open { IfOk result (λ next. 0 < next.covered) }
    ensures kept { IfOk result (λ next. (rest : List Stretch) → AreBehind stretch.now rest
        → KeepsLines lines.old walk.now (stretch.now ∷ rest) lines.new next (stretch.now ∷ rest)) }
{
    let from = walk.behind.max(stretch.start);
    let day = from / 86_400_000_000;
    let end = stretch.end.min(day * 86_400_000_000 + 86_400_000_000);
    if day == walk.day {
        return Ok(Walk {
            name: walk.name,
            first: walk.first,
            days: walk.days,
            day,
            covered: walk.covered + (end - from),
            behind: end,
        });
    }
    close(alloc, lines, walk)?;
    Ok(Walk {
        name: walk.name,
        first: walk.first,
        days: walk.days,
        day,
        covered: end - from,
        behind: end,
    })
}

// Where no more lines are written, counts the days behind the walk's day that a stretch covers wholly, all but the last
// of them, at once: a record may last for centuries.
fn pass_days(lines: &mut Lines, walk: &Walk, stretch: &Stretch) -> Walk
    requires stretch { IsStretch walk.now.first.micros walk.now.days stretch.now }
    requires days { AreDays walk.now.first.micros walk.now.days }
    requires open { 0 < walk.now.covered }
    requires begun { (stretch.now.start ≤ walk.now.behind) × (walk.now.behind ≤ stretch.now.end) }
    ensures same { IsSameWalk walk.now result }
    ensures ahead { walk.now.behind ≤ result.behind }
    ensures kept { (rest : List Stretch) → AreBehind stretch.now rest
        → KeepsLines lines.old walk.now (stretch.now ∷ rest) lines.new result (stretch.now ∷ rest) }
{
    let end = stretch.end / 86_400_000_000;
    if lines.count < lines.most
        || walk.behind != walk.day * 86_400_000_000 + 86_400_000_000
        || end < walk.day + 2
    {
        return *walk;
    }
    let whole = end - (walk.day + 1);
    lines.count = lines.count.saturating_add(whole);
    Walk {
        name: walk.name,
        first: walk.first,
        days: walk.days,
        day: walk.day + whole,
        covered: 86_400_000_000,
        behind: end * 86_400_000_000,
    }
}

// Sweeps a stretch.
fn add_stretch(
    alloc: Global,
    lines: &mut Lines,
    walk: &Walk,
    stretch: &Stretch,
) -> Result<Walk, OutOfMemory>
    requires days { AreDays walk.now.first.micros walk.now.days }
    requires stretch { IsStretch walk.now.first.micros walk.now.days stretch.now }
    ensures same { IfOk result (λ next. IsSameWalk walk.now next) }
    ensures kept { IfOk result (λ next. (rest : List Stretch) → AreBehind stretch.now rest
        → KeepsLines lines.old walk.now (stretch.now ∷ rest) lines.new next rest) }
{
    let mut next = *walk;
    'parts: while next.behind.max(stretch.start) < stretch.end {
        next = add_part(alloc, lines, &next, stretch)?;
        next = pass_days(lines, &next, stretch);
    }
    Ok(next)
}

// Sweeps the stretches of a channel.
fn swept(
    alloc: Global,
    lines: &mut Lines,
    walk: &Walk,
    stretches: &BTreeSet<Stretch>,
) -> Result<Walk, OutOfMemory>
    requires days { AreDays walk.now.first.micros walk.now.days }
    requires stretches { AllByRecursion (IsStretch walk.now.first.micros walk.now.days) stretches.now.keys }
    requires rise { StartsRise stretches.now.keys }
    ensures same { IfOk result (λ next. IsSameWalk walk.now next) }
    ensures kept { IfOk result (λ next. KeepsLines lines.old walk.now stretches.now.keys lines.new next []) }
{
    let mut next = *walk;
    'stretches: for stretch in stretches {
        next = add_stretch(alloc, lines, &next, stretch)?;
    }
    Ok(next)
}

/// Writes the lines of a channel, of which these are the stretches on so many days.
pub fn add_channel(
    alloc: Global,
    lines: &mut Lines,
    name: &Nslc,
    first: Moment,
    days: u64,
    stretches: &BTreeSet<Stretch>,
) -> Result<(), OutOfMemory>
    requires name { IsPrintableName name.now }
    requires days { AreDays first.micros days }
    requires stretches { AllByRecursion (IsStretch first.micros days) stretches.now.keys }
    requires rise { StartsRise stretches.now.keys }
    ensures { OnOk result (lines.new ≡ put_all lines.old (lines_swept name.now first.micros 0 stretches.now.keys 0 days)) }
{
    let walk = Walk {
        name: *name,
        first,
        days,
        day: 0,
        covered: 0,
        behind: 0,
    };
    let walk = swept(alloc, lines, &walk, stretches)?;
    close(alloc, lines, &walk)
}
