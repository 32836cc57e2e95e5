//! Spans of one channel, quality and rate that are kept merged.
ghost use Rattle.std.specs.Prelude.{◌≡◌, ◌==◌, ◌≤◌, ◌≤ℤ◌, if◌then◌else◌, [], List, IfOk, OnOk, OnErr, MatchOption};
ghost use Rattle.list_laws.specs.Greater.{greater};
ghost use Rattle.list_laws.specs.Mending.{AreSpread};
ghost use Rattle.dataselect.specs.MergedSpans.{at_cmp};
ghost use Rattle.exact_time.specs.declared.ratio.Ratio.{Ratio};
ghost use Rattle.time_index.specs.declared.kept.Kept.{Kept};
ghost use Rattle.exact_time.specs.declared.moment.Moment.{Moment};
ghost use Rattle.time_index.specs.Kept.{mark_cmp, joined, from, upto, kept_mend, kept_of, Outside, IsHome, within, IsFirstWithin, IsBegun};

use exact_time::{Moment, OutOfMemory, Ratio, SampleTime, cmp_times, reach};
use mseed_header::{Row, last, next};
use std::collections::BTreeMap;
use std::ops::Bound;

/// The time of a sample, where the rate is known: so many sample periods after a start.
#[derive(Clone, Copy, Debug)]
pub struct Mark {
    pub start: Moment,
    pub k: u16,
}

/// What is kept of a span by its least start, where its rate is known.
#[derive(Clone, Copy, Debug)]
pub struct Kept {
    /// The last microsecond at which a row may start that joins it.
    pub reach: Moment,
    /// The greatest time after a last sample; of equal times it is the one with the most samples behind its
    /// start.
    pub next: Mark,
    /// The greatest time of a last sample.
    pub last: Mark,
    /// The greatest moment of an entry.
    pub updated: Moment,
    /// How many rows there are.
    pub rows: u64,
}

// The mark of a time.
fn mark_of(time: SampleTime) -> Mark
    ensures { result ≡ record { start = time.start; k = time.k } }
{
    Mark {
        start: time.start,
        k: time.k as u16,
    }
}

// How many sample periods after its start a mark's time is; none where there is no rate.
fn periods(rate: Ratio, mark: Mark) -> u32
    ensures value { result ≡ (if rate.num == 0 then 0 else mark.k) }
    ensures bound { result ≤ 65_535 }
    ensures still { rate.num ≡ 0 → result ≡ 0 }
{
    if rate.num == 0 { 0 } else { mark.k as u32 }
}

/// A mark's time.
pub fn time_of(rate: Ratio, mark: Mark) -> SampleTime
    ensures start { result.start ≡ mark.start }
    ensures k { result.k ≡ (if rate.num == 0 then 0 else mark.k) }
    ensures rate { result.rate ≡ rate }
{
    SampleTime {
        start: mark.start,
        k: periods(rate, mark),
        rate,
    }
}

// The later of two marks; of equal ones that with the most samples behind its start.
fn later_of(rate: Ratio, a: Mark, b: Mark) -> Mark
    ensures { result ≡ greater (mark_cmp rate) a b }
{
    let times = cmp_times(time_of(rate, a), time_of(rate, b));
    if times.then(a.k.cmp(&b.k)).is_lt() {
        b
    } else {
        a
    }
}

// Two spans in one.
fn join(rate: Ratio, a: Kept, b: Kept) -> Kept
    ensures { result ≡ joined rate a b }
{
    Kept {
        reach: a.reach.max(b.reach),
        next: later_of(rate, a.next, b.next),
        last: later_of(rate, a.last, b.last),
        updated: a.updated.max(b.updated),
        rows: a.rows.saturating_add(b.rows),
    }
}

// The last microsecond at which a row may start that isn't too late after this one.
fn reach_of(row: &Row) -> Moment
    ensures { result ≡ (kept_of row.now).1.reach }
{
    Moment {
        micros: reach(next(&row.header), 0).min(i64::MAX as i128) as i64,
    }
}

/// What is kept of a row alone.
pub fn kept_of(row: &Row) -> Kept
    ensures { result ≡ (kept_of row.now).1 }
{
    Kept {
        reach: reach_of(row),
        next: mark_of(next(&row.header)),
        last: mark_of(last(&row.header)),
        updated: row.moment,
        rows: 1,
    }
}

// The kept span that has a moment in it: the last that starts by then, if it reaches so far.
fn home(spans: &BTreeMap<Moment, Kept>, start: Moment) -> Option<(Moment, Kept)>
    requires spread { AreSpread from upto spans.now.entries }
    ensures { MatchOption result (Outside start.micros spans.now.entries) (λ p. IsHome start.micros spans.now.entries p) }
{
    let (key, kept) = spans.range(..=&start).next_back()?;
    if kept.reach < start {
        return None;
    }
    Some((*key, *kept))
}

// The first kept span that starts behind a moment, up to another.
fn behind(spans: &BTreeMap<Moment, Kept>, home: Moment, reach: Moment) -> Option<(Moment, Kept)>
    requires forward { home.micros ≤ℤ reach.micros }
    ensures { MatchOption result (within home.micros reach.micros spans.now.entries ≡ []) (λ p. IsFirstWithin home.micros reach.micros spans.now.entries p) }
{
    let bounds = (Bound::Excluded(home), Bound::Included(reach));
    let (key, kept) = spans.range(bounds).next()?;
    Some((*key, *kept))
}

// Where a new span is put: into one that its start lies in, or by itself. All memory is taken here.
fn begin(
    spans: &mut BTreeMap<Moment, Kept>,
    rate: Ratio,
    start: Moment,
    kept: Kept,
) -> Result<(Moment, Kept), OutOfMemory>
    requires spread { AreSpread from upto spans.old.entries }
    requires forward { start.micros ≤ℤ kept.reach.micros }
    ensures ok { IfOk result (λ p. IsBegun rate (kept_mend rate (start, kept) spans.old.entries) p spans.new.entries) }
    ensures err { OnErr result (spans.new.entries ≡ spans.old.entries) }
{
    if let Some((key, other)) = home(spans, start) {
        return Ok((key, join(rate, kept, other)));
    }
    spans.insert(start, kept)?;
    Ok((start, kept))
}

// Joins the kept spans that one reaches, and puts it in its place. Takes no memory.
fn settle(spans: &mut BTreeMap<Moment, Kept>, rate: Ratio, home: Moment, kept: Kept)
    requires forward { home.micros ≤ℤ kept.reach.micros }
    ensures { (wanted : List (Moment × Kept)) → IsBegun rate wanted (home, kept) spans.old.entries → spans.new.entries ≡ wanted }
{
    let mut joined = kept;
    'reached: while let Some((key, other)) = behind(spans, home, joined.reach) {
        spans.remove(&key);
        joined = join(rate, joined, other);
    }
    match spans.insert(home, joined) {
        Ok(_) => (),
        Err(_) => (),
    }
}

/// Adds a span among kept ones. It joins those that it touches.
pub fn mend(
    spans: &mut BTreeMap<Moment, Kept>,
    rate: Ratio,
    start: Moment,
    kept: Kept,
) -> Result<(), OutOfMemory>
    requires spread { AreSpread from upto spans.old.entries }
    requires forward { start.micros ≤ℤ kept.reach.micros }
    ensures ok { OnOk result (spans.new.entries ≡ kept_mend rate (start, kept) spans.old.entries) }
    ensures err { OnErr result (spans.new.entries ≡ spans.old.entries) }
{
    let (home, joined) = begin(spans, rate, start, kept)?;
    settle(spans, rate, home, joined);
    Ok(())
}
