//! The kept spans of one channel, each quality and rate by itself.
ghost use Rattle.std.specs.Prelude.{◌≡◌, ◌^◌, ◌≤◌, ◌≤ℤ◌, ◌++◌, if◌then◌else◌, List, length, map, None, IfOk, OnOk, OnErr};
ghost use Rattle.std.specs.BTreeMap.{get};
ghost use Rattle.std.specs.Ordering.{is_eq};
ghost use Rattle.list_laws.specs.Mending.{AreSpread};
ghost use Rattle.mseed_header.specs.declared.row.Row.{Row};
ghost use Rattle.dataselect.specs.MergedSpans.{value_of, merged_spans_of};
ghost use Rattle.time_index.specs.declared.kind.Kind.{Kind};
ghost use Rattle.time_index.specs.Kept.{kind_cmp, kind_of, from, upto, kept_mend, spans_at, AreKept, told_value, told_values};

use crate::kept::{Kept, mend, time_of};
use crate::kind::Kind;
use channel_globs::Nslc;
use dataselect::Span;
use exact_time::{Many, Moment, OutOfMemory};
use mseed_header::Row;
use std::alloc::Global;
use std::collections::BTreeMap;

/// The quality and rate of a row.
pub fn kind_of(row: &Row) -> Kind
    ensures { result ≡ kind_of row.now }
{
    Kind {
        quality: row.header.quality,
        rate: row.header.rate,
    }
}

// Adds a kind with one span.
fn begin(
    alloc: Global,
    kinds: &mut BTreeMap<Kind, BTreeMap<Moment, Kept>>,
    kind: Kind,
    start: Moment,
    kept: Kept,
) -> Result<(), OutOfMemory>
    requires absent { get kind_cmp kinds.old kind ≡ None }
    ensures ok { OnOk result ((q : Kind) → spans_at kinds.new q ≡ (if is_eq (kind_cmp kind q) then kept_mend kind.rate (start, kept) (spans_at kinds.old q) else spans_at kinds.old q)) }
    ensures err { OnErr result ((q : Kind) → spans_at kinds.new q ≡ spans_at kinds.old q) }
{
    let mut spans = BTreeMap::new(alloc);
    spans.insert(start, kept)?;
    kinds.insert(kind, spans)?;
    Ok(())
}

/// Adds a span among those of its quality and rate, of which there may be none yet.
pub fn add_span(
    alloc: Global,
    kinds: &mut BTreeMap<Kind, BTreeMap<Moment, Kept>>,
    kind: Kind,
    start: Moment,
    kept: Kept,
) -> Result<(), OutOfMemory>
    requires spread { (q : Kind) → AreSpread from upto (spans_at kinds.old q) }
    requires forward { start.micros ≤ℤ kept.reach.micros }
    ensures ok { OnOk result ((q : Kind) → spans_at kinds.new q ≡ (if is_eq (kind_cmp kind q) then kept_mend kind.rate (start, kept) (spans_at kinds.old q) else spans_at kinds.old q)) }
    ensures err { OnErr result ((q : Kind) → spans_at kinds.new q ≡ spans_at kinds.old q) }
{
    if let Some(spans) = kinds.get_mut(&kind) {
        mend(spans, kind.rate, start, kept)?;
        return Ok(());
    }
    begin(alloc, kinds, kind, start, kept)
}

// A kept span as a span of its channel.
fn span_of(name: &Nslc, kind: &Kind, start: &Moment, kept: &Kept) -> Span
    ensures { value_of result ≡ told_value name.now kind.now (start.now, kept.now) }
{
    Span {
        name: *name,
        quality: kind.quality,
        rate: kind.rate,
        start: *start,
        next: time_of(kind.rate, kept.next),
        last: time_of(kind.rate, kept.last),
        updated: kept.updated,
        rows: kept.rows,
    }
}

// Adds the kept spans of one quality and rate.
fn add_kind(
    spans: &mut Many<Span>,
    name: &Nslc,
    kind: &Kind,
    kept: &BTreeMap<Moment, Kept>,
) -> Result<(), OutOfMemory>
    ensures ok { OnOk result (map value_of spans.new ≡ map value_of spans.old ++ map (told_value name.now kind.now) kept.now.entries) }
{
    'spans: for (start, one) in kept {
        spans.push(span_of(name, kind, start, one))?;
    }
    Ok(())
}

/// The kept spans of a channel, in order of quality, rate and start.
pub fn list_spans(
    alloc: Global,
    name: &Nslc,
    kinds: &BTreeMap<Kind, BTreeMap<Moment, Kept>>,
) -> Result<Many<Span>, OutOfMemory>
    ensures { IfOk result (λ spans. (rows : List Row) → length rows ≤ 2 ^ 32 → AreKept rows name.now kinds.now → map value_of spans ≡ merged_spans_of name.now rows) }
{
    // A map tells with its length that it is in order.
    let _ = kinds.len();
    let mut spans = Many::new(alloc);
    'kinds: for (kind, kept) in kinds {
        add_kind(&mut spans, name, kind, kept)?;
    }
    Ok(spans)
}
