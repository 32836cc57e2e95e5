//! Spans of rows in order.
ghost use Rattle.std.specs.Prelude.{◌≡◌, ◌<◌, ◌^◌, ◌++◌, List, length, map, IfOk, OnOk};
ghost use Rattle.std.specs.List.{slice_get};
ghost use Rattle.list_laws.specs.Breaks.{made_of_each};
ghost use Rattle.list_laws.specs.Greater.{greater};
ghost use Rattle.exact_time.specs.SampleTime.{reach_at};
ghost use Rattle.channel_globs.specs.declared.nslc.Nslc.{Nslc};
ghost use Rattle.mseed_header.specs.Times.{next_index};
ghost use Rattle.dataselect.specs.Runs.{run_len_by};
ghost use Rattle.dataselect.specs.Spans.{is_other_group, runs_in_group, span_runs};
ghost use Rattle.dataselect.specs.MergedSpans.{by_quality_and_rate, value_of, sample_at, at_cmp, span_at, longer, merged_spans_of};
ghost use Rattle.dataselect.specs.SpanOrder.{row_or_none, rows_ranked, ranks_named};

use crate::span::Span;
use crate::span_order::SpanRank;
use exact_time::{Many, OutOfMemory, SampleTime, cmp_times, reach};
use mseed_header::{Row, last, next};
use std::alloc::Global;
use std::cmp::Ordering;
use std::collections::BTreeSet;

// Whether two rows differ in name, quality or rate.
fn is_other_group(a: &Row, b: &Row) -> bool
    ensures { result ≡ is_other_group by_quality_and_rate a.now.header b.now.header }
{
    let name = a.header.name.cmp(&b.header.name);
    let quality = a.header.quality.cmp(&b.header.quality);
    let rate = a.header.rate.cmp(&b.header.rate);
    name.then(quality.then(rate)).is_ne()
}

// The last microsecond at which a row may start that isn't too late after this one.
fn reach_of(row: &Row) -> i128
    ensures { result ≡ reach_at row.now.header.start.micros (next_index row.now.header) row.now.header.rate 0 }
{
    reach(next(&row.header), 0)
}

// The span of a row alone.
fn span_at(row: &Row) -> Span
    ensures { value_of result ≡ span_at row.now }
{
    Span {
        name: row.header.name,
        quality: row.header.quality,
        rate: row.header.rate,
        start: row.header.start,
        next: next(&row.header),
        last: last(&row.header),
        updated: row.moment,
        rows: 1,
    }
}

// The later of two times; of equal ones that with the most samples behind its start.
fn later_of(a: SampleTime, b: SampleTime) -> SampleTime
    ensures { sample_at result ≡ greater at_cmp (sample_at a) (sample_at b) }
{
    match cmp_times(a, b).then(a.k.cmp(&b.k)) {
        Ordering::Less => b,
        _ => a,
    }
}

// A span with one row more.
fn longer(span: Span, row: &Row) -> Span
    requires { span.rows < 2 ^ 63 }
    ensures { value_of result ≡ longer (value_of span) row.now }
{
    Span {
        name: span.name,
        quality: span.quality,
        rate: span.rate,
        start: span.start.min(row.header.start),
        next: later_of(span.next, next(&row.header)),
        last: later_of(span.last, last(&row.header)),
        updated: span.updated.max(row.moment),
        rows: span.rows + 1,
    }
}

// How many rows the first group has.
fn group_len(rows: &[&Row]) -> usize
    requires some { 0 < length rows.now }
    ensures { result ≡ run_len_by (λ a b. is_other_group by_quality_and_rate a.now.header b.now.header) rows.now }
{
    'rows: for i in 1..rows.len() {
        if is_other_group(rows[i - 1], rows[i]) {
            return i;
        }
    }
    rows.len()
}

// Adds the spans of the rows of one group.
fn add_spans(spans: &mut Many<Span>, rows: &[&Row]) -> Result<(), OutOfMemory>
    requires some { 0 < length rows.now }
    ensures ok { OnOk result (map value_of spans.new ≡ map value_of spans.old ++ made_of_each (λ r. span_at r.now) (λ s r. longer s r.now) (runs_in_group by_quality_and_rate (λ r. r.now.header) rows.now)) }
{
    let first = rows[0];
    let mut span = span_at(first);
    let mut far = reach_of(first);
    'rows: for row in &rows[1..] {
        if far < row.header.start.micros as i128 {
            spans.push(span)?;
            span = span_at(row);
        } else {
            span = longer(span, row);
        }
        far = far.max(reach_of(row));
    }
    spans.push(span)?;
    Ok(())
}

// The spans of rows in order.
fn spans_in(alloc: Global, rows: &[&Row]) -> Result<Many<Span>, OutOfMemory>
    ensures { IfOk result (λ spans. map value_of spans ≡ made_of_each (λ r. span_at r.now) (λ s r. longer s r.now) (span_runs by_quality_and_rate (λ r. r.now.header) rows.now)) }
{
    let mut spans = Many::new(alloc);
    let mut begun = 0;
    'groups: while begun < rows.len() {
        let rest = &rows[begun..];
        let len = group_len(rest);
        add_spans(&mut spans, &rest[..len])?;
        begun += len;
    }
    Ok(spans)
}

// Adds the row at a rank's place, if there is one.
fn add_row<'a>(
    ranked: &mut Many<&'a Row>,
    rows: &'a [Row],
    rank: &SpanRank,
) -> Result<(), OutOfMemory>
    ensures ok { OnOk result (map (λ r. r.now) ranked.new ≡ map (λ r. r.now) ranked.old ++ row_or_none (slice_get rows.now rank.now.index)) }
{
    if let Some(row) = rows.get(rank.index) {
        ranked.push(row)?;
    }
    Ok(())
}

// The rows at the places of some ranks.
fn rows_ranked<'a>(
    alloc: Global,
    rows: &'a [Row],
    ranks: &BTreeSet<SpanRank>,
) -> Result<Many<&'a Row>, OutOfMemory>
    ensures { IfOk result (λ ranked. map (λ r. r.now) ranked ≡ rows_ranked rows.now ranks.now.keys) }
{
    let mut ranked = Many::new(alloc);
    'ranks: for rank in ranks {
        add_row(&mut ranked, rows, rank)?;
    }
    Ok(ranked)
}

/// The spans of the rows with these ranks. Where they are those of all rows of a name, the spans are the
/// merged spans of that name.
pub fn spans_ranked(
    alloc: Global,
    rows: &[Row],
    ranks: &BTreeSet<SpanRank>,
) -> Result<Many<Span>, OutOfMemory>
    ensures { IfOk result (λ spans. (name : Nslc) → ranks.now.keys ≡ ranks_named name rows.now
        → map value_of spans ≡ merged_spans_of name rows.now) }
{
    let ranked = rows_ranked(alloc, rows, ranks)?;
    let spans = spans_in(alloc, ranked.as_slice())?;
    Ok(spans)
}
