//! The time spans of rows in order.
ghost use Rattle.std.specs.Prelude.{◌≡◌, ◌<◌, ◌++◌, length, IfOk, OnOk};
ghost use Rattle.list_laws.specs.Breaks.{made_of_each};
ghost use Rattle.dataselect.specs.Runs.{run_len_by};
ghost use Rattle.dataselect.specs.Spans.{is_other_group, is_too_late, is_too_early, runs_in_group};
ghost use Rattle.availability.specs.Spans.{merging_of, group_of, last_moment, span_at, longer, spans_in};
ghost use Rattle.availability.specs.Walk.{reach_of, is_over, reached_by, further};

use crate::span::{Group, TimeSpan};
use crate::window::{earlier_of, later_of};
use dataselect::Sight;
use exact_time::{Many, Moment, OutOfMemory, gap_at_most, overlap_at_most, reach};
use mseed_header::{Header, Row, last, next};
use query_words::AvailQuery;
use std::alloc::Global;

/// The record before, and the last microsecond at which one may start that isn't too late after all before.
#[derive(Clone, Copy, Debug)]
pub struct Reached {
    pub last: Header,
    pub far: i128,
}

/// What the records of a span have in common with this one.
pub fn group_of(query: &AvailQuery, header: &Header) -> Group
    ensures { result ≡ group_of query.now header.now }
{
    let quality = if query.merge_quality {
        None
    } else {
        Some(header.quality)
    };
    let rate = if query.merge_rate {
        None
    } else {
        Some(header.rate)
    };
    Group {
        name: header.name,
        quality,
        rate,
    }
}

// Whether two rows are of different groups.
fn is_other_group(query: &AvailQuery, a: &Row, b: &Row) -> bool
    ensures { result ≡ is_other_group (merging_of query.now) a.now.header b.now.header }
{
    let a = group_of(query, &a.header);
    let b = group_of(query, &b.header);
    a.cmp(&b).is_ne()
}

fn is_too_late(header: &Header, start: Moment, gap: u64) -> bool
    ensures { result ≡ is_too_late gap header.now start.micros }
{
    !gap_at_most(next(header), start, gap)
}

fn is_too_early(header: &Header, start: Moment) -> bool
    ensures { result ≡ is_too_early header.now start.micros }
{
    !overlap_at_most(next(header), start)
}

fn reach_of(query: &AvailQuery, header: &Header) -> i128
    ensures { result ≡ reach_of query.now header.now }
{
    reach(next(header), query.gaps)
}

// Whether a row breaks from those before it.
fn is_over(query: &AvailQuery, reached: &Reached, header: &Header) -> bool
    ensures { result ≡ is_over query.now reached.now header.now }
{
    if query.merge_overlap {
        reached.far < header.start.micros as i128
    } else {
        is_too_late(&reached.last, header.start, query.gaps)
            || is_too_early(&reached.last, header.start)
    }
}

fn reached_by(query: &AvailQuery, header: &Header) -> Reached
    ensures { result ≡ reached_by query.now header.now }
{
    Reached {
        last: *header,
        far: reach_of(query, header),
    }
}

fn further(query: &AvailQuery, reached: &Reached, header: &Header) -> Reached
    ensures { result ≡ further query.now reached.now header.now }
{
    Reached {
        last: *header,
        far: reached.far.max(reach_of(query, header)),
    }
}

// The time of a row's last sample, rounded down to a microsecond.
fn last_moment(row: &Row) -> Moment
    ensures { result ≡ last_moment row.now.header }
{
    last(&row.header).floor()
}

// The span of a row alone.
fn span_at<V: Sight>(sight: &V, query: &AvailQuery, row: &Row) -> TimeSpan
    ensures { result ≡ span_at (V.touched sight.now) query.now row.now }
{
    TimeSpan {
        group: group_of(query, &row.header),
        start: row.header.start,
        last: last_moment(row),
        updated: row.moment,
        restricted: sight.restricted(row),
    }
}

// A span with one row more.
fn longer<V: Sight>(sight: &V, span: &TimeSpan, row: &Row) -> TimeSpan
    ensures { result ≡ longer (V.touched sight.now) span.now row.now }
{
    TimeSpan {
        group: span.group,
        start: earlier_of(span.start, row.header.start),
        last: later_of(span.last, last_moment(row)),
        updated: later_of(span.updated, row.moment),
        restricted: span.restricted || sight.restricted(row),
    }
}

// How many rows the first group has.
fn group_len(query: &AvailQuery, rows: &[&Row]) -> usize
    requires some { 0 < length rows.now }
    ensures { result ≡ run_len_by (λ a b. is_other_group (merging_of query.now) a.now.header b.now.header) rows.now }
{
    'rows: for i in 1..rows.len() {
        if is_other_group(query, rows[i - 1], rows[i]) {
            return i;
        }
    }
    rows.len()
}

// Adds the spans of the rows of one group.
fn add_spans<V: Sight>(
    spans: &mut Many<TimeSpan>,
    sight: &V,
    query: &AvailQuery,
    rows: &[&Row],
) -> Result<(), OutOfMemory>
    requires some { 0 < length rows.now }
    ensures ok { OnOk result (spans.new ≡ spans.old ++ made_of_each (λ r. span_at (V.touched sight.now) query.now r.now) (λ s r. longer (V.touched sight.now) s r.now) (runs_in_group (merging_of query.now) (λ r. r.now.header) rows.now)) }
{
    let first = rows[0];
    let mut span = span_at(sight, query, first);
    let mut reached = reached_by(query, &first.header);
    'rows: for row in &rows[1..] {
        if is_over(query, &reached, &row.header) {
            spans.push(span)?;
            span = span_at(sight, query, row);
        } else {
            span = longer(sight, &span, row);
        }
        reached = further(query, &reached, &row.header);
    }
    spans.push(span)?;
    Ok(())
}

/// Adds the spans of rows in order.
pub fn add_spans_of<V: Sight>(
    spans: &mut Many<TimeSpan>,
    sight: &V,
    query: &AvailQuery,
    rows: &[&Row],
) -> Result<(), OutOfMemory>
    ensures ok { OnOk result (spans.new ≡ spans.old ++ spans_in (λ r. r.now) (V.touched sight.now) query.now rows.now) }
{
    let mut begun = 0;
    'groups: while begun < rows.len() {
        let rest = &rows[begun..];
        let len = group_len(query, rest);
        add_spans(spans, sight, query, &rest[..len])?;
        begun += len;
    }
    Ok(())
}
