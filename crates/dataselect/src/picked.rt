//! The rows of the segments that a query picks.
ghost use Rattle.std.specs.Prelude.{◌≡◌, ◌==◌, ◌||◌, not, if◌then◌else◌, ℕ, ◌<◌, List, [], ◌++◌, length, IfOk, OnOk};
ghost use Rattle.std.specs.List.{AllByRecursion, concat};
ghost use Rattle.dataselect.specs.Segments.{have_one_name, is_longer};
ghost use Rattle.dataselect.specs.Picked.{long_segments, longest_segments, picked_of, NamesRise};

use crate::query::DataQuery;
use crate::segments::{first_len, have_one_name, is_long, is_longer};
use exact_time::{Many, OutOfMemory};
use mseed_header::Row;
use std::alloc::Global;

// Puts the places of a segment at the end.
fn put_all(picked: &mut Many<usize>, segment: &[usize]) -> Result<(), OutOfMemory>
    ensures ok { OnOk result (picked.new ≡ picked.old ++ segment.now) }
{
    'places: for place in segment {
        picked.push(*place)?;
    }
    Ok(())
}

// The places of the segments that are at least so many microseconds long.
fn long_places(
    alloc: Global,
    rows: &[Row],
    places: &[usize],
    minimum: u64,
) -> Result<Many<usize>, OutOfMemory>
    requires inside { AllByRecursion (λ i. i < length rows.now) places.now }
    ensures picked { IfOk result (λ picked. picked ≡ concat (long_segments rows.now minimum places.now)) }
{
    let mut picked = Many::new(alloc);
    let mut rest = places;
    'segments: while !rest.is_empty() {
        let (segment, after) = rest.split_at(first_len(rows, rest));
        if is_long(rows, segment, minimum) {
            put_all(&mut picked, segment)?;
        }
        rest = after;
    }
    Ok(picked)
}

// Whether a segment isn't of the name of the best so far. Where there is no best yet, it is so.
fn is_first_of_name(rows: &[Row], best: &[usize], segment: &[usize]) -> bool
    requires best { AllByRecursion (λ i. i < length rows.now) best.now }
    requires segment { AllByRecursion (λ i. i < length rows.now) segment.now }
    requires some { 0 < length segment.now }
    ensures value { result ≡ (length best.now == 0 || not (have_one_name rows.now segment.now best.now)) }
{
    best.is_empty() || !have_one_name(rows, segment, best)
}

// The longer of two segments, on a tie the first.
fn longer_of<'a>(rows: &[Row], best: &'a [usize], segment: &'a [usize]) -> &'a [usize]
    requires best { AllByRecursion (λ i. i < length rows.now) best.now }
    requires best_some { 0 < length best.now }
    requires segment { AllByRecursion (λ i. i < length rows.now) segment.now }
    requires segment_some { 0 < length segment.now }
    ensures value { result.now ≡ (if is_longer rows.now segment.now best.now then segment.now else best.now) }
{
    if is_longer(rows, segment, best) {
        segment
    } else {
        best
    }
}

// The places of the longest segment of each name, on a tie the first, among those that are at least so
// many microseconds long. The best of a name waits until a segment of another name comes.
fn longest_places(
    alloc: Global,
    rows: &[Row],
    places: &[usize],
    minimum: u64,
) -> Result<Many<usize>, OutOfMemory>
    requires inside { AllByRecursion (λ i. i < length rows.now) places.now }
    requires names { NamesRise rows.now places.now }
    ensures picked { IfOk result (λ picked. picked ≡ concat (longest_segments rows.now minimum places.now)) }
{
    let mut picked = Many::new(alloc);
    let mut best = &places[..0];
    let mut rest = places;
    'segments: while !rest.is_empty() {
        let (segment, after) = rest.split_at(first_len(rows, rest));
        if is_long(rows, segment, minimum) {
            if is_first_of_name(rows, best, segment) {
                put_all(&mut picked, best)?;
                best = segment;
            } else {
                best = longer_of(rows, best, segment);
            }
        }
        rest = after;
    }
    put_all(&mut picked, best)?;
    Ok(picked)
}

/// The places of the rows of the segments that a query picks, where the rows at these places are in
/// order of their names. Where nothing is asked of the segments, these are all places, and no row is read.
pub fn pick(
    alloc: Global,
    rows: &[Row],
    places: Many<usize>,
    query: &DataQuery,
) -> Result<Many<usize>, OutOfMemory>
    requires inside { AllByRecursion (λ i. i < length rows.now) places }
    requires names { NamesRise rows.now places }
    ensures picked { IfOk result (λ picked. picked ≡ picked_of query.now rows.now places) }
{
    if query.longest {
        longest_places(alloc, rows, places.as_slice(), query.minimum)
    } else if query.minimum == 0 {
        Ok(places)
    } else {
        long_places(alloc, rows, places.as_slice(), query.minimum)
    }
}
