//! Segments: rows that follow one another without a break.
ghost use Rattle.std.specs.Prelude.{◌≡◌, ℕ, ◌+◌, ◌*◌, ◌^◌, ◌<◌, ◌≤◌, ◌==◌, not, ◌&&◌, ◌||◌, nat_lt, length};
ghost use Rattle.std.specs.List.{AllByRecursion};
ghost use Rattle.exact_time.specs.SampleTime.{half_parts};
ghost use Rattle.mseed_header.specs.Quality.{quality_letter};
ghost use Rattle.dataselect.specs.Runs.{run_len_by};
ghost use Rattle.dataselect.specs.Segments.{is_same_name, is_same_rate, apart_parts, is_break, breaks_at, segment_length, is_long, is_longer, have_one_name};

use crate::lengths::{Length, exceeds, lasts, length_between};
use channel_globs::Nslc;
use exact_time::{gap_at_most, overlap_at_most};
use mseed_header::{Header, Row, next};

/// Whether two names are the same.
pub fn is_same_name(a: &Nslc, b: &Nslc) -> bool
    ensures value { result ≡ is_same_name a.now b.now }
{
    a == b
}

// Whether the names, qualities and rates are the same.
fn is_alike(before: &Header, header: &Header) -> bool
    ensures value { result ≡ (is_same_name before.now.name header.now.name
        && (quality_letter before.now.quality == quality_letter header.now.quality
        && is_same_rate before.now.rate header.now.rate)) }
{
    is_same_name(&before.name, &header.name)
        && before.quality == header.quality
        && before.rate == header.rate
}

// Whether the start and the time after the last sample of the record before differ by more than half a
// sample period.
fn is_apart(before: &Header, header: &Header) -> bool
    ensures value { result ≡ nat_lt (half_parts before.now.rate) (apart_parts before.now header.now.start.micros) }
{
    !(gap_at_most(next(before), header.start, 0) && overlap_at_most(next(before), header.start))
}

// Whether a record breaks from the one before it.
#[tactic(auto, unfolding(crate::specs::Segments::is_break))]
fn is_break(before: &Header, header: &Header) -> bool
    ensures value { result ≡ is_break before.now header.now }
{
    !is_alike(before, header) || header.rate.num == 0 || is_apart(before, header)
}

fn breaks_between(rows: &[Row], before: usize, place: usize) -> bool
    requires before { before < length rows.now }
    requires place { place < length rows.now }
    ensures value { result ≡ breaks_at rows.now before place }
{
    is_break(&rows[before].header, &rows[place].header)
}

/// How many places the first segment has.
pub fn first_len(rows: &[Row], places: &[usize]) -> usize
    requires inside { AllByRecursion (λ i. i < length rows.now) places.now }
    requires some { 0 < length places.now }
    ensures value { result ≡ run_len_by (breaks_at rows.now) places.now }
{
    'places: for i in 1..places.len() {
        if breaks_between(rows, places[i - 1], places[i]) {
            return i;
        }
    }
    places.len()
}

// The length of a segment.
#[tactic(auto, unfolding(crate::specs::Segments::segment_length))]
fn segment_length(rows: &[Row], segment: &[usize]) -> Length
    requires inside { AllByRecursion (λ i. i < length rows.now) segment.now }
    requires some { 0 < length segment.now }
    ensures value { result ≡ segment_length rows.now segment.now }
    ensures micros { result.micros ≤ 2 ^ 95 }
    ensures parts { result.parts ≤ 1_073_741_824 }
{
    length_between(
        &rows[segment[0]].header,
        &rows[segment[segment.len() - 1]].header,
    )
}

/// Whether a segment is at least so many microseconds long.
pub fn is_long(rows: &[Row], segment: &[usize], minimum: u64) -> bool
    requires inside { AllByRecursion (λ i. i < length rows.now) segment.now }
    requires some { 0 < length segment.now }
    ensures value { result ≡ is_long rows.now minimum segment.now }
{
    lasts(minimum, segment_length(rows, segment))
}

/// Whether one segment is longer than another.
pub fn is_longer(rows: &[Row], a: &[usize], b: &[usize]) -> bool
    requires a_inside { AllByRecursion (λ i. i < length rows.now) a.now }
    requires a_some { 0 < length a.now }
    requires b_inside { AllByRecursion (λ i. i < length rows.now) b.now }
    requires b_some { 0 < length b.now }
    ensures value { result ≡ is_longer rows.now a.now b.now }
{
    exceeds(segment_length(rows, a), segment_length(rows, b))
}

/// Whether two segments have one name.
#[tactic(auto, unfolding(crate::specs::Segments::have_one_name))]
pub fn have_one_name(rows: &[Row], a: &[usize], b: &[usize]) -> bool
    requires a_inside { AllByRecursion (λ i. i < length rows.now) a.now }
    requires a_some { 0 < length a.now }
    requires b_inside { AllByRecursion (λ i. i < length rows.now) b.now }
    requires b_some { 0 < length b.now }
    ensures value { result ≡ have_one_name rows.now a.now b.now }
{
    is_same_name(&rows[a[0]].header.name, &rows[b[0]].header.name)
}
