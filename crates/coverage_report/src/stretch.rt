//! What a record covers of a report's days.
ghost use Rattle.std.specs.Prelude.{◌≡◌, ◌*◌, ◌<◌, ◌≤◌, ◌^◌, ℤ, int_lt, min};
ghost use Rattle.std.specs.Ordering.{is_gt};
ghost use Rattle.exact_time.specs.SampleTime.{compare_sample};
ghost use Rattle.mseed_header.specs.Times.{next_index};
ghost use Rattle.coverage_report.specs.Ends.{rounded_up, end_moment};
ghost use Rattle.coverage_report.specs.Stretches.{ahead_of, stretch_of};

use exact_time::{Moment, SampleTime, parts};
use mseed_header::{Header, next};

/// From its start on, and before its end, in microseconds from the report's first moment on.
#[derive(Clone, Copy, Debug, PartialEq, Eq, PartialOrd, Ord)]
pub struct Stretch {
    pub start: u64,
    pub end: u64,
}

// The parts of a microsecond from a record's start to a sample's time.
fn parts_ahead(time: SampleTime) -> u128
    ensures value { result ≡ time.k * time.rate.den * 1_000_000 }
    ensures bound { result < 2 ^ 67 }
{
    time.k as u128 * time.rate.den as u128 * 1_000_000
}

// Parts of a microsecond in whole microseconds.
fn rounded_up(ahead: u128, parts: u32) -> u128
    requires some { 0 < parts }
    requires few { ahead < 2 ^ 67 }
    ensures value { result ≡ rounded_up ahead parts }
    ensures bound { result ≤ 2 ^ 67 }
{
    if ahead == 0 {
        0
    } else {
        (ahead - 1) / parts as u128 + 1
    }
}

// The first whole microsecond that isn't before the time after the last sample.
fn end_micros(header: &Header) -> i128
    ensures { result ≡ end_moment header.now }
{
    let next = next(header);
    header.start.micros as i128 + rounded_up(parts_ahead(next), parts(next)) as i128
}

// How far a moment is behind the first one, and at most so far.
fn ahead_of(first: i64, micros: i128, most: u64) -> u64
    ensures { result ≡ min (ahead_of first micros) most }
{
    let first = first as i128;
    let ahead = if first < micros {
        micros.abs_diff(first)
    } else {
        0
    };
    ahead.min(most as u128) as u64
}

/// What a record covers of so many microseconds from the first moment on, if anything.
pub fn stretch_of(first: Moment, size: u64, header: &Header) -> Option<Stretch>
    ensures { result ≡ stretch_of first.micros size header.now }
{
    let start = ahead_of(first.micros, header.start.micros as i128, size);
    let end = ahead_of(first.micros, end_micros(header), size);
    if start < end {
        Some(Stretch { start, end })
    } else {
        None
    }
}
