ghost use Rattle.std.specs.Prelude.{◌≡◌, ◌≤◌, ◌<◌, ◌*◌, ◌^◌, ◌↔◌, max, pos, ◌*ℤ◌, ◌≤ℤ◌, unsigned_abs, IsTrue};
ghost use Rattle.exact_time.specs.SampleTime.{sample_cmp, times_cmp, time_micros, sample_parts, half_parts, lateness, IsGapAtMost, IsOverlapAtMost};

use crate::{Moment, SampleTime};
use std::cmp::Ordering;

// Microseconds times a divisor.
fn scaled(micros: i64, parts: u32) -> i128
    requires { parts ≤ 1_073_741_824 }
    ensures value { result ≡ micros *ℤ pos parts }
    ensures bound { unsigned_abs result ≤ 2 ^ 93 }
{
    micros as i128 * parts as i128
}

/// The microseconds from the start to sample k, times the rate's numerator.
pub(crate) fn lead(k: u32, den: u32) -> u128
    requires k_in { k ≤ 65_535 }
    requires den_in { den ≤ 1_073_741_824 }
    ensures value { result ≡ k * den * 1_000_000 }
    ensures bound { result < 2 ^ 67 }
{
    k as u128 * den as u128 * 1_000_000
}

/// The divisor of a time: it lies at a whole number of microseconds divided by this.
pub fn parts(time: SampleTime) -> u32
    ensures value { result ≡ sample_parts time.rate }
    ensures bound { result ≤ 1_073_741_824 }
    ensures some { 0 < result }
{
    if time.rate.num == 0 { 1 } else { time.rate.num }
}

// The microseconds of a time, times its divisor.
fn micros(time: SampleTime) -> i128
    ensures value { result ≡ time_micros time }
    ensures bound { unsigned_abs result ≤ 2 ^ 94 }
{
    if time.rate.num == 0 {
        return time.start.micros as i128;
    }
    scaled(time.start.micros, time.rate.num) + lead(time.k, time.rate.den) as i128
}

/// How a sample's time lies to a moment: exact, by cross multiplication.
pub fn cmp_sample_time(time: SampleTime, q: Moment) -> Ordering
    ensures { result ≡ sample_cmp time q.micros }
{
    micros(time).cmp(&scaled(q.micros, parts(time)))
}

// A time's microseconds, times another divisor too.
fn crossed(time: SampleTime, parts: u32) -> i128
    requires { parts ≤ 1_073_741_824 }
    ensures { result ≡ time_micros time *ℤ pos parts }
{
    micros(time) * parts as i128
}

/// How two samples' times lie: exact, by cross multiplication.
pub fn cmp_times(a: SampleTime, b: SampleTime) -> Ordering
    ensures { result ≡ times_cmp a b }
{
    crossed(a, parts(b)).cmp(&crossed(b, parts(a)))
}

// Half a sample period in microseconds, times the divisor.
fn half(time: SampleTime) -> u64
    ensures value { result ≡ half_parts time.rate }
    ensures bound { result < 2 ^ 50 }
{
    if time.rate.num == 0 {
        0
    } else {
        time.rate.den as u64 * 500_000
    }
}

/// How much later the moment is than the time, in microseconds times [`parts`] of the time.
pub fn lateness(time: SampleTime, q: Moment) -> i128
    ensures value { result ≡ lateness time q.micros }
    ensures bound { unsigned_abs result ≤ 2 ^ 95 }
{
    scaled(q.micros, parts(time)) - micros(time)
}

/// What may lie between a time and what follows it without a gap: the greater of half a sample period and
/// `slack` microseconds, times the divisor.
pub(crate) fn room(next: SampleTime, slack: u64) -> u128
    ensures value { result ≡ max (slack * sample_parts next.rate) (half_parts next.rate) }
    ensures bound { result < 2 ^ 95 }
{
    let room = slack as u128 * parts(next) as u128;
    room.max(half(next) as u128)
}

// Whether a signed number is at most an unsigned one.
fn at_most(a: i128, most: u128) -> bool
    requires { most < 2 ^ 127 }
    ensures { IsTrue result ↔ (a ≤ℤ pos most) }
{
    a <= most as i128
}

/// Whether a record that starts at `start` follows without a gap: `start` is later than `next`, the time
/// after the last sample before it, by at most half a sample period, or by at most `slack`
/// microseconds. Half the period is 0 where the rate is 0.
pub fn gap_at_most(next: SampleTime, start: Moment, slack: u64) -> bool
    ensures { IsTrue result ↔ IsGapAtMost next start.micros slack }
{
    at_most(lateness(next, start), room(next, slack))
}

/// Whether a record that starts at `start` doesn't overlap what is before it: `next` is later than
/// `start` by at most half a sample period.
pub fn overlap_at_most(next: SampleTime, start: Moment) -> bool
    ensures { IsTrue result ↔ IsOverlapAtMost next start.micros }
{
    at_most(-lateness(next, start), half(next) as u128)
}
