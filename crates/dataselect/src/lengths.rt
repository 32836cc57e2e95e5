//! The lengths of segments, as exact fractions.
ghost use Rattle.std.specs.Prelude.{◌≡◌, ◌≤◌, ◌^◌};
ghost use Rattle.dataselect.specs.Segments.{apart_parts, length_between, lasts, exceeds};

use exact_time::{Moment, lateness, parts};
use mseed_header::{Header, next};

/// A length of `micros / parts` microseconds.
#[derive(Clone, Copy, Debug)]
pub struct Length {
    pub micros: u128,
    pub parts: u32,
}

// How far apart a moment and the time after a record's last sample are, times the divisor.
fn apart(header: &Header, moment: Moment) -> u128
    ensures value { result ≡ apart_parts header.now moment.micros }
    ensures bound { result ≤ 2 ^ 95 }
{
    lateness(next(header), moment).unsigned_abs()
}

/// From one record's start to the time after another's last sample.
pub fn length_between(first: &Header, last: &Header) -> Length
    ensures value { result ≡ length_between first.now last.now }
    ensures micros { result.micros ≤ 2 ^ 95 }
    ensures parts { result.parts ≤ 1_073_741_824 }
{
    Length {
        micros: apart(last, first.start),
        parts: parts(next(last)),
    }
}

/// Whether the length is at least so many microseconds.
pub fn lasts(minimum: u64, length: Length) -> bool
    ensures value { result ≡ lasts minimum length }
{
    minimum as u128 * length.parts as u128 <= length.micros
}

/// Whether one length is greater than another: exact, by cross multiplication.
pub fn exceeds(a: Length, b: Length) -> bool
    requires a_micros { a.micros ≤ 2 ^ 95 }
    requires a_parts { a.parts ≤ 1_073_741_824 }
    requires b_micros { b.micros ≤ 2 ^ 95 }
    requires b_parts { b.parts ≤ 1_073_741_824 }
    ensures value { result ≡ exceeds a b }
{
    b.micros * (a.parts as u128) < a.micros * b.parts as u128
}
