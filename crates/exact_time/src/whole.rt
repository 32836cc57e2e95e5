//! Times of samples in whole microseconds.
ghost use Rattle.std.specs.Prelude.{◌≡◌, ℤ, ◌*◌, ◌/◌, ◌-◌, ◌^◌, ◌<◌, ◌↔◌, pos, ◌≤ℤ◌, int_le, IsTrue};
ghost use Rattle.std.specs.Int.{int_min};
ghost use Rattle.std.specs.Ordering.{is_ge};
ghost use Rattle.exact_time.specs.SampleTime.{sample_cmp, sample_parts, floor_micros, reach_micros, IsGapAtMost};

use crate::compare::{lead, parts, room};
use crate::{Moment, SampleTime};

// The time rounded down to a microsecond; no moment is later than 2^63 - 1 microseconds.
fn floor_of(time: SampleTime) -> Moment
    ensures { result.micros ≡ int_min (floor_micros time) (pos (2 ^ 63 - 1)) }
{
    let ahead = lead(time.k, time.rate.den) / parts(time) as u128;
    let micros = time.start.micros as i128 + ahead as i128;
    Moment {
        micros: micros.min(i64::MAX as i128) as i64,
    }
}

// The time with what may lie behind it, rounded down to a microsecond.
fn reach_of(next: SampleTime, slack: u64) -> i128
    ensures { result ≡ reach_micros next slack }
{
    let ahead = (lead(next.k, next.rate.den) + room(next, slack)) / parts(next) as u128;
    next.start.micros as i128 + ahead as i128
}

impl SampleTime {
    /// The time rounded down to a microsecond: the greatest moment that isn't later.
    pub fn floor(&self) -> Moment
        ensures value { result.micros ≡ int_min (floor_micros self.now) (pos (2 ^ 63 - 1)) }
        ensures exact { (q : ℤ) → q ≤ℤ pos (2 ^ 63 - 1) → int_le q result.micros ≡ is_ge (sample_cmp self.now q) }
    {
        floor_of(*self)
    }
}

/// The last microsecond at which a record may start that follows without a gap, as [`crate::gap_at_most`]
/// says: `next` is the time after the last sample before it. It may lie behind all moments.
pub fn reach(next: SampleTime, slack: u64) -> i128
    ensures value { result ≡ reach_micros next slack }
    ensures exact { (q : ℤ) → IsTrue (int_le q result) ↔ IsGapAtMost next q slack }
{
    reach_of(next, slack)
}
