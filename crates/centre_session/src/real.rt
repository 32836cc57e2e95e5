//! The machine's clock.
ghost use Rattle.std.specs.Prelude.{◌≡◌, ◌<◌, true, None};
ghost use Rattle.exact_time.specs.Clock.{is_clock_moment};
ghost use Rattle.centre_session.specs.Clocks.{Gave};

use crate::clock::Clock;
use exact_time::Moment;
use std::time::{self, SystemTime, UNIX_EPOCH};

// 1970-01-01T00:00:00
const FIRST: Moment = Moment { micros: 0 };

// 2599-12-31T23:59:59.999999
const LAST: Moment = Moment {
    micros: 19_880_899_199_999_999,
};

/// The machine's clock. It tells nothing of what it gave.
#[derive(Drop)]
pub struct RealClock<R> {
    runtime: R,
}

impl<R: time::Clock> RealClock<R> {
    /// A clock that reads this runtime's wall clock.
    pub fn new(runtime: R) -> RealClock<R> {
        RealClock { runtime }
    }
}

// The moment so long after 1970, or the last one that a clock gives.
fn moment_after(seconds: u64, micros: u32) -> Moment
    requires { micros < 1_000_000 }
    ensures { is_clock_moment result ≡ true }
{
    if seconds >= 19_880_899_200 {
        return LAST;
    }
    Moment {
        micros: seconds as i64 * 1_000_000 + i64::from(micros),
    }
}

impl<R: time::Clock> Clock for RealClock<R> {
    ghost given = { λ clock. None };

    /// The system's time; 1970-01-01T00:00:00 where it can't be read or is earlier.
    fn now(&mut self) -> Moment
        ensures moment { is_clock_moment result ≡ true }
    {
        let Ok(present) = SystemTime::now(&self.runtime) else {
            return FIRST;
        };
        match present.duration_since(UNIX_EPOCH) {
            Ok(since) => moment_after(since.as_secs(), since.subsec_micros()),
            Err(_) => FIRST,
        }
    }
}
