//! Clocks: one that stands still, and the machine's.
ghost use Rattle.std.specs.Prelude.{◌≡◌, true, Some, None, []};
ghost use Rattle.exact_time.specs.Clock.{is_clock_moment};
ghost use Rattle.centre_session.specs.Clocks.{Gave, given_by};

use crate::clock::Clock;
use crate::fixed::FixedClock;
use exact_time::Moment;

impl FixedClock {
    /// A clock that stands at this moment, from 1970 to 2599.
    pub fn new(moment: Moment) -> FixedClock
        requires { is_clock_moment moment ≡ true }
        ensures moment { result.moment ≡ moment }
        ensures given { given_by result ≡ Some [] }
    {
        FixedClock { moment, calls: 0 }
    }
}

impl Clock for FixedClock {
    ghost given = { given_by };

    fn now(&mut self) -> Moment
        ensures told { Gave (given_by self.old) (given_by self.new) result }
        ensures moment { is_clock_moment result ≡ true }
        ensures same { result ≡ self.old.moment }
    {
        self.calls = self.calls.saturating_add(1);
        self.moment
    }
}
