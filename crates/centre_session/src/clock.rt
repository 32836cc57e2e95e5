//! The time of day.
ghost use Rattle.std.specs.Prelude.{◌≡◌, true, Option, List};
ghost use Rattle.exact_time.specs.Clock.{is_clock_moment};
ghost use Rattle.exact_time.specs.declared.moment.Moment.{Moment};
ghost use Rattle.centre_session.specs.Clocks.{Gave};

use exact_time::Moment;

/// Tells the present moment. It tells besides, where it can, which moments it gave.
pub trait Clock {
    /// The moments that it gave, in order, where they are told.
    ghost given: { Self → Option (List Moment) };

    /// The present moment, from 1970 to 2599. It never fails.
    fn now(&mut self) -> Moment
        ensures told { Gave (given self.old) (given self.new) result }
        ensures moment { is_clock_moment result ≡ true };
}
