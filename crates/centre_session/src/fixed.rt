//! A clock that stands still.
ghost use Rattle.std.specs.Prelude.{◌≡◌, true};
ghost use Rattle.exact_time.specs.Clock.{is_clock_moment};

use exact_time::Moment;

/// A clock that gives one moment at each call, and counts its calls. It tells what it gave until its count stands at
/// the greatest number of its type.
#[derive(Clone, Copy, Debug)]
pub struct FixedClock {
    /// What each reading answers.
    pub moment: Moment,
    /// How many readings were taken.
    pub calls: u64,
    pub ghost moment_is: { is_clock_moment moment ≡ true },
}
