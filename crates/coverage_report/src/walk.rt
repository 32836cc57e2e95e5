ghost use Rattle.std.specs.Prelude.{◌<◌, ◌≤◌, ◌+◌, ◌*◌};
ghost use Rattle.exact_time.specs.Written.{IsWritable};
ghost use Rattle.coverage_report.specs.Days.{day_at};
ghost use Rattle.coverage_report.specs.Printable.{IsPrintableName};

use channel_globs::Nslc;
use exact_time::Moment;

/// Where the sweep over the stretches of a channel stands.
#[derive(Clone, Copy, Debug)]
pub struct Walk {
    /// The channel.
    pub name: Nslc,
    /// Where day 0 begins.
    pub first: Moment,
    /// How many days there are.
    pub days: u64,
    /// The number of the day whose line isn't written yet.
    pub day: u64,
    /// How much of that day is covered by what was swept, in microseconds.
    pub covered: u64,
    /// Up to where stretches were swept, in microseconds from `first` on.
    pub behind: u64,
    pub ghost printable: { IsPrintableName name },
    pub ghost within: { covered + day * 86_400_000_000 ≤ behind },
    pub ghost writable: { 0 < covered → IsWritable (day_at first.micros day) },
}
