use crate::reading::{civil_time_in, moment_of};
use std::error::Error;
use std::fmt;

/// A moment: microseconds since 1970-01-01T00:00:00.
#[derive(Clone, Copy, Debug, PartialEq, Eq, PartialOrd, Ord)]
pub struct Moment {
    pub micros: i64,
}

/// Why a text or the fields of a header are no moment, or a text is no decimal, in the order of the
/// tests.
#[derive(Clone, Copy, Debug, PartialEq, Eq)]
pub enum TimeFault {
    /// The text has another shape.
    Form,
    /// There is no such year, day or time of day, or a decimal has too many digits before its point.
    Range,
}

impl fmt::Display for TimeFault {
    fn fmt<W: fmt::Write>(&self, f: &mut fmt::Formatter<W>) -> fmt::Result {
        f.write_str(match self {
            TimeFault::Form => "Form",
            TimeFault::Range => "Range",
        })
    }
}

impl Error for TimeFault {}

impl Moment {
    ghost use Rattle.std.specs.Prelude.{◌≡◌, ◌↔◌, IfOk, IsErrOf};
    ghost use Rattle.list_laws.specs.Only.{IsOnly};
    ghost use Rattle.exact_time.specs.Clock.{is_clock_moment};
    ghost use Rattle.exact_time.specs.MomentText.{IsMoment, RefusesMoment};

    /// The moment that a text names: `YYYY-MM-DD`, or `YYYY-MM-DDThh:mm:ss` with an optional point
    /// and 1 to 6 decimals and an optional final `Z`, of the years 1900 to 2599.
    pub fn read(text: &[u8]) -> Result<Moment, TimeFault>
        ensures value { IfOk result (λ m. IsMoment text.now m.micros) }
        ensures form { IsErrOf result TimeFault.Form ↔ RefusesMoment text.now TimeFault.Form }
        ensures range { IsErrOf result TimeFault.Range ↔ RefusesMoment text.now TimeFault.Range }
        ensures exact { IsOnly (λ m. IsMoment text.now m.micros) (RefusesMoment text.now) result }
    {
        let Some(time) = civil_time_in(text) else {
            return Err(TimeFault::Form);
        };
        let Some(moment) = moment_of(time) else {
            return Err(TimeFault::Range);
        };
        Ok(moment)
    }

    /// Whether a clock can give the moment: it is of the years 1970 to 2599.
    pub fn is_clock_moment(self) -> bool
        ensures { result ≡ is_clock_moment self }
    {
        self.micros >= 0 && self.micros < 19_880_899_200_000_000
    }
}
