ghost use Rattle.std.specs.Prelude.{◌≡◌, ◌↔◌, ◌<◌, ◌≤◌, ◌^◌, ◌≤ℤ◌, unsigned_abs, pos, negsuc, IsOk, IfOk, IfErr};
ghost use Rattle.jiff_core.specs.Calendar.{days_in_year, days_from_civil};
ghost use Rattle.exact_time.specs.BTime.{IsBTime, btime_micros, clock_micros};

use crate::{BTime, Moment, TimeFault};
use jiff::civil::date;
use jiff_core::civil::days_in_year;

// How many days the year has.
fn year_length(year: u16) -> u16
    ensures { result ≡ days_in_year (pos year) }
{
    days_in_year((year % 400) as i16)
}

// Days from 1970-01-01 to 1 January of the year. The calendar repeats after 400 years.
fn new_year(year: u16) -> i32
    ensures value { result ≡ days_from_civil (pos year) 1 1 }
    ensures low { negsuc 4_371_586 ≤ℤ result }
    ensures high { result ≤ℤ pos 26_746_707 }
{
    let first = date((year % 400) as i16, 1, 1);
    let days = first.to_plain().to_unix_epoch_day();
    days + (year / 400) as i32 * 146_097
}

/// Microseconds since midnight, of which `rest` are behind the second.
pub fn clock(hour: u8, minute: u8, second: u8, rest: u32) -> u64
    requires hour_in { hour ≤ 23 }
    requires minute_in { minute ≤ 59 }
    requires second_in { second ≤ 60 }
    requires rest_in { rest < 1_000_000 }
    ensures value { result ≡ clock_micros hour minute second rest }
    ensures bound { result < 86_401_000_000 }
{
    let seconds = (hour as u64 * 60 + minute as u64) * 60 + second as u64;
    seconds * 1_000_000 + rest as u64
}

/// The moment of a header's time. Second 60 is a plain sum.
pub fn btime(fields: BTime) -> Result<Moment, TimeFault>
    ensures ok { IsOk result ↔ IsBTime fields }
    ensures value { IfOk result (λ m. m.micros ≡ btime_micros fields) }
    ensures bound { IfOk result (λ m. unsigned_abs m.micros < 2 ^ 62) }
    ensures err { IfErr result (λ e. e ≡ TimeFault.Range) }
{
    let BTime {
        year,
        day,
        hour,
        minute,
        second,
        fraction,
    } = fields;
    if day < 1 || day > year_length(year) {
        return Err(TimeFault::Range);
    }
    if hour > 23 || minute > 59 || second > 60 || fraction > 9999 {
        return Err(TimeFault::Range);
    }
    let days = new_year(year) as i64 + (day - 1) as i64;
    let time = clock(hour, minute, second, fraction as u32 * 100);
    Ok(Moment {
        micros: days * 86_400_000_000 + time as i64,
    })
}
