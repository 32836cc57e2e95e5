ghost use Rattle.std.specs.Prelude.{◌≡◌, ℕ, ◌<◌, ◌≤◌, ◌≤ℤ◌, ◌<ℤ◌, pos, neg_ℤ, List, ◌++◌, ◌*◌, ◌/◌, length, OnOk, OnErr};
ghost use Rattle.std.specs.Str.{IsAscii};
ghost use Rattle.jiff_core.specs.Date.{epoch_day};
ghost use Rattle.exact_time.specs.MomentText.{two_digits, six_digits, date_text, clock_text, civil_micros, IsMoment};
ghost use Rattle.exact_time.specs.Decimals.{IsDecimal, decimal_text, short_digits};
ghost use Rattle.exact_time.specs.Written.{IsWritable, IsNameable, IsCalendarTime, IsWritten, civil_text, moment_text};

use crate::reading::CivilTime;
use crate::{Decimal, Moment, OutOfMemory, Ratio, Text};
use jiff_core::civil::Date;
use std::str;

// The two decimal digits of a number.
fn two_digits(n: u8) -> [u8; 2]
    requires { n < 100 }
    ensures { result ≡ two_digits n }
{
    [b'0' + n / 10, b'0' + n % 10]
}

// The six decimal digits of a number.
fn six_digits(n: u32) -> [u8; 6]
    requires { n < 1_000_000 }
    ensures { result ≡ six_digits n }
{
    let [a, b] = two_digits((n / 10_000) as u8);
    let [c, d] = two_digits((n / 100 % 100) as u8);
    let [e, f] = two_digits((n % 100) as u8);
    [a, b, c, d, e, f]
}

// A day as YYYY-MM-DD.
fn date_text(year: u16, month: u8, day: u8) -> [u8; 10]
    requires year_in { year < 10_000 }
    requires month_in { month < 100 }
    requires day_in { day < 100 }
    ensures { result ≡ date_text year month day }
{
    let [a, b] = two_digits((year / 100) as u8);
    let [c, d] = two_digits((year % 100) as u8);
    let [e, f] = two_digits(month);
    let [g, h] = two_digits(day);
    [a, b, c, d, b'-', e, f, b'-', g, h]
}

// A time of day as hh:mm:ss.
fn clock_text(hour: u8, minute: u8, second: u8) -> [u8; 8]
    requires hour_in { hour < 100 }
    requires minute_in { minute < 100 }
    requires second_in { second < 100 }
    ensures { result ≡ clock_text hour minute second }
{
    let [a, b] = two_digits(hour);
    let [c, d] = two_digits(minute);
    let [e, f] = two_digits(second);
    [a, b, b':', c, d, b':', e, f]
}

// A day and a time of it as YYYY-MM-DDThh:mm:ss.ffffff.
fn civil_text(time: CivilTime) -> [u8; 26]
    requires { IsCalendarTime time }
    ensures { result ≡ civil_text time }
{
    let mut text = *b"0000-00-00T00:00:00.000000";
    text[..10].copy_from_slice(&date_text(time.year, time.month, time.day));
    text[11..19].copy_from_slice(&clock_text(time.hour, time.minute, time.second));
    text[20..].copy_from_slice(&six_digits(time.micros));
    text
}

// The date of a day number.
fn date_of(day: i64) -> Date
    requires low { neg_ℤ (pos 62_091) ≤ℤ day }
    requires high { day <ℤ pos 266_992 }
    ensures day { epoch_day result ≡ day }
    ensures low { pos 1800 ≤ℤ result.year }
    ensures high { result.year ≤ℤ pos 2700 }
{
    Date::from_unix_epoch_day(day).unwrap()
}

// The day and the time of day at which a moment lies.
fn civil_time(micros: i64) -> CivilTime
    requires { IsWritable micros }
    ensures civil { IsCalendarTime result }
    ensures value { civil_micros result ≡ micros }
{
    let date = date_of(micros.div_euclid(86_400_000_000));
    let rest = micros.rem_euclid(86_400_000_000) as u64;
    let seconds = rest / 1_000_000;
    CivilTime {
        year: date.year as u16,
        month: date.month,
        day: date.day,
        hour: (seconds / 3600) as u8,
        minute: (seconds / 60 % 60) as u8,
        second: (seconds % 60) as u8,
        micros: (rest % 1_000_000) as u32,
    }
}

// Puts ASCII at the end of a text, all of it or nothing.
fn push_ascii(out: &mut Text, ascii: &[u8]) -> Result<(), OutOfMemory>
    requires { IsAscii ascii.now }
    ensures ok { OnOk result (out.new ≡ out.old ++ ascii.now) }
    ensures err { OnErr result (out.new ≡ out.old) }
{
    out.push(str::from_utf8(ascii).unwrap())
}

impl Moment {
    /// Appends the 26 bytes `YYYY-MM-DDThh:mm:ss.ffffff` of a moment of the years 1800 to 2700. Where
    /// memory runs out, nothing is appended.
    pub fn write(&self, out: &mut Text) -> Result<(), OutOfMemory>
        requires { IsWritable self.now.micros }
        ensures ok { OnOk result (out.new ≡ out.old ++ moment_text self.now.micros) }
        ensures written { IsWritten (moment_text self.now.micros) self.now.micros }
        ensures only { (text : List ℕ) → IsWritten text self.now.micros → text ≡ moment_text self.now.micros }
        ensures reads_back { IsNameable self.now.micros → IsMoment (moment_text self.now.micros) self.now.micros }
        ensures err { OnErr result (out.new ≡ out.old) }
    {
        push_ascii(out, &civil_text(civil_time(self.micros)))
    }
}

// The first digit, and the others without the zeros at their end.
fn short(digits: &[u8]) -> &[u8]
    requires { 1 ≤ length digits.now }
    ensures { result.now ≡ short_digits digits.now }
{
    let mut end = digits.len();
    'zeros: while end > 1 && digits[end - 1] == b'0' {
        end -= 1;
    }
    &digits[..end]
}

impl Decimal {
    /// Appends the number: a `-` if it is below zero, the whole part, a point, and the decimals without
    /// the zeros at their end, but at least one. Where memory runs out, nothing is appended.
    pub fn write(&self, out: &mut Text) -> Result<(), OutOfMemory>
        ensures ok { OnOk result (out.new ≡ out.old ++ decimal_text self.now.millionths) }
        ensures reads_back { IsDecimal (decimal_text self.now.millionths) self.now.millionths }
        ensures err { OnErr result (out.new ≡ out.old) }
    {
        let size = self.millionths.unsigned_abs();
        let sign = if self.millionths < 0 { "-" } else { "" };
        let whole = (size / 1_000_000) as u64;
        let six = six_digits((size % 1_000_000) as u32);
        let decimals = str::from_utf8(short(&six)).unwrap();
        out.push(&format!(in out.allocator(); "{sign}{whole}.{decimals}")?)
    }
}

impl Ratio {
    /// Appends the value rounded down to six decimals, as a [`Decimal`] is written. Where memory runs
    /// out, nothing is appended.
    pub fn write(&self, out: &mut Text) -> Result<(), OutOfMemory>
        ensures ok { OnOk result (out.new ≡ out.old ++ decimal_text (pos (self.now.num * 1_000_000 / self.now.den))) }
        ensures err { OnErr result (out.new ≡ out.old) }
    {
        let millionths = self.num as u64 * 1_000_000 / self.den as u64;
        Decimal {
            millionths: millionths as i128,
        }
        .write(out)
    }
}
