ghost use Rattle.std.specs.Prelude.{◌≡◌, ℕ, ◌+◌, ◌-◌, ◌^◌, ◌<◌, ◌≤◌, ◌++◌, replicate, unsigned_abs, length, MatchOption, IfSome};
ghost use Rattle.std.specs.Option.{SomeIff};
ghost use Rattle.exact_time.specs.MomentText.{IsTwoAt, IsSixDigits, IsDateText, IsClockText, IsDecimals, IsTimeOfDay, IsMomentText, IsMomentDate, IsCivil, date_micros, civil_micros, without_zulu, zero_digit};
ghost use Rattle.exact_time.specs.declared.reading.CivilTime.{CivilTime};

use crate::Moment;
use crate::civil::clock;
use jiff::civil::Date;

/// The numbers of a text, which need not be those of a time.
#[derive(Clone, Copy)]
pub struct CivilTime {
    pub year: u16,
    pub month: u8,
    pub day: u8,
    pub hour: u8,
    pub minute: u8,
    pub second: u8,
    pub micros: u32,
}

// The number in the two digits at that place.
fn two_at(text: &[u8], at: usize) -> Option<u8>
    requires { at + 2 ≤ length text.now }
    ensures { MatchOption result ((n : ℕ) → ¬ (IsTwoAt text.now at n)) (λ n. IsTwoAt text.now at n) }
{
    let tens = text[at];
    let ones = text[at + 1];
    if tens < b'0' || tens > b'9' || ones < b'0' || ones > b'9' {
        return None;
    }
    Some((tens - b'0') * 10 + (ones - b'0'))
}

// The number in six digits.
fn six_digits_in(text: &[u8]) -> Option<u32>
    ensures { MatchOption result ((n : ℕ) → ¬ (IsSixDigits text.now n)) (λ n. IsSixDigits text.now n) }
{
    if text.len() != 6 {
        return None;
    }
    let high = two_at(text, 0)?;
    let middle = two_at(text, 2)?;
    let low = two_at(text, 4)?;
    Some(high as u32 * 10_000 + middle as u32 * 100 + low as u32)
}

// The year, month and day of a text YYYY-MM-DD.
fn date_in(text: &[u8]) -> Option<(u16, u8, u8)>
    ensures { MatchOption result ((y m d : ℕ) → ¬ (IsDateText text.now y m d)) (λ p. IsDateText text.now p.0 p.1 p.2) }
{
    if text.len() != 10 || text[4] != b'-' || text[7] != b'-' {
        return None;
    }
    let century = two_at(text, 0)?;
    let year = two_at(text, 2)?;
    let month = two_at(text, 5)?;
    let day = two_at(text, 8)?;
    Some((century as u16 * 100 + year as u16, month, day))
}

// The hour, minute and second of a text hh:mm:ss.
fn clock_in(text: &[u8]) -> Option<(u8, u8, u8)>
    ensures { MatchOption result ((h m s : ℕ) → ¬ (IsClockText text.now h m s)) (λ p. IsClockText text.now p.0 p.1 p.2) }
{
    if text.len() != 8 || text[2] != b':' || text[5] != b':' {
        return None;
    }
    let hour = two_at(text, 0)?;
    let minute = two_at(text, 3)?;
    let second = two_at(text, 6)?;
    Some((hour, minute, second))
}

// The digits, and zeros up to six.
fn filled(digits: &[u8]) -> [u8; 6]
    requires { length digits.now ≤ 6 }
    ensures { result ≡ digits.now ++ replicate (6 - length digits.now) zero_digit }
{
    let mut filled = *b"000000";
    filled[..digits.len()].copy_from_slice(digits);
    filled
}

// The microseconds of a point and decimals, or of nothing.
fn decimals_in(text: &[u8]) -> Option<u32>
    ensures { MatchOption result ((n : ℕ) → ¬ (IsDecimals text.now n)) (λ n. IsDecimals text.now n) }
{
    let [point, digits @ ..] = text else {
        return Some(0);
    };
    if *point != b'.' || digits.is_empty() || digits.len() > 6 {
        return None;
    }
    six_digits_in(&filled(digits))
}

// The text without one Z at its end.
fn before_zulu(text: &[u8]) -> &[u8]
    ensures { result.now ≡ without_zulu text.now }
{
    match text {
        [front @ .., b'Z'] => front,
        _ => text,
    }
}

// The hour, minute, second and microseconds of what follows a date.
fn time_of_day_in(text: &[u8]) -> Option<(u8, u8, u8, u32)>
    ensures { MatchOption result ((h m s n : ℕ) → ¬ (IsTimeOfDay text.now h m s n)) (λ p. IsTimeOfDay text.now p.0 p.1 p.2 p.3) }
{
    let [mark, time @ ..] = text else {
        return Some((0, 0, 0, 0));
    };
    if *mark != b'T' || time.len() < 8 {
        return None;
    }
    let (hour, minute, second) = clock_in(&time[..8])?;
    let micros = decimals_in(before_zulu(&time[8..]))?;
    Some((hour, minute, second, micros))
}

/// The numbers of a text of one of the two forms.
pub fn civil_time_in(text: &[u8]) -> Option<CivilTime>
    ensures { MatchOption result ((t : CivilTime) → ¬ (IsMomentText text.now t)) (IsMomentText text.now) }
{
    if text.len() < 10 {
        return None;
    }
    let (year, month, day) = date_in(&text[..10])?;
    let (hour, minute, second, micros) = time_of_day_in(&text[10..])?;
    Some(CivilTime {
        year,
        month,
        day,
        hour,
        minute,
        second,
        micros,
    })
}

// Microseconds from 1970-01-01 to the start of the day, if a text may name it.
fn day_micros(year: u16, month: u8, day: u8) -> Option<i64>
    requires year_in { year < 10_000 }
    requires month_in { month < 100 }
    requires day_in { day < 100 }
    ensures value { SomeIff result (IsMomentDate year month day) (date_micros year month day) }
    ensures bound { IfSome result (λ m. unsigned_abs m ≤ 2 ^ 60) }
{
    if year < 1900 || year > 2599 {
        return None;
    }
    match Date::new(year as i16, month as i8, day as i8) {
        Ok(date) => Some(date.to_plain().to_unix_epoch_day() as i64 * 86_400_000_000),
        Err(_) => None,
    }
}

/// The moment of a time's numbers, if they are those of one.
pub fn moment_of(time: CivilTime) -> Option<Moment>
    requires year_in { time.year < 10_000 }
    requires month_in { time.month < 100 }
    requires day_in { time.day < 100 }
    requires micros_in { time.micros < 1_000_000 }
    ensures { MatchOption result (¬ (IsCivil time)) (λ m. IsCivil time × (m.micros ≡ civil_micros time)) }
{
    if time.hour > 23 || time.minute > 59 || time.second > 59 {
        return None;
    }
    match day_micros(time.year, time.month, time.day) {
        Some(days) => {
            let time = clock(time.hour, time.minute, time.second, time.micros);
            Some(Moment {
                micros: days + time as i64,
            })
        }
        None => None,
    }
}
