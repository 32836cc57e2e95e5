ghost use Rattle.std.specs.Prelude.{◌≡◌, ◌-◌, ◌^◌, ◌<◌, ◌≤◌, ◌==◌, true, unsigned_abs, length, position, IfSome, IfOk};
ghost use Rattle.std.specs.Str.Parse.{digits_value};
ghost use Rattle.list_laws.specs.Only.{IsOnly};
ghost use Rattle.exact_time.specs.MomentText.{point};
ghost use Rattle.exact_time.specs.Decimals.{IsDecimal, RefusesDecimal, whole_of};
ghost use Rattle.exact_time.specs.DecimalSteps.{are_digits, parts_of, unsigned_of, decimal_of};

use crate::TimeFault;

/// A number in millionths, with at most 18 digits before the point.
#[derive(Clone, Copy, Debug, PartialEq, Eq)]
pub struct Decimal {
    pub millionths: i128,
    pub ghost millionths_in: { unsigned_abs millionths < 1_000_000_000_000_000_000_000_000 },
}

/// Whether each byte is a digit, `0` to `9`.
pub fn are_digits(text: &[u8]) -> bool
    ensures { result ≡ are_digits text.now }
{
    text.iter().all(|byte| byte.is_ascii_digit())
}

/// The number that at most 19 digits stand for.
pub fn number_of(digits: &[u8]) -> u64
    requires digits { are_digits digits.now ≡ true }
    requires short { length digits.now ≤ 19 }
    ensures value { result ≡ digits_value 10 digits.now }
    ensures bound { result < 10 ^ length digits.now }
{
    let mut number = 0u64;
    'digits: for digit in digits {
        number = number * 10 + u64::from(*digit - b'0');
    }
    number
}

/// The whole number that a text of 1 to 19 digits stands for.
pub fn whole_number(text: &[u8]) -> Option<u64>
    ensures { result ≡ whole_of text.now }
{
    if text.is_empty() || text.len() > 19 || !are_digits(text) {
        return None;
    }
    Some(number_of(text))
}

// How many millionths one stands for in the last of so many decimals.
fn scale(decimals: usize) -> u64
    requires { decimals ≤ 6 }
    ensures value { result ≡ 10 ^ (6 - decimals) }
    ensures bound { result ≤ 1_000_000 }
{
    match decimals {
        0 => 1_000_000,
        1 => 100_000,
        2 => 10_000,
        3 => 1_000,
        4 => 100,
        5 => 10,
        _ => 1,
    }
}

// The millionths of the digits before the point and those behind it.
fn parts_in(whole: &[u8], decimals: &[u8]) -> Result<u128, TimeFault>
    ensures value { result ≡ parts_of whole.now decimals.now }
    ensures bound { IfOk result (λ n. n < 10 ^ 24) }
{
    if whole.is_empty() || decimals.len() > 6 || !are_digits(whole) || !are_digits(decimals) {
        return Err(TimeFault::Form);
    }
    if whole.len() > 18 {
        return Err(TimeFault::Range);
    }
    let rest = number_of(decimals) * scale(decimals.len());
    Ok(u128::from(number_of(whole)) * 1_000_000 + u128::from(rest))
}

// The place of the first point.
fn point_in(text: &[u8]) -> Option<usize>
    ensures value { result ≡ position (λ c. c == point) text.now }
    ensures within { IfSome result (λ i. i < length text.now) }
{
    text.iter().position(|byte| *byte == b'.')
}

// The millionths of a decimal without a sign.
fn unsigned_in(text: &[u8]) -> Result<u128, TimeFault>
    ensures value { result ≡ unsigned_of text.now }
    ensures bound { IfOk result (λ n. n < 10 ^ 24) }
{
    let Some(point) = point_in(text) else {
        return parts_in(text, &[]);
    };
    if point + 1 == text.len() {
        return Err(TimeFault::Form);
    }
    parts_in(&text[..point], &text[point + 1..])
}

// The millionths of a decimal.
fn millionths_in(text: &[u8]) -> Result<i128, TimeFault>
    ensures value { result ≡ decimal_of text.now }
    ensures bound { IfOk result (λ n. unsigned_abs n < 10 ^ 24) }
{
    match text {
        [b'-', rest @ ..] => Ok(-(unsigned_in(rest)? as i128)),
        [b'+', rest @ ..] => Ok(unsigned_in(rest)? as i128),
        _ => Ok(unsigned_in(text)? as i128),
    }
}

impl Decimal {
    /// The number that a text names: an optional sign, 1 or more digits, and then, if wanted, a point
    /// and 1 to 6 digits. `Form` where the text has another form, then `Range` where more than 18
    /// digits stand before the point, leading zeros counted.
    pub fn read(text: &[u8]) -> Result<Decimal, TimeFault>
        ensures exact { IsOnly (λ d. IsDecimal text.now d.millionths) (RefusesDecimal text.now) result }
    {
        let millionths = millionths_in(text)?;
        Ok(Decimal { millionths })
    }
}
