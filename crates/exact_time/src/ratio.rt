ghost use Rattle.std.specs.Prelude.{◌≡◌, ◌<◌, ◌≤◌};
ghost use Rattle.std.specs.Int.{IsGcd};
ghost use Rattle.exact_time.specs.Rate.{IsLowest, IsFraction, seed_rate};

/// A rate in samples per second (Hz): `num / den` in lowest terms, both at most 2^30. Zero is 0/1.
#[derive(Clone, Copy, Debug, PartialEq, Eq)]
pub struct Ratio {
    pub num: u32,
    pub den: u32,
    pub ghost num_in: { num ≤ 1_073_741_824 },
    pub ghost den_in: { den ≤ 1_073_741_824 },
    pub ghost above: { 0 < den },
    pub ghost lowest: { IsLowest num den },
}

// The greatest common divisor, by Euclid.
fn gcd(a: u32, b: u32) -> u32
    ensures { IsGcd a b result }
{
    let mut x = a;
    let mut y = b;
    'remainders: while y != 0 {
        let rest = x % y;
        x = y;
        y = rest;
    }
    x
}

impl Ratio {
    fn reduced(num: u32, den: u32) -> Ratio
        requires num_in { num ≤ 1_073_741_824 }
        requires den_in { den ≤ 1_073_741_824 }
        requires above { 0 < den }
        ensures { IsFraction result.num result.den (num, den) }
    {
        let common = gcd(num, den);
        Ratio {
            num: num / common,
            den: den / common,
        }
    }

    /// The rate of a record's header, from its sample rate factor and multiplier: a positive one
    /// multiplies, a negative one divides, and a zero gives rate 0 (SEED 2.4, fixed section of data
    /// header, fields 10 and 11).
    pub fn of(factor: i16, multiplier: i16) -> Ratio
        ensures { IsFraction result.num result.den (seed_rate factor multiplier) }
    {
        if factor == 0 || multiplier == 0 {
            return Ratio::reduced(0, 1);
        }
        let f = factor.unsigned_abs() as u32;
        let m = multiplier.unsigned_abs() as u32;
        match (factor > 0, multiplier > 0) {
            (true, true) => Ratio::reduced(f * m, 1),
            (true, false) => Ratio::reduced(f, m),
            (false, true) => Ratio::reduced(m, f),
            (false, false) => Ratio::reduced(1, f * m),
        }
    }
}
