//! The order of rates.
ghost use Rattle.std.specs.Prelude.{◌≡◌, ◌*◌, ◌≤◌, Some, refl};
ghost use Rattle.exact_time.specs.RateOrder.{rate_cmp, rates_total, rates_tied, rates_partial};

use crate::Ratio;
use std::cmp::Ordering;

// A numerator times a divisor.
fn crossed(num: u32, den: u32) -> u64
    ensures { result ≡ num * den }
{
    num as u64 * den as u64
}

impl PartialOrd for Ratio {
    ghost partial_cmp = { λ a b. Some (rate_cmp a b) };

    ghost laws = { rates_partial };

    fn partial_cmp(&self, other: &Self) -> Option<Ordering> {
        Some(self.cmp(other))
    }
}

/// Rates are ordered by their values.
impl Ord for Ratio {
    ghost cmp = { rate_cmp };

    ghost total = { rates_total };

    ghost matches_partial_cmp = { λ a b. refl };

    ghost matches_eq = { rates_tied };

    fn cmp(&self, other: &Self) -> Ordering {
        crossed(self.num, other.den).cmp(&crossed(other.num, self.den))
    }
}
