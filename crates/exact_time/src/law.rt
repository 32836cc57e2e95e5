//! What the definitions of times and numbers say of every text, and the order of rates.
ghost use Rattle.std.specs.Prelude.{◌≡◌, ℕ, ℤ, List, Result};
ghost use Rattle.list_laws.specs.Only.{IsOnly};
ghost use Rattle.exact_time.specs.Decimals.{IsDecimal, RefusesDecimal};
ghost use Rattle.exact_time.specs.MomentText.{IsMoment, RefusesMoment};
ghost use Rattle.exact_time.specs.RateOrder.{rate_cmp};
ghost use Rattle.exact_time.specs.declared.moment.Moment.{Moment};
ghost use Rattle.exact_time.specs.declared.moment.TimeFault.{TimeFault};
ghost use Rattle.exact_time.specs.declared.ratio.Ratio.{Ratio};

use crate::Ratio;
use std::cmp::Ordering;

/// Every text names exactly one moment or has exactly one fault, and the same of numbers.
pub fn a_text_is_one_value_or_one_fault()
    ensures moments { (text : List ℕ)
        → (answer : Result Moment TimeFault) × IsOnly (λ m. IsMoment text m.micros) (RefusesMoment text) answer }
    ensures numbers { (text : List ℕ)
        → (answer : Result ℤ TimeFault) × IsOnly (IsDecimal text) (RefusesDecimal text) answer }
{}

/// Rates are ordered by their values, by cross multiplication, and rates that stand equal are one rate.
pub fn rates_are_in_order_of_their_values()
    ensures order { (a b : Ratio) → ⟦<Ratio as Ord>⟧.cmp a b ≡ rate_cmp a b }
    ensures equal { (a b : Ratio) → ⟦<Ratio as Ord>⟧.cmp a b ≡ Ordering.Equal → a ≡ b }
{}
