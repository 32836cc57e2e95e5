//! What holds of every run.
ghost use Rattle.std.specs.Prelude.{◌≡◌, ℕ, ◌+◌, ◌≤◌, true, nat_le, List, length, filter};
ghost use mathlib.Core.List.{IsPrefix};
ghost use Rattle.follow_law.specs.Following.{World, Step, IsStart, after, coming, numbered_from};

/// From any start at which the replica is a first part of the primary, after every list of growths, replies, deliveries,
/// repeats, late deliveries, crashes amid a delivery and between them, it is one.
pub fn always_a_prefix<E>()
    ensures { (number : E → ℕ) (world : World E) (steps : List (Step E)) → IsStart number world
        → IsPrefix (after number world steps).replica (after number world steps).primary }
{}

/// Of entries whose numbers go on one by one from at most the wanted one, what comes next are all those whose numbers are
/// at least that.
pub fn a_replica_takes_what_is_missing<E>()
    ensures { (number : E → ℕ) (n wanted : ℕ) (es : List E) → numbered_from number n es ≡ true → n ≤ wanted
        → coming number wanted es ≡ filter (λ e. nat_le wanted (number e)) es }
{}
