//! Definitions and lemmas on lists that several crates cite, and the public laws about them. No code
//! here runs: each function has an empty body, and its contract is a law.
//!
//! `specs/Faults.antt`: the first element of a list that a reader refuses. `specs/Runs.antt`: a run of
//! steps over a list, where a step may depend on those before it. `specs/InOrder.antt`: keys put in
//! order, each once. `specs/Breaks.antt`: a list cut into runs where an item breaks after those before it.
//! `specs/Mending.antt`: spans that are kept merged. `specs/Greater.antt` and `specs/Fractions.antt`: the
//! greater of two, and the order of fractions.
#![tactic(auto)]

ghost use Rattle.std.specs.Prelude.{◌≡◌, ℕ, ◌<◌, ℤ, Bool, true, List, [], ◌∷◌, ◌++◌, Result, Ok, Err};
ghost use Rattle.std.specs.Cmp.{IsTotalOrder};
ghost use Rattle.std.specs.Int.{int_min, int_max};
ghost use Rattle.std.specs.List.{list_any};
ghost use Rattle.std.specs.List.Sorted.{IsStrictlySortedBy};
ghost use Rattle.std.specs.Ordering.{eq_by_cmp};
ghost use Rattle.std.specs.declared.cmp.Ordering.TheVariants.{Equal};
ghost use Rattle.list_laws.specs.Fractions.{cross_cmp};
ghost use Rattle.list_laws.specs.Greater.{greater};
ghost use Rattle.list_laws.specs.InOrder.{in_order};
ghost use Rattle.list_laws.specs.Mending.{IsForward, AreSpread, mend};
ghost use Rattle.list_laws.specs.Runs.{run_from, IsFirstRefused};

/// Of a run of steps: where it is refused, the first refused element decides, and each before it was
/// taken.
pub fn first_refused_decides<S, A, E>()
    ensures { (step : ℕ → S → A → Result S E) (n : ℕ) (s : S) (xs : List A) (fault : E)
        → run_from step n s xs ≡ Err fault → IsFirstRefused step n s xs fault }
{}

/// Of a run of steps: what holds at the start, and what each step keeps, holds in the end.
pub fn steps_keep<S, A, E>()
    ensures { (step : ℕ → S → A → Result S E) (holds : List A → S → Bool)
        → ((n : ℕ) (before : List A) (x : A) (s t : S) → holds before s ≡ true → step n s x ≡ Ok t → holds (before ++ x ∷ []) t ≡ true)
        → (n : ℕ) (before : List A) (s t : S) (xs : List A)
        → holds before s ≡ true → run_from step n s xs ≡ Ok t → holds (before ++ xs) t ≡ true }
{}

/// Of keys put in order: they are strictly in order, and they are the keys that were given. Which keys
/// there are decides the order, however often and in whatever order they were given.
pub fn members_decide_the_order<K: Ord>()
    ensures sorted { (keys : List K) → IsStrictlySortedBy K.cmp (in_order K.cmp [] keys) }
    ensures members { ((x y : K) → K.cmp x y ≡ Equal → x ≡ y) → (test : K → Bool) (keys : List K)
        → list_any test (in_order K.cmp [] keys) ≡ list_any test keys }
    ensures decided { ((x y : K) → K.cmp x y ≡ Equal → x ≡ y) → (xs ys : List K)
        → ((key : K) → list_any (eq_by_cmp K.cmp key) xs ≡ list_any (eq_by_cmp K.cmp key) ys)
        → in_order K.cmp [] xs ≡ in_order K.cmp [] ys }
{}

/// Of spans that are kept merged: they stay in order and apart, and in which order two more go in makes no
/// difference, where a join has the least start and the greatest reach.
pub fn spans_go_in_in_any_order<S>()
    ensures { (start reach : S → ℤ) (join : S → S → S)
        → ((a b : S) → join a b ≡ join b a) → ((a b c : S) → join (join a b) c ≡ join a (join b c))
        → ((a b : S) → start (join a b) ≡ int_min (start a) (start b))
        → ((a b : S) → reach (join a b) ≡ int_max (reach a) (reach b))
        → (s x : S) (ts : List S) → IsForward start reach s → IsForward start reach x → AreSpread start reach ts
        → (AreSpread start reach (mend start reach join s ts))
        × (mend start reach join s (mend start reach join x ts) ≡ mend start reach join x (mend start reach join s ts)) }
{}

/// Of two under an order the greater: which of them comes first makes no difference.
pub fn the_greater_is_one<K: Ord>()
    ensures { ((x y : K) → K.cmp x y ≡ Equal → x ≡ y) → (a b c : K)
        → (greater K.cmp a b ≡ greater K.cmp b a) × (greater K.cmp (greater K.cmp a b) c ≡ greater K.cmp a (greater K.cmp b c)) }
{}

/// Fractions are in one order by cross multiplication.
pub fn fractions_are_in_order<K>()
    ensures { (num den : K → ℕ) → ((k : K) → 0 < den k) → IsTotalOrder (cross_cmp num den) }
{}
