//! What the rules say of any lines.
ghost use Rattle.std.specs.Prelude.{List};
ghost use Rattle.list_laws.specs.Only.{IsOnly};
ghost use Rattle.epochs.specs.Lines.{LineValues};
ghost use Rattle.epoch_rules.specs.Catalog.{IsCatalog};
ghost use Rattle.epoch_rules.specs.Kept.{AreKept, IsCheckFault, check_answer, first_broken};

/// Lines over a catalog all keep the rules, or exactly one line is the first that breaks one, and exactly
/// one rule is the first that it breaks: what `first_broken` says is the one right answer.
pub fn lines_are_kept_or_one_is_the_first_broken()
    ensures { (live lines : List LineValues) → IsCatalog live
        → IsOnly (λ _. AreKept live lines) (IsCheckFault live lines) (check_answer (first_broken live lines)) }
{}
