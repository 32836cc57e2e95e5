//! The laws of the live lines.
ghost use Rattle.std.specs.Prelude.{◌≡◌, ◌↔◌, ◌++◌, List, Contains, true};
ghost use Rattle.std.specs.List.Sorted.{IsStrictlySortedBy};
ghost use Rattle.epochs.specs.Fields.{is_user_name};
ghost use Rattle.epochs.specs.Kinds.{Text};
ghost use Rattle.epochs.specs.Lines.{LineValues};
ghost use Rattle.epoch_rules.specs.KeyOrder.{line_cmp};
ghost use Rattle.epoch_rules.specs.LiveLines.{live_lines};
ghost use Rattle.epoch_catalog.specs.LiveLaw.{IsLive};
ghost use Rattle.epoch_rules.specs.Catalog.{IsCatalog, is_user};
ghost use Rattle.epoch_rules.specs.Kept.{AreKept};

/// What is live after some lines and then others is what is live after them all: lines that were replaced
/// or deleted are needed no more.
pub fn live_lines_go_on()
    ensures { (lines later : List LineValues) → live_lines (live_lines lines ++ later) ≡ live_lines (lines ++ later) }
{}

/// The live lines are strictly in order of their keys. A line is live exactly if it is one of the lines,
/// isn't a deletion, and no later line has its key.
pub fn live_lines_in_the_subjects_words()
    ensures rises { (lines : List LineValues) → IsStrictlySortedBy line_cmp (live_lines lines) }
    ensures members { (lines : List LineValues) (e : LineValues) → Contains (live_lines lines) e ↔ IsLive lines e }
{}

/// Lines that keep the rules over live lines make live lines again that keep them.
pub fn kept_lines_keep_a_catalog()
    ensures { (live lines : List LineValues) → IsCatalog live → AreKept live lines → IsCatalog (live_lines (live ++ lines)) }
{}

/// Of a user's name a catalog has one line at most.
pub fn a_name_is_that_of_one_user()
    ensures { (live : List LineValues) (name : Text) → IsCatalog live → is_user_name name ≡ true → (e d : LineValues)
        → Contains live e → Contains live d → is_user name e ≡ true → is_user name d ≡ true → e ≡ d }
{}
