//! What the definitions of a pattern list say together, and the order of names.
ghost use Rattle.std.specs.Prelude.{◌≡◌, ℕ, List, Result};
ghost use Rattle.list_laws.specs.Only.{IsOnly};
ghost use Rattle.channel_globs.specs.PatternText.{IsPatternList, IsListFault};
ghost use Rattle.channel_globs.specs.Names.{name_cmp};
ghost use Rattle.channel_globs.specs.declared.nslc.Nslc.{Nslc};
ghost use Rattle.channel_globs.specs.declared.nslc.Part.{Part};
ghost use Rattle.channel_globs.specs.declared.patterns.GlobFault.{GlobFault};

use crate::nslc::Nslc;
use std::cmp::Ordering;

/// Every text is exactly one list of patterns, or has exactly one fault.
pub fn a_text_is_one_list_or_one_fault()
    ensures { (part : Part) (text : List ℕ)
        → (answer : Result (List (List ℕ)) GlobFault) × IsOnly (IsPatternList part text) (IsListFault part text) answer }
{}

/// Names are ordered by their network, station, location and channel, each by its bytes, and names that
/// stand equal are one name.
pub fn names_are_in_order_of_their_fields()
    ensures order { (a b : Nslc) → ⟦<Nslc as Ord>⟧.cmp a b ≡ name_cmp a b }
    ensures equal { (a b : Nslc) → ⟦<Nslc as Ord>⟧.cmp a b ≡ Ordering.Equal → a ≡ b }
{}
