//! The laws of the chosen and of the picked places, of rows put in together, of names and of spans.
ghost use Rattle.std.specs.Prelude.{◌≡◌, ◌↔◌, ℕ, ◌≤◌, ◌<◌, Bool, true, false, List, ◌++◌, length, Some, Any, Contains};
ghost use Rattle.std.specs.List.{slice_get};
ghost use Rattle.std.specs.List.Sorted.{IsStrictlySortedBy};
ghost use Rattle.channel_globs.specs.Names.{name_cmp};
ghost use Rattle.channel_globs.specs.declared.nslc.Nslc.{Nslc};
ghost use Rattle.mseed_header.specs.declared.row.Row.{Row};
ghost use Rattle.dataselect.specs.declared.query.DataQuery.{DataQuery};
ghost use Rattle.dataselect.specs.declared.query.Selection.{Selection};
ghost use Rattle.dataselect.specs.Chosen.{asked_rows, chosen_places};
ghost use Rattle.dataselect.specs.HeldNames.{names_of};
ghost use Rattle.dataselect.specs.Law.{AreChosen, IsNamedBy};
ghost use Rattle.dataselect.specs.Picked.{picked_places};
ghost use Rattle.dataselect.specs.PickedLaw.{ArePicked};
ghost use Rattle.dataselect.specs.DataBody.{answer_of};
ghost use Rattle.dataselect.specs.Rows.{held_rows, with_rows};
ghost use Rattle.dataselect.specs.Spans.{Merging, groups_of, rows_in_order, runs_in_group};
ghost use Rattle.dataselect.specs.SpanLaw.{run_at, AreOneGroup, StartsRise, IsCovered, FollowOn};

/// Of the chosen places, whatever is seen and asked for: they are strictly in order of name, quality
/// letter, start, entry, place and place in the shelf, and a place is among them exactly where its row
/// is seen, has the asked quality, and is named by some selection whose window it meets.
pub fn chosen_in_the_subjects_words()
    ensures { (seen : Row → Bool) (query : DataQuery) (rows : List Row)
        → AreChosen seen query rows (chosen_places seen query rows) }
{}

/// Of the picked places, whatever is seen and asked for: the chosen places are cut into segments exactly
/// where a row doesn't follow the one before it. Those of the segments that are kept are picked, in their
/// order. A segment is kept exactly where it is long enough, and where the longest are asked for, no long
/// segment of its name is longer and none before it is as long. A query that asks for no least length and
/// not for the longest picks all that are chosen.
pub fn picked_in_the_subjects_words()
    ensures picked { (seen : Row → Bool) (query : DataQuery) (rows : List Row)
        → ArePicked query rows (chosen_places seen query rows) (picked_places seen query rows) }
    ensures all { (seen : Row → Bool) (query : DataQuery) (rows : List Row) → query.minimum ≡ 0 → query.longest ≡ false
        → picked_places seen query rows ≡ chosen_places seen query rows }
{}

/// Rows that a query doesn't ask for decide nothing, whatever is seen: the answer over all rows is that over
/// those that are asked for. So whoever answers one query needs no others.
pub fn rows_that_are_asked_for_decide()
    ensures { (seen : Row → Bool) (query : DataQuery) (max_bytes : ℕ) (rows : List Row)
        → answer_of seen query max_bytes (held_rows rows) ≡ answer_of seen query max_bytes (held_rows (asked_rows query rows)) }
{}

/// Rows that are put in together are those that are held of all rows.
pub fn rows_put_in_together_are_held()
    ensures { (rows more : List Row) → with_rows (held_rows rows) more ≡ held_rows (rows ++ more) }
{}

/// Of the names that a selection asks for: they are strictly in order, and a name is among them exactly where
/// the selection names it and some row has it.
pub fn names_in_the_subjects_words()
    ensures ordered { (s : Selection) (rows : List Row) → IsStrictlySortedBy name_cmp (names_of s rows) }
    ensures members { (s : Selection) (rows : List Row) (name : Nslc)
        → Contains (names_of s rows) name ↔ (IsNamedBy s name × Any (λ row. row.header.name ≡ name) rows) }
{}

/// Of rows in order, two are in one group exactly where they have the same name, and the same quality and
/// rate unless these are merged. Of the rows of a group in order of their starts, two are in one span exactly
/// where no moment between them is left uncovered by more than half a sample period or the gap that is
/// allowed. Where overlaps aren't merged: exactly where each row between them follows the one before it,
/// neither too late nor too early.
pub fn spans_in_the_subjects_words()
    ensures groups { (m : Merging) (test : Row → Bool) (rows : List Row) (i j : ℕ) (a b : Row) → i ≤ j
        → slice_get (rows_in_order m test rows) i ≡ Some a → slice_get (rows_in_order m test rows) j ≡ Some b
        → (run_at (groups_of m (λ row. row.header) (rows_in_order m test rows)) i ≡ run_at (groups_of m (λ row. row.header) (rows_in_order m test rows)) j)
        ↔ AreOneGroup m a.header b.header }
    ensures merged { (m : Merging) → m.overlap ≡ true → (rows : List Row) → StartsRise rows
        → (i j : ℕ) (a b : Row) → i ≤ j → slice_get rows i ≡ Some a → slice_get rows j ≡ Some b
        → (run_at (runs_in_group m (λ row. row.header) rows) i ≡ run_at (runs_in_group m (λ row. row.header) rows) j)
        ↔ IsCovered m.gap rows a.header.start.micros b.header.start.micros }
    ensures unmerged { (m : Merging) → m.overlap ≡ false → (rows : List Row) (i j : ℕ) → i ≤ j → j < length rows
        → (run_at (runs_in_group m (λ row. row.header) rows) i ≡ run_at (runs_in_group m (λ row. row.header) rows) j)
        ↔ FollowOn m.gap rows i j }
{}
