//! Lines by their keys, and which stand next to a key.
ghost use Rattle.std.specs.Prelude.{◌≡◌, filter, map, IfOk};
ghost use Rattle.std.specs.List.Sorted.{IsStrictlySortedBy};
ghost use Rattle.epochs.specs.Views.{values_of_line};
ghost use Rattle.epoch_rules.specs.KeyOrder.{line_cmp};
ghost use Rattle.epoch_rules.specs.KeyViews.{parts_of_view};
ghost use Rattle.epoch_rules.specs.Neighbours.{is_below_key, is_up_to_key, is_above_key, is_from_key, IsLastOf, IsFirstOf};
ghost use Rattle.epoch_rules.specs.MapLines.{lines_in, AreKeyed};

use crate::key_order::{KeyView, key_view};
use epochs::Line;
use exact_time::OutOfMemory;
use std::alloc::Global;
use std::collections::BTreeMap;
use std::ops::Bound;

/// Lines by their keys.
pub type LinesByKey<'a> = BTreeMap<KeyView<'a>, &'a Line>;

/// Lines that are in the order of their keys, by their keys.
pub fn lines_by_key<'a>(alloc: Global, lines: &'a [Line]) -> Result<LinesByKey<'a>, OutOfMemory>
    requires { IsStrictlySortedBy line_cmp (map values_of_line lines.now) }
    ensures lines { IfOk result (λ by_key. lines_in by_key ≡ map values_of_line lines.now) }
    ensures keyed { IfOk result AreKeyed }
{
    let by_key = lines
        .iter()
        .map(|line| (key_view(line), line))
        .collect(alloc)?;
    Ok(by_key)
}

/// The last line before a key.
pub fn last_before<'a>(lines: &LinesByKey<'a>, key: KeyView<'a>) -> Option<&'a Line>
    requires { AreKeyed lines.now }
    ensures { IsLastOf (filter (is_below_key (parts_of_view key.entry)) (lines_in lines.now)) result }
{
    match lines.range(..key).next_back() {
        Some((_, line)) => Some(*line),
        None => None,
    }
}

/// The last line whose key isn't after that one.
pub fn last_up_to<'a>(lines: &LinesByKey<'a>, key: KeyView<'a>) -> Option<&'a Line>
    requires { AreKeyed lines.now }
    ensures { IsLastOf (filter (is_up_to_key (parts_of_view key.entry)) (lines_in lines.now)) result }
{
    match lines.range(..=key).next_back() {
        Some((_, line)) => Some(*line),
        None => None,
    }
}

/// The first line after a key.
pub fn first_after<'a>(lines: &LinesByKey<'a>, key: KeyView<'a>) -> Option<&'a Line>
    requires { AreKeyed lines.now }
    ensures { IsFirstOf (filter (is_above_key (parts_of_view key.entry)) (lines_in lines.now)) result }
{
    match lines.range((Bound::Excluded(key), Bound::Unbounded)).next() {
        Some((_, line)) => Some(*line),
        None => None,
    }
}

/// The first line whose key isn't before that one.
pub fn first_from<'a>(lines: &LinesByKey<'a>, key: KeyView<'a>) -> Option<&'a Line>
    requires { AreKeyed lines.now }
    ensures { IsFirstOf (filter (is_from_key (parts_of_view key.entry)) (lines_in lines.now)) result }
{
    match lines.range(key..).next() {
        Some((_, line)) => Some(*line),
        None => None,
    }
}
