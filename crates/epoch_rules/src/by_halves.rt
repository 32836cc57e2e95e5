//! Lines in the order of their keys, found by halves.
ghost use Rattle.std.specs.Prelude.{◌≡◌, ◌≤◌, filter, map, take, drop, length};
ghost use Rattle.std.specs.List.Sorted.{IsStrictlySortedBy};
ghost use Rattle.epochs.specs.Views.{values_of_line};
ghost use Rattle.epoch_rules.specs.KeyOrder.{line_cmp};
ghost use Rattle.epoch_rules.specs.KeyViews.{parts_of_view};
ghost use Rattle.epoch_rules.specs.Neighbours.{is_below_key, is_up_to_key, is_above_key, is_from_key, IsLastOf, IsFirstOf};
ghost use Rattle.epoch_rules.specs.Overlays.{left_of};

use crate::key_order::{KeyView, key_view};
use epochs::Line;
use std::collections::BTreeSet;

/// How many lines stand before a key.
pub fn count_below(lines: &[Line], key: KeyView<'_>) -> usize
    requires { IsStrictlySortedBy line_cmp (map values_of_line lines.now) }
    ensures within { result ≤ length lines.now }
    ensures before { map values_of_line (take result lines.now) ≡ filter (is_below_key (parts_of_view key.entry)) (map values_of_line lines.now) }
    ensures behind { map values_of_line (drop result lines.now) ≡ filter (is_from_key (parts_of_view key.entry)) (map values_of_line lines.now) }
{
    lines.partition_point(|line| key.cmp(&key_view(line)).is_gt())
}

/// How many lines stand before a key or at it.
pub fn count_up_to(lines: &[Line], key: KeyView<'_>) -> usize
    requires { IsStrictlySortedBy line_cmp (map values_of_line lines.now) }
    ensures within { result ≤ length lines.now }
    ensures before { map values_of_line (take result lines.now) ≡ filter (is_up_to_key (parts_of_view key.entry)) (map values_of_line lines.now) }
    ensures behind { map values_of_line (drop result lines.now) ≡ filter (is_above_key (parts_of_view key.entry)) (map values_of_line lines.now) }
{
    lines.partition_point(|line| key.cmp(&key_view(line)).is_ge())
}

/// The last line whose key isn't among some.
pub fn last_left<'a>(lines: &'a [Line], gone: &BTreeSet<KeyView<'a>>) -> Option<&'a Line>
    ensures { IsLastOf (left_of gone.now (map values_of_line lines.now)) result }
{
    let mut rest = lines;
    'lines: while let Some((line, before)) = rest.split_last() {
        if !gone.contains(&key_view(line)) {
            return Some(line);
        }
        rest = before;
    }
    None
}

/// The first line whose key isn't among some.
pub fn first_left<'a>(lines: &'a [Line], gone: &BTreeSet<KeyView<'a>>) -> Option<&'a Line>
    ensures { IsFirstOf (left_of gone.now (map values_of_line lines.now)) result }
{
    let mut rest = lines;
    'lines: while let Some((line, behind)) = rest.split_first() {
        if !gone.contains(&key_view(line)) {
            return Some(line);
        }
        rest = behind;
    }
    None
}
