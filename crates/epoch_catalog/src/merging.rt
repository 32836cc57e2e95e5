//! Live lines and new ones, merged.
ghost use Rattle.std.specs.Prelude.{◌≡◌, ◌++◌, List, [], ◌∷◌, ◌+◌, ◌≤◌, ◌<◌, ◌||◌, false, map, reverse, OnOk, IfOk, length, vec_len, vec_capacity, if◌then◌else◌};
ghost use Rattle.std.specs.List.{IsDistinct};
ghost use Rattle.std.specs.List.Sorted.{IsPermutation, IsStrictlySortedBy};
ghost use Rattle.std.specs.Ordering.{eq_by_cmp, is_gt};
ghost use Rattle.epochs.specs.Lines.{LineValues};
ghost use Rattle.epochs.specs.Views.{values_of_line};
ghost use Rattle.epoch_rules.specs.KeyOrder.{line_cmp, have_one_key};
ghost use Rattle.epoch_rules.specs.LiveLines.{is_said, last_lines, live_lines};
ghost use Rattle.epoch_rules.specs.Catalog.{IsCatalog};
ghost use Rattle.epoch_rules.specs.Overlays.{has_key};
ghost use Rattle.epoch_catalog.specs.Merging.{last_place, AreMoved, AreBefore};

use crate::copying::copy_line;
use crate::placing::put_all;
use epoch_rules::{KeyView, cmp_keys, is_said, key_view};
use epochs::Line;
use exact_time::OutOfMemory;
use std::alloc::Global;
use std::cmp::Ordering;
use std::collections::BTreeSet;

// Adds the key of a line, and the line where its key is new.
fn find_one<'a>(
    keys: &mut BTreeSet<KeyView<'a>>,
    heads: &mut Vec<&'a Line>,
    line: &'a Line,
) -> Result<(), OutOfMemory>
    ensures keys { OnOk result ((e : LineValues) → has_key keys.new e ≡ (have_one_key e (values_of_line line.now) || has_key keys.old e)) }
    ensures heads { OnOk result (map (λ head. values_of_line head.now) heads.new.items ≡ (if has_key keys.old (values_of_line line.now) then map (λ head. values_of_line head.now) heads.old.items else map (λ head. values_of_line head.now) heads.old.items ++ values_of_line line.now ∷ [])) }
{
    if keys.insert(key_view(line))? {
        heads.push(line)?;
    }
    Ok(())
}

// The last line of each key, found from the last line to the first.
fn find_heads<'a>(alloc: Global, lines: &'a [Line]) -> Result<Vec<&'a Line>, OutOfMemory>
    ensures { IfOk result (λ heads. map (λ head. values_of_line head.now) heads.items ≡ reverse (last_lines (map values_of_line lines.now))) }
{
    let mut keys = BTreeSet::new(alloc);
    let mut heads = Vec::new(alloc);
    let mut rest = lines;
    'lines: while let Some((line, before)) = rest.split_last() {
        find_one(&mut keys, &mut heads, line)?;
        rest = before;
    }
    Ok(heads)
}

// Copies of lines, deletions too.
fn copy_all(alloc: Global, heads: &[&Line]) -> Result<Vec<Line>, OutOfMemory>
    ensures { IfOk result (λ copies. map values_of_line copies.items ≡ map (λ head. values_of_line head.now) heads.now) }
{
    let mut copies = Vec::new(alloc);
    'heads: for head in heads {
        copies.push(copy_line(alloc, head)?)?;
    }
    Ok(copies)
}

// Puts lines of different keys in the order of their keys.
fn sort_heads(heads: &mut Vec<&Line>)
    requires { IsDistinct (eq_by_cmp line_cmp) (map (λ head. values_of_line head.now) heads.old.items) }
    ensures sorted { IsStrictlySortedBy line_cmp (map (λ head. values_of_line head.now) heads.new.items) }
    ensures moved { IsPermutation (map (λ head. values_of_line head.now) heads.old.items) (map (λ head. values_of_line head.now) heads.new.items) }
{
    heads.sort_unstable_by(|a, b| cmp_keys(a, b));
}

// Where the key of the last line stands to a head's; before it where there is no line.
fn place_last(live: &[Line], head: &Line) -> Ordering
    ensures { result ≡ last_place (map values_of_line live.now) (values_of_line head.now) }
{
    match live.split_last() {
        Some((line, _)) => cmp_keys(line, head),
        None => Ordering::Less,
    }
}

// Moves the lines of greater keys than a head's behind others, for which there is room, the last first.
fn move_behind(live: &mut Vec<Line>, behind: &mut Vec<Line>, head: &Line)
    requires { vec_len live.old + vec_len behind.old ≤ vec_capacity behind.old }
    ensures moved { AreMoved (values_of_line head.now) (map values_of_line live.old.items) (map values_of_line live.new.items) (map values_of_line behind.old.items) (map values_of_line behind.new.items) }
    ensures rest { is_gt (last_place (map values_of_line live.new.items) (values_of_line head.now)) ≡ false }
    ensures len { vec_len live.new + vec_len behind.new ≡ vec_len live.old + vec_len behind.old }
    ensures live_capacity { vec_capacity live.new ≡ vec_capacity live.old }
    ensures behind_capacity { vec_capacity behind.new ≡ vec_capacity behind.old }
{
    'moved: while place_last(live, head).is_gt() {
        behind.push_reserved(live.take_last());
    }
}

// Drops the last line where it has a head's key.
fn drop_same(live: &mut Vec<Line>, head: &Line)
    requires rises { IsStrictlySortedBy line_cmp (map values_of_line live.old.items) }
    requires rest { is_gt (last_place (map values_of_line live.old.items) (values_of_line head.now)) ≡ false }
    ensures before { AreBefore (values_of_line head.now) (map values_of_line live.old.items) (map values_of_line live.new.items) }
    ensures len { vec_len live.new ≤ vec_len live.old }
    ensures capacity { vec_capacity live.new ≡ vec_capacity live.old }
{
    if place_last(live, head).is_eq() {
        drop(live.take_last());
    }
}

// Puts a head behind other lines, for which there is room, where it isn't a deletion.
fn put_said(behind: &mut Vec<Line>, head: Line)
    requires { vec_len behind.old < vec_capacity behind.old }
    ensures lines { map values_of_line behind.new.items ≡ map values_of_line behind.old.items ++ (if is_said (values_of_line head) then values_of_line head ∷ [] else []) }
    ensures len { vec_len behind.new ≤ vec_len behind.old + 1 }
    ensures capacity { vec_capacity behind.new ≡ vec_capacity behind.old }
{
    if is_said(&head) {
        behind.push_reserved(head);
    } else {
        // Left to the body's end, it would be checked along each kind of line.
        drop(head);
    }
}

// Merges live lines and heads, both in the order of keys, from the last key to the first: what is less than
// each head stays, and the other lines go behind, the last first.
fn merge_heads(live: &mut Vec<Line>, heads: &mut Vec<Line>, behind: &mut Vec<Line>)
    requires catalog { IsCatalog (map values_of_line live.old.items) }
    requires rise { IsStrictlySortedBy line_cmp (map values_of_line heads.old.items) }
    requires empty { behind.old.items ≡ [] }
    requires room { vec_len live.old + vec_len heads.old ≤ vec_capacity behind.old }
    ensures lines { map values_of_line live.new.items ++ reverse (map values_of_line behind.new.items) ≡ live_lines (map values_of_line live.old.items ++ map values_of_line heads.old.items) }
    ensures len { vec_len live.new + vec_len behind.new ≤ vec_len live.old + vec_len heads.old }
    ensures capacity { vec_capacity live.new ≡ vec_capacity live.old }
{
    'heads: while let Some(head) = heads.pop() {
        move_behind(live, behind, &head);
        drop_same(live, &head);
        put_said(behind, head);
    }
}

// Puts lines behind others, the last first, for which there is room.
fn put_behind(lines: &mut Vec<Line>, more: &mut Vec<Line>)
    requires { vec_len lines.old + vec_len more.old ≤ vec_capacity lines.old }
    ensures { lines.new.items ≡ lines.old.items ++ reverse more.old.items }
{
    more.reverse();
    let _ = lines.append(more);
}

/// Copies of the last of some lines of each key, in the order of keys.
pub fn heads_of(alloc: Global, lines: &[Line]) -> Result<Vec<Line>, OutOfMemory>
    ensures rise { IfOk result (λ heads. IsStrictlySortedBy line_cmp (map values_of_line heads.items)) }
    ensures lines { IfOk result (λ heads. (live : List LineValues) → live_lines (live ++ map values_of_line heads.items) ≡ live_lines (live ++ map values_of_line lines.now)) }
{
    let mut heads = find_heads(alloc, lines)?;
    sort_heads(&mut heads);
    let copies = copy_all(alloc, &heads)?;
    Ok(copies)
}

// How many heads are put in one by one, each of which moves the lines behind it at most once. More are merged in a walk
// that moves all lines behind the first of them.
const FEW: usize = 4;

/// Makes live lines those after some heads, which are in the order of keys, and for which there is room, behind
/// other lines too. Takes no memory.
pub fn merge(live: &mut Vec<Line>, heads: &mut Vec<Line>, behind: &mut Vec<Line>)
    requires catalog { IsCatalog (map values_of_line live.old.items) }
    requires rise { IsStrictlySortedBy line_cmp (map values_of_line heads.old.items) }
    requires empty { behind.old.items ≡ [] }
    requires live_room { vec_len live.old + vec_len heads.old ≤ vec_capacity live.old }
    requires behind_room { vec_len live.old + vec_len heads.old ≤ vec_capacity behind.old }
    ensures lines { map values_of_line live.new.items ≡ live_lines (map values_of_line live.old.items ++ map values_of_line heads.old.items) }
    ensures few { length live.new.items ≤ length live.old.items + length heads.old.items }
{
    if heads.len() <= FEW {
        put_all(live, heads);
    } else {
        merge_heads(live, heads, behind);
        put_behind(live, behind);
    }
}
