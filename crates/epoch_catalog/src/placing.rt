//! Live lines and a few new ones, put in one by one.
ghost use Rattle.std.specs.Prelude.{◌≡◌, ◌++◌, [], ◌∷◌, ◌+◌, ◌≤◌, ◌<◌, true, map, take, drop, length, vec_len, vec_capacity, if◌then◌else◌};
ghost use Rattle.std.specs.List.{AllByRecursion};
ghost use Rattle.std.specs.List.Sorted.{IsStrictlySortedBy};
ghost use Rattle.epochs.specs.Views.{values_of_line};
ghost use Rattle.epoch_rules.specs.KeyOrder.{line_cmp};
ghost use Rattle.epoch_rules.specs.LiveLines.{is_said, live_lines};
ghost use Rattle.epoch_catalog.specs.Merging.{is_first};

use epoch_rules::{cmp_keys, count_below, is_said, key_view};
use epochs::Line;
use std::mem::replace;

// Lines go by `drop` alone: where a body's end lets one go, the check follows each kind of line apart.

// Whether the first line has a head's key.
fn is_first(live: &[Line], head: &Line) -> bool
    ensures { result ≡ is_first (map values_of_line live.now) (values_of_line head.now) }
{
    match live.first() {
        Some(line) => cmp_keys(head, line).is_eq(),
        None => false,
    }
}

// Takes out the line at a place.
fn take_out(live: &mut Vec<Line>, place: usize)
    requires { place < vec_len live.old }
    ensures lines { live.new.items ≡ take place live.old.items ++ drop (place + 1) live.old.items }
    ensures len { vec_len live.new ≤ vec_len live.old }
    ensures capacity { vec_capacity live.new ≡ vec_capacity live.old }
{
    drop(live.remove(place));
}

// Puts a line in the place of another.
fn put_over(live: &mut Vec<Line>, place: usize, line: Line)
    requires { place < vec_len live.old }
    ensures lines { live.new.items ≡ take place live.old.items ++ line ∷ drop (place + 1) live.old.items }
    ensures len { vec_len live.new ≤ vec_len live.old }
    ensures capacity { vec_capacity live.new ≡ vec_capacity live.old }
{
    drop(replace(&mut live[place], line));
}

// Puts a line before others, for which there is room.
fn put_between(live: &mut Vec<Line>, place: usize, line: Line)
    requires within { place ≤ vec_len live.old }
    requires room { vec_len live.old < vec_capacity live.old }
    ensures lines { live.new.items ≡ take place live.old.items ++ line ∷ drop place live.old.items }
    ensures len { vec_len live.new ≡ vec_len live.old + 1 }
    ensures capacity { vec_capacity live.new ≡ vec_capacity live.old }
{
    drop(live.insert(place, line));
}

// Puts a head in the place of a line, or a deletion takes that out.
fn put_first(live: &mut Vec<Line>, place: usize, head: Line)
    requires { place < vec_len live.old }
    ensures lines { live.new.items ≡ take place live.old.items ++ (if is_said (values_of_line head) then head ∷ [] else []) ++ drop (place + 1) live.old.items }
    ensures len { vec_len live.new ≤ vec_len live.old }
    ensures capacity { vec_capacity live.new ≡ vec_capacity live.old }
{
    if is_said(&head) {
        put_over(live, place, head);
    } else {
        take_out(live, place);
        drop(head);
    }
}

// Puts a head before others, for which there is room; a deletion of nothing leaves them.
fn put_before(live: &mut Vec<Line>, place: usize, head: Line)
    requires within { place ≤ vec_len live.old }
    requires room { vec_len live.old < vec_capacity live.old }
    ensures lines { live.new.items ≡ take place live.old.items ++ (if is_said (values_of_line head) then head ∷ [] else []) ++ drop place live.old.items }
    ensures len { vec_len live.new ≤ vec_len live.old + 1 }
    ensures capacity { vec_capacity live.new ≡ vec_capacity live.old }
{
    if is_said(&head) {
        put_between(live, place, head);
    } else {
        drop(head);
    }
}

// Puts in a head where it belongs, for which there is room.
fn put_one(live: &mut Vec<Line>, head: Line)
    requires rises { IsStrictlySortedBy line_cmp (map values_of_line live.old.items) }
    requires states { AllByRecursion (λ l. is_said l ≡ true) (map values_of_line live.old.items) }
    requires room { vec_len live.old < vec_capacity live.old }
    ensures lines { map values_of_line live.new.items ≡ live_lines (map values_of_line live.old.items ++ values_of_line head ∷ []) }
    ensures len { vec_len live.new ≤ vec_len live.old + 1 }
    ensures capacity { vec_capacity live.new ≡ vec_capacity live.old }
{
    let place = count_below(live, key_view(&head));
    if is_first(&live[place..], &head) {
        put_first(live, place, head);
    } else {
        put_before(live, place, head);
    }
}

/// Puts in heads one by one, for which there is room.
pub fn put_all(live: &mut Vec<Line>, heads: &mut Vec<Line>)
    requires rises { IsStrictlySortedBy line_cmp (map values_of_line live.old.items) }
    requires states { AllByRecursion (λ l. is_said l ≡ true) (map values_of_line live.old.items) }
    requires room { vec_len live.old + vec_len heads.old ≤ vec_capacity live.old }
    ensures lines { map values_of_line live.new.items ≡ live_lines (map values_of_line live.old.items ++ map values_of_line heads.old.items) }
    ensures len { vec_len live.new ≤ vec_len live.old + vec_len heads.old }
{
    heads.reverse();
    'heads: while let Some(head) = heads.pop() {
        put_one(live, head);
    }
}
