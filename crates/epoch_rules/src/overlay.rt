//! Lines laid over others.
ghost use Rattle.std.specs.Prelude.{◌≡◌, ◌+◌, ◌<◌, ◌^◌, true, false, not, filter, length, map, IfOk, OnOk};
ghost use Rattle.std.specs.List.{list_any};
ghost use Rattle.std.specs.List.Sorted.{IsStrictlySortedBy};
ghost use Rattle.std.specs.BTreeSet.{insert_key};
ghost use Rattle.epochs.specs.Views.{values_of_line};
ghost use Rattle.epoch_rules.specs.KeyOrder.{line_cmp, have_one_key};
ghost use Rattle.epoch_rules.specs.KeyViews.{parts_of_view};
ghost use Rattle.epoch_rules.specs.Neighbours.{is_at_key, is_below_key, is_up_to_key, is_above_key, is_from_key, IsLastOf, IsFirstOf, later_of, earlier_of, at_there};
ghost use Rattle.epoch_rules.specs.Overlays.{left_below, overlaid, IsOverlay};

use crate::by_halves::{count_below, count_up_to, first_left, last_left};
use crate::key_order::{KeyView, cmp_keys, key_view};
use crate::neighbours::{
    LinesByKey, first_after, first_from, last_before, last_up_to, lines_by_key,
};
use epochs::Line;
use exact_time::OutOfMemory;
use std::alloc::Global;
use std::collections::{BTreeMap, BTreeSet};

// Of two lines, where they are there, the one behind.
fn later<'a>(a: Option<&'a Line>, b: Option<&'a Line>) -> Option<&'a Line>
    ensures { result ≡ later_of a.entry b.entry }
{
    match (a, b) {
        (Some(first), Some(second)) if cmp_keys(first, second).is_lt() => b,
        (Some(_), _) => a,
        (None, _) => b,
    }
}

// Of two lines, where they are there, the one before.
fn earlier<'a>(a: Option<&'a Line>, b: Option<&'a Line>) -> Option<&'a Line>
    ensures { result ≡ earlier_of a.entry b.entry }
{
    match (a, b) {
        (Some(first), Some(second)) if !cmp_keys(first, second).is_lt() => b,
        (Some(_), _) => a,
        (None, _) => b,
    }
}

// A line, if it is there and has the key.
fn at_key<'a>(line: Option<&'a Line>, key: KeyView<'a>) -> Option<&'a Line>
    ensures { result ≡ at_there (parts_of_view key.entry) line.entry }
{
    match line {
        Some(found) if key.cmp(&key_view(found)).is_eq() => line,
        _ => None,
    }
}

/// Lines that were put in, laid over others, which are in the order of their keys and are looked up by halves.
#[derive(Drop)]
pub struct Overlay<'a> {
    base: &'a [Line],
    // The keys of the base whose lines were taken out.
    gone: BTreeSet<KeyView<'a>>,
    put: LinesByKey<'a>,
    count: usize,
}

impl<'a> Overlay<'a> {
    /// Lines in the order of their keys, with none laid over them.
    pub fn over(alloc: Global, lines: &'a [Line]) -> Overlay<'a>
        requires { IsStrictlySortedBy line_cmp (map values_of_line lines.now) }
        ensures lines { overlaid result ≡ map values_of_line lines.now }
        ensures overlay { IsOverlay result }
    {
        Overlay {
            base: lines,
            gone: BTreeSet::new(alloc),
            put: BTreeMap::new(alloc),
            count: lines.len(),
        }
    }

    /// Lines in the order of their keys, all laid over none, so that no look-up goes by halves.
    pub fn of(alloc: Global, lines: &'a [Line]) -> Result<Overlay<'a>, OutOfMemory>
        requires { IsStrictlySortedBy line_cmp (map values_of_line lines.now) }
        ensures lines { IfOk result (λ overlay. overlaid overlay ≡ map values_of_line lines.now) }
        ensures overlay { IfOk result IsOverlay }
    {
        Ok(Overlay {
            base: &[],
            gone: BTreeSet::new(alloc),
            put: lines_by_key(alloc, lines)?,
            count: lines.len(),
        })
    }

    /// How many lines there are; one more would fit.
    pub fn len(&self) -> usize
        requires { IsOverlay self.now }
        ensures len { result ≡ length (overlaid self.now) }
        ensures small { result + 1 < 2 ^ 64 }
    {
        // There are no more lines than both parts have, whose lengths fit.
        let _ = self.put.len();
        let _ = self.base.len();
        self.count
    }

    /// The last line before a key.
    pub fn last_before(&self, key: KeyView<'a>) -> Option<&'a Line>
        requires { IsOverlay self.now }
        ensures { IsLastOf (filter (is_below_key (parts_of_view key.entry)) (overlaid self.now)) result }
    {
        let count = count_below(self.base, key);
        later(
            last_left(&self.base[..count], &self.gone),
            last_before(&self.put, key),
        )
    }

    /// The last line whose key isn't after that one.
    pub fn last_up_to(&self, key: KeyView<'a>) -> Option<&'a Line>
        requires { IsOverlay self.now }
        ensures { IsLastOf (filter (is_up_to_key (parts_of_view key.entry)) (overlaid self.now)) result }
    {
        let count = count_up_to(self.base, key);
        later(
            last_left(&self.base[..count], &self.gone),
            last_up_to(&self.put, key),
        )
    }

    /// The first line after a key.
    pub fn first_after(&self, key: KeyView<'a>) -> Option<&'a Line>
        requires { IsOverlay self.now }
        ensures { IsFirstOf (filter (is_above_key (parts_of_view key.entry)) (overlaid self.now)) result }
    {
        let count = count_up_to(self.base, key);
        earlier(
            first_left(&self.base[count..], &self.gone),
            first_after(&self.put, key),
        )
    }

    /// The first line whose key isn't before that one.
    pub fn first_from(&self, key: KeyView<'a>) -> Option<&'a Line>
        requires { IsOverlay self.now }
        ensures { IsFirstOf (filter (is_from_key (parts_of_view key.entry)) (overlaid self.now)) result }
    {
        let count = count_below(self.base, key);
        earlier(
            first_left(&self.base[count..], &self.gone),
            first_from(&self.put, key),
        )
    }

    /// The line of a key.
    pub fn line_at(&self, key: KeyView<'a>) -> Option<&'a Line>
        requires { IsOverlay self.now }
        ensures { IsFirstOf (filter (is_at_key (parts_of_view key.entry)) (overlaid self.now)) result }
    {
        at_key(self.first_from(key), key)
    }

    /// Whether a line has the key.
    pub fn contains_key(&self, key: KeyView<'a>) -> bool
        requires { IsOverlay self.now }
        ensures { result ≡ list_any (is_at_key (parts_of_view key.entry)) (overlaid self.now) }
    {
        self.line_at(key).is_some()
    }

    /// Puts in a line whose key isn't there.
    pub fn insert(&mut self, line: &'a Line) -> Result<(), OutOfMemory>
        requires overlay { IsOverlay self.old }
        requires absent { list_any (have_one_key (values_of_line line.now)) (overlaid self.old) ≡ false }
        ensures lines { OnOk result (overlaid self.new ≡ insert_key line_cmp (overlaid self.old) (values_of_line line.now)) }
        ensures overlay { OnOk result (IsOverlay self.new) }
    {
        let count = self.len();
        self.put.insert(key_view(line), line)?;
        self.count = count + 1;
        Ok(())
    }

    // Takes out the line of a line's key below, if it is there.
    fn remove_below(&mut self, line: &'a Line) -> Result<(), OutOfMemory>
        ensures left { OnOk result (left_below self.new ≡ filter (λ l. not (have_one_key (values_of_line line.now) l)) (left_below self.old)) }
        ensures base { OnOk result (self.new.base ≡ self.old.base) }
        ensures put { OnOk result (self.new.put ≡ self.old.put) }
        ensures count { OnOk result (self.new.count ≡ self.old.count) }
    {
        if self.base.is_empty() {
            return Ok(());
        }
        self.gone.insert(key_view(line))?;
        Ok(())
    }

    /// Takes out the line of a line's key, which is there.
    pub fn remove(&mut self, line: &'a Line) -> Result<(), OutOfMemory>
        requires overlay { IsOverlay self.old }
        requires there { list_any (have_one_key (values_of_line line.now)) (overlaid self.old) ≡ true }
        ensures lines { OnOk result (overlaid self.new ≡ filter (λ l. not (have_one_key (values_of_line line.now) l)) (overlaid self.old)) }
        ensures overlay { OnOk result (IsOverlay self.new) }
    {
        self.remove_below(line)?;
        self.put.remove(&key_view(line));
        self.count -= 1;
        Ok(())
    }
}
