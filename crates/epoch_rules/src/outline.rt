//! The live lines while others are checked over them.
ghost use Rattle.std.specs.Prelude.{◌≡◌, Bool, true, false, not, length, map, filter, IfOk, OnOk};
ghost use Rattle.std.specs.List.{list_any};
ghost use Rattle.std.specs.List.Sorted.{IsStrictlySortedBy};
ghost use Rattle.std.specs.BTreeSet.{insert_key};
ghost use Rattle.epochs.specs.Views.{values_of_line};
ghost use Rattle.epoch_rules.specs.Catalog.{IsCatalog};
ghost use Rattle.epoch_rules.specs.KeyOrder.{line_cmp, have_one_key};
ghost use Rattle.epoch_rules.specs.Indexes.{IsCatalogIndex};
ghost use Rattle.epoch_rules.specs.Outlines.{outlined, IsOutline};
ghost use Rattle.epoch_rules.specs.Rules.{with_line};

use crate::ends_over::EndsOver;
use crate::index::Index;
use crate::key_order::key_view;
use crate::overlay::Overlay;
use crate::relations::{count_operator, is_said};
use epochs::Line;
use exact_time::OutOfMemory;
use std::alloc::Global;

/// The live lines, with those taken so far, how many operators they are, and the ends of the stations and
/// channels among them. After an error it is of no use.
#[derive(Drop)]
pub struct Outline<'a> {
    pub lines: Overlay<'a>,
    pub operators: usize,
    pub index: &'a Index,
    pub ends: EndsOver,
}

impl<'a> Outline<'a> {
    // Puts in a line whose key isn't there.
    fn put(&mut self, line: &'a Line) -> Result<(), OutOfMemory>
        requires outline { IsOutline self.old }
        requires absent { list_any (have_one_key (values_of_line line.now)) (outlined self.old) ≡ false }
        ensures lines { OnOk result (outlined self.new ≡ insert_key line_cmp (outlined self.old) (values_of_line line.now)) }
        ensures outline { OnOk result (IsOutline self.new) }
        ensures index { OnOk result (self.new.index ≡ self.old.index) }
    {
        self.lines.insert(line)?;
        // The number of lines fits, and so does that of the operators among them.
        let _ = self.lines.len();
        self.operators += count_operator(line);
        self.ends.keep(line)
    }

    // Takes out the line of a key, if it is there.
    fn remove(&mut self, line: &'a Line) -> Result<(), OutOfMemory>
        requires outline { IsOutline self.old }
        requires rises { IsStrictlySortedBy line_cmp (outlined self.old) }
        ensures lines { OnOk result (outlined self.new ≡ filter (λ l. not (have_one_key (values_of_line line.now) l)) (outlined self.old)) }
        ensures outline { OnOk result (IsOutline self.new) }
        ensures index { OnOk result (self.new.index ≡ self.old.index) }
    {
        let Some(old) = self.lines.line_at(key_view(line)) else {
            return Ok(());
        };
        self.lines.remove(line)?;
        self.operators -= count_operator(old);
        self.ends.forget(old)
    }

    /// Takes a line: it stands in the place of that of its key, or a deletion takes that out.
    pub fn take(&mut self, line: &'a Line) -> Result<(), OutOfMemory>
        requires outline { IsOutline self.old }
        requires catalog { IsCatalog (outlined self.old) }
        ensures lines { OnOk result (outlined self.new ≡ with_line (outlined self.old) (values_of_line line.now)) }
        ensures outline { OnOk result (IsOutline self.new) }
        ensures index { OnOk result (self.new.index ≡ self.old.index) }
    {
        self.remove(line)?;
        if is_said(line) {
            return self.put(line);
        }
        Ok(())
    }

    // The live lines of a catalog, looked up where they are.
    fn over(alloc: Global, live: &'a [Line], index: &'a Index) -> Outline<'a>
        requires catalog { IsCatalog (map values_of_line live.now) }
        requires index { IsCatalogIndex index.now (map values_of_line live.now) }
        ensures lines { outlined result ≡ map values_of_line live.now }
        ensures outline { IsOutline result }
        ensures index { result.index ≡ index.entry }
    {
        Outline {
            lines: Overlay::over(alloc, live),
            operators: index.operators,
            index,
            ends: EndsOver::none(alloc),
        }
    }

    // The live lines of a catalog by their keys, and a copy of their ends. The lines are in order, so that no
    // look-up is needed.
    fn copied(alloc: Global, live: &'a [Line], index: &'a Index) -> Result<Outline<'a>, OutOfMemory>
        requires catalog { IsCatalog (map values_of_line live.now) }
        requires index { IsCatalogIndex index.now (map values_of_line live.now) }
        ensures lines { IfOk result (λ outline. outlined outline ≡ map values_of_line live.now) }
        ensures outline { IfOk result IsOutline }
        ensures index { IfOk result (λ outline. outline.index ≡ index.entry) }
    {
        Ok(Outline {
            lines: Overlay::of(alloc, live)?,
            operators: index.operators,
            index,
            ends: EndsOver::all(alloc, index.ends.clone()?),
        })
    }

    /// The live lines of a catalog, with their index, before so many lines are taken. A look-up may pass each
    /// line that was taken, so that many lines are taken faster where the live ones are copied.
    pub fn of(
        alloc: Global,
        live: &'a [Line],
        index: &'a Index,
        count: usize,
    ) -> Result<Outline<'a>, OutOfMemory>
        requires catalog { IsCatalog (map values_of_line live.now) }
        requires index { IsCatalogIndex index.now (map values_of_line live.now) }
        ensures lines { IfOk result (λ outline. outlined outline ≡ map values_of_line live.now) }
        ensures outline { IfOk result IsOutline }
        ensures index { IfOk result (λ outline. outline.index ≡ index.entry) }
    {
        if count.saturating_mul(count) <= live.len() {
            Ok(Outline::over(alloc, live, index))
        } else {
            Outline::copied(alloc, live, index)
        }
    }
}
