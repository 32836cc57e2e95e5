//! Ends of stations and channels laid over others.
ghost use Rattle.std.specs.Prelude.{◌≡◌, ◌&&◌, ◌||◌, true, false, not, OnOk, OnErr};
ghost use Rattle.std.specs.Ordering.{is_eq};
ghost use Rattle.epochs.specs.Views.{values_of_line};
ghost use Rattle.epoch_rules.specs.Endings.{EndingParts, ending_cmp, ending_of, parts_of_ending, is_child, is_between, has_end, KeepsEnds};
ghost use Rattle.epoch_rules.specs.EndsOver.{is_end_in, has_left, has_end_over, AddsEndOver, DropsEndOver, KeepsEndsOver, LaysAll, LaysNone};

use crate::endings::{Ending, ending_of, has_between};
use crate::laying::{drop_ends, ends_apart, put_ends};
use epochs::Line;
use exact_time::OutOfMemory;
use std::alloc::Global;
use std::collections::BTreeSet;

// Whether an end that isn't among some stands at a cut or after it, and before another.
fn has_left_between(
    ends: &BTreeSet<Ending>,
    gone: &BTreeSet<Ending>,
    low: &Ending,
    high: &Ending,
) -> bool
    ensures { result ≡ has_left gone.now ends.now (is_between (parts_of_ending low.now) (parts_of_ending high.now)) }
{
    low.cmp(high).is_lt() && ends.range(*low..*high).any(|end| !gone.contains(end))
}

/// Ends that were put in, laid over those of an index, of which some were taken out.
#[derive(Drop)]
pub struct EndsOver {
    // Whether all ends were put in, so that none of the index counts.
    all: bool,
    gone: BTreeSet<Ending>,
    put: BTreeSet<Ending>,
}

impl EndsOver {
    /// None, laid over the ends of an index.
    pub fn none(alloc: Global) -> EndsOver
        ensures { LaysNone result }
    {
        EndsOver {
            all: false,
            gone: BTreeSet::new(alloc),
            put: BTreeSet::new(alloc),
        }
    }

    /// All ends, so that those of an index aren't looked at.
    pub fn all(alloc: Global, put: BTreeSet<Ending>) -> EndsOver
        ensures { LaysAll put result }
    {
        EndsOver {
            all: true,
            gone: BTreeSet::new(alloc),
            put,
        }
    }

    /// Takes in the end of a line that lies in a container.
    pub fn keep(&mut self, line: &Line) -> Result<(), OutOfMemory>
        ensures child { OnOk result (is_child (values_of_line line.now) ≡ true → AddsEndOver self.old (ending_of (values_of_line line.now)) self.new) }
        ensures other { OnOk result (is_child (values_of_line line.now) ≡ false → KeepsEndsOver self.old self.new) }
    {
        if let Some(ending) = ending_of(line) {
            self.put.insert(ending)?;
        }
        Ok(())
    }

    // Takes out an end below, if others count.
    fn drop_below(&mut self, ending: Ending) -> Result<(), OutOfMemory>
        ensures gone { OnOk result (self.old.all ≡ false → (p : EndingParts) → is_end_in self.new.gone p ≡ (is_eq (ending_cmp p (parts_of_ending ending)) || is_end_in self.old.gone p)) }
        ensures put { OnOk result (self.new.put ≡ self.old.put) }
        ensures all { OnOk result (self.new.all ≡ self.old.all) }
    {
        if self.all {
            return Ok(());
        }
        self.gone.insert(ending)?;
        Ok(())
    }

    // Takes out an end.
    fn drop_end(&mut self, ending: Ending) -> Result<(), OutOfMemory>
        ensures { OnOk result (DropsEndOver self.old (parts_of_ending ending) self.new) }
    {
        self.drop_below(ending)?;
        self.put.remove(&ending);
        Ok(())
    }

    /// Takes out the end of a line that lies in a container.
    pub fn forget(&mut self, line: &Line) -> Result<(), OutOfMemory>
        ensures child { OnOk result (is_child (values_of_line line.now) ≡ true → DropsEndOver self.old (ending_of (values_of_line line.now)) self.new) }
        ensures other { OnOk result (is_child (values_of_line line.now) ≡ false → KeepsEndsOver self.old self.new) }
    {
        match ending_of(line) {
            Some(ending) => self.drop_end(ending),
            None => Ok(()),
        }
    }

    // Whether an end that these are laid over stands at a cut or after it, and before another.
    fn has_below(&self, ends: &BTreeSet<Ending>, low: &Ending, high: &Ending) -> bool
        ensures { result ≡ (not self.now.all && has_left self.now.gone ends.now (is_between (parts_of_ending low.now) (parts_of_ending high.now))) }
    {
        !self.all && has_left_between(ends, &self.gone, low, high)
    }

    /// Whether an end stands at a cut or after it, and before another.
    pub fn has_between(&self, ends: &BTreeSet<Ending>, low: &Ending, high: &Ending) -> bool
        ensures { result ≡ has_end_over self.now ends.now (is_between (parts_of_ending low.now) (parts_of_ending high.now)) }
    {
        self.has_below(ends, low, high) || has_between(&self.put, low, high)
    }

    /// Lays them over ends for good. Where memory is missing, those stay what they are.
    pub fn lay(self, alloc: Global, ends: &mut BTreeSet<Ending>) -> Result<(), OutOfMemory>
        ensures ok { OnOk result (KeepsEnds (has_end_over self ends.old) (has_end ends.new)) }
        ensures err { OnErr result (KeepsEnds (has_end ends.old) (has_end ends.new)) }
    {
        if self.all {
            *ends = self.put;
            return Ok(());
        }
        let more = ends_apart(alloc, &self.put, ends)?;
        let fewer = ends_apart(alloc, &self.gone, &self.put)?;
        put_ends(ends, &more)?;
        drop_ends(ends, &fewer);
        Ok(())
    }
}
