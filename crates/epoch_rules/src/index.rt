//! What is kept of live lines beside them.
ghost use Rattle.std.specs.Prelude.{◌≡◌, [], ◌++◌, map, filter, length, IfOk, OnOk, OnErr};
ghost use Rattle.epochs.specs.Views.{values_of_line};
ghost use Rattle.epoch_rules.specs.Catalog.{IsCatalog};
ghost use Rattle.epoch_rules.specs.Endings.{AreEndsOf};
ghost use Rattle.epoch_rules.specs.EndsOver.{has_end_over};
ghost use Rattle.epoch_rules.specs.Indexes.{IsCatalogIndex};
ghost use Rattle.epoch_rules.specs.Kept.{AreKept};
ghost use Rattle.epoch_rules.specs.LiveLines.{live_lines};
ghost use Rattle.epoch_rules.specs.Rules.{is_operator};

use crate::endings::Ending;
use crate::ends_over::EndsOver;
use crate::outline::Outline;
use epochs::Line;
use exact_time::OutOfMemory;
use std::alloc::Global;
use std::collections::BTreeSet;

/// What the rules need of all live lines, kept beside them: how many operators there are, and the ends of
/// stations and channels in order (`IsCatalogIndex` of `specs/Indexes.antt`).
#[derive(Clone, Debug, Drop)]
pub struct Index {
    pub(crate) operators: usize,
    pub(crate) ends: BTreeSet<Ending>,
}

// What lines change of an index: how many operators there are then, and which ends.
#[derive(Drop)]
struct Changes {
    operators: usize,
    ends: EndsOver,
}

impl Index {
    /// That of no lines. Takes no memory.
    pub fn new(alloc: Global) -> Index
        ensures { IsCatalogIndex result [] }
    {
        Index {
            operators: 0,
            ends: BTreeSet::new(alloc),
        }
    }

    // What some lines change, which keep the rules over the live lines.
    fn changes(&self, alloc: Global, live: &[Line], lines: &[Line]) -> Result<Changes, OutOfMemory>
        requires catalog { IsCatalog (map values_of_line live.now) }
        requires index { IsCatalogIndex self.now (map values_of_line live.now) }
        requires kept { AreKept (map values_of_line live.now) (map values_of_line lines.now) }
        ensures counted { IfOk result (λ changes. changes.operators ≡ length (filter is_operator (live_lines (map values_of_line live.now ++ map values_of_line lines.now)))) }
        ensures ended { IfOk result (λ changes. AreEndsOf (has_end_over changes.ends self.now.ends) (live_lines (map values_of_line live.now ++ map values_of_line lines.now))) }
    {
        let mut outline = Outline::of(alloc, live, self, lines.len())?;
        'lines: for line in lines {
            outline.take(line)?;
        }
        Ok(Changes {
            operators: outline.operators,
            ends: outline.ends,
        })
    }

    /// Becomes that of the live lines after some lines more, which keep the rules. Where memory is missing, it
    /// stays that of the live lines before them.
    pub fn take_in(
        &mut self,
        alloc: Global,
        live: &[Line],
        lines: &[Line],
    ) -> Result<(), OutOfMemory>
        requires catalog { IsCatalog (map values_of_line live.now) }
        requires index { IsCatalogIndex self.old (map values_of_line live.now) }
        requires kept { AreKept (map values_of_line live.now) (map values_of_line lines.now) }
        ensures ok { OnOk result (IsCatalogIndex self.new (live_lines (map values_of_line live.now ++ map values_of_line lines.now))) }
        ensures err { OnErr result (IsCatalogIndex self.new (map values_of_line live.now)) }
    {
        let changes = self.changes(alloc, live, lines)?;
        changes.ends.lay(alloc, &mut self.ends)?;
        self.operators = changes.operators;
        Ok(())
    }
}
