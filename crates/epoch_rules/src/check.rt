//! Whether lines keep the rules.
ghost use Rattle.std.specs.Prelude.{◌≡◌, ◌⊎◌, IfOk, IfErr, IsErrOf, map};
ghost use Rattle.epochs.specs.Views.{values_of_line};
ghost use Rattle.epoch_rules.specs.Catalog.{IsCatalog};
ghost use Rattle.epoch_rules.specs.Indexes.{IsCatalogIndex};
ghost use Rattle.epoch_rules.specs.Kept.{AreKept, RefusesLines, check_answer, first_broken};

use crate::index::Index;
use crate::outline::Outline;
use crate::rule::CheckFault;
use epochs::Line;
use std::alloc::Global;

/// Whether lines keep the rules over live lines, each with those before it taken. The first line that
/// breaks a rule decides, by the first rule that it breaks; its number counts from 1. `index` is that of the
/// live lines. These are walked at most once, whatever the number of lines, and not at all where few come.
pub fn check_lines(
    alloc: Global,
    live: &[Line],
    index: &Index,
    lines: &[Line],
) -> Result<(), CheckFault>
    requires catalog { IsCatalog (map values_of_line live.now) }
    requires index { IsCatalogIndex index.now (map values_of_line live.now) }
    ensures kept { IfOk result (λ _. AreKept (map values_of_line live.now) (map values_of_line lines.now)) }
    ensures refused { IfErr result (RefusesLines (map values_of_line live.now) (map values_of_line lines.now)) }
    ensures exact { IsErrOf result CheckFault.OutOfMemory
        ⊎ (result ≡ check_answer (first_broken (map values_of_line live.now) (map values_of_line lines.now))) }
{
    let mut outline = Outline::of(alloc, live, index, lines.len())?;
    'lines: for (place, line) in lines.iter().enumerate() {
        if let Some(rule) = outline.broken_rule(line) {
            return Err(CheckFault::Broken {
                line: place as u64 + 1,
                rule,
            });
        }
        outline.take(line)?;
    }
    Ok(())
}
