//! The catalog of live lines.
ghost use Rattle.std.specs.Prelude.{◌≡◌, true, List, [], ◌++◌, map, filter, find, option_map, Contains, OnOk, OnErr, IfOk, IfErr, IsErrOf, ◌⊎◌};
ghost use Rattle.std.specs.List.{list_any};
ghost use Rattle.epochs.specs.declared.kinds.LineKind.TheVariants.{Rst};
ghost use Rattle.epochs.specs.Lines.{LineValues};
ghost use Rattle.epochs.specs.Values.{user_line};
ghost use Rattle.epochs.specs.Views.{values_of_line};
ghost use Rattle.epoch_rules.specs.Catalog.{IsCatalog, is_user};
ghost use Rattle.epoch_catalog.specs.Families.{is_in};
ghost use Rattle.epoch_catalog.specs.Wide.{wide_places, wide_in, StandAt};
ghost use Rattle.epoch_catalog.specs.Withdrawals.{is_marked, name_in, AreRising, IsMarked, IsWithdrawalIndex};
ghost use Rattle.epoch_rules.specs.Indexes.{IsCatalogIndex};
ghost use Rattle.epoch_rules.specs.Kept.{AreKept, RefusesLines, check_answer, first_broken};
ghost use Rattle.epoch_rules.specs.LiveLines.{live_lines};
ghost use Rattle.epoch_rules.specs.Rules.{is_line_of};

use crate::families::{Family, family_in, has_restrictions};
use crate::merging::{heads_of, merge};
use crate::users::user_in;
use crate::wide::{note_wide, wide_of};
use crate::withdrawals::{Mark, Withdrawals, mark_withdrawals, marks_of, no_withdrawals, room_for};
use channel_globs::Nslc;
use epoch_rules::{CheckFault, Index, check_lines};
use epochs::{Line, User};
use exact_time::{Many, OutOfMemory};
use std::alloc::Global;
use std::marker::Model;

/// The live lines, in the order of their keys (`specs/KeyOrder.antt`), and what the rules need of them all
/// (`Index`). Seen as the list of lines; its type keeps `IsCatalog` and `IsCatalogIndex` of the crate `epoch_rules`.
#[derive(Debug, Drop)]
pub struct Catalog {
    lines: Vec<Line>,
    // The places of the wide lines, ascending.
    wide: Vec<usize>,
    // Whether there is a restriction.
    restricted: bool,
    withdrawals: Withdrawals,
    index: Index,
}

impl Model for Catalog {
    ghost Value = { List LineValues };

    ghost view = { λ c. map values_of_line c.lines.items };

    ghost invariant = { λ c. IsCatalog (map values_of_line c.lines.items) × (c.wide.items ≡ wide_places (map values_of_line c.lines.items)) × (c.restricted ≡ list_any (is_line_of Rst) (map values_of_line c.lines.items)) × IsWithdrawalIndex c.withdrawals.names.items c.withdrawals.marks.items (map values_of_line c.lines.items) × IsCatalogIndex c.index (map values_of_line c.lines.items) };
}

impl Catalog {
    /// No lines. Takes no memory.
    pub fn new(alloc: Global) -> Catalog
        ensures { result ≡ [] }
    {
        Catalog {
            lines: Vec::new(alloc),
            wide: Vec::new(alloc),
            restricted: false,
            withdrawals: no_withdrawals(alloc),
            index: Index::new(alloc),
        }
    }

    /// The live lines, in the order of their keys.
    pub fn lines(&self) -> &[Line]
        ensures lines { map values_of_line result.now ≡ self.now }
        ensures kept { IsCatalog self.now }
    {
        self.lines.as_slice()
    }

    /// The one user of that name, found by halves.
    pub fn user(&self, name: &[u8]) -> Option<&User>
        ensures user { option_map (λ user. user_line user.now.name user.now.ha1 user.now.roles) result ≡ find (is_user name.now) self.now }
        ensures kept { IsCatalog self.now }
    {
        user_in(self.lines.as_slice(), name)
    }

    /// The lines of a family, in order, found by halves.
    pub fn family(&self, family: &Family<'_>) -> &[Line]
        ensures { map values_of_line result.now ≡ filter (is_in family.now) self.now }
    {
        family_in(self.lines.as_slice(), family)
    }

    /// The places among [`Catalog::lines`] of the restrictions and grants of a family whose network isn't written as one
    /// code, as those with a wildcard, and of the withdrawals some text of which isn't; ascending, found by halves.
    pub fn wide(&self, family: &Family<'_>) -> &[usize]
        ensures { StandAt self.now result.now (wide_in family.now self.now) }
    {
        wide_of(self.lines.as_slice(), self.wide.as_slice(), family)
    }

    /// Whether there is a restriction, without a search.
    pub fn has_restrictions(&self) -> bool
        ensures { result ≡ list_any (is_line_of Rst) self.now }
    {
        self.restricted
    }

    /// The marks of the withdrawals that are written as this channel, ascending by start, found by halves among the
    /// channels that have some.
    pub fn withdrawals_of(&self, name: &Nslc) -> &[Mark]
        ensures rising { AreRising result.now }
        ensures marked { (e : LineValues) → Contains self.now e → is_marked e ≡ true → name_in e ≡ name.now → IsMarked self.now result.now e }
    {
        marks_of(
            self.withdrawals.names.as_slice(),
            self.withdrawals.marks.as_slice(),
            name,
        )
    }

    /// Whether lines keep the rules, each over the live lines with the lines before it: else the first line
    /// that breaks one, counted from 1, and the first rule that it breaks. Changes nothing.
    pub fn check(&self, lines: &Many<Line>) -> Result<(), CheckFault>
        ensures ok { IfOk result (λ _. AreKept self.now (map values_of_line lines.now)) }
        ensures refused { IfErr result (RefusesLines self.now (map values_of_line lines.now)) }
        ensures exact { IsErrOf result CheckFault.OutOfMemory
            ⊎ (result ≡ check_answer (first_broken self.now (map values_of_line lines.now))) }
        ensures kept { IsCatalog self.now }
    {
        check_lines(
            *self.lines.allocator(),
            self.lines.as_slice(),
            &self.index,
            lines.as_slice(),
        )
    }

    /// Takes in more lines, which keep the rules. Where memory is missing, nothing changes.
    pub fn apply(&mut self, lines: &Many<Line>) -> Result<(), OutOfMemory>
        requires { AreKept self.old (map values_of_line lines.now) }
        ensures ok { OnOk result (self.new ≡ live_lines (self.old ++ map values_of_line lines.now)) }
        ensures err { OnErr result (self.new ≡ self.old) }
        ensures kept { IsCatalog self.new }
    {
        let alloc = *self.lines.allocator();
        let mut heads = heads_of(alloc, lines.as_slice())?;
        let most = self.lines.len() + heads.len();
        let mut behind = Vec::with_capacity(alloc, most)?;
        let mut wide = Vec::with_capacity(alloc, most)?;
        let room = room_for(alloc, most)?;
        self.lines.reserve(heads.len())?;
        // From here on memory is missing for the index alone, which then stays.
        self.index
            .take_in(alloc, self.lines.as_slice(), lines.as_slice())?;
        merge(&mut self.lines, &mut heads, &mut behind);
        note_wide(&mut wide, self.lines.as_slice());
        self.wide = wide;
        self.restricted = has_restrictions(self.lines.as_slice());
        self.withdrawals = mark_withdrawals(room, self.lines.as_slice());
        Ok(())
    }
}
