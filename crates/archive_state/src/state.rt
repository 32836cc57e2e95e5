//! A history with what it holds.
ghost use Rattle.std.specs.Prelude.{◌≡◌, ◌<◌, ◌≤◌, ◌+◌, ◌^◌, ◌++◌, [], ◌∷◌, true, length, vec_len, vec_capacity, IfOk, OnOk, OnErr};
ghost use Rattle.std.specs.List.{AllByRecursion};
ghost use Rattle.exact_time.specs.Clock.{is_clock_moment};
ghost use Rattle.dataselect.specs.Rows.{with_rows};
ghost use Rattle.epoch_rules.specs.Kept.{AreKept};
ghost use Rattle.epoch_rules.specs.LiveLines.{live_lines};
ghost use Rattle.archive_entry.specs.Batches.{batch_rows};
ghost use Rattle.archive_entry.specs.Bodies.{revision_of};
ghost use Rattle.archive_entry.specs.Spelling.{IsEntry};
ghost use Rattle.archive_state.specs.History.{arrived_of, lines_in, live_of};
ghost use Rattle.archive_state.specs.Lawful.{IsLawful};
ghost use Rattle.archive_state.specs.States.{CanAbsorb};

use crate::lines::take_revision;
use archive_entry::{Entry, Kind};
use dataselect::Shelf;
use epoch_catalog::Catalog;
use exact_time::{Bytes, Many, Moment, OutOfMemory};
use mseed_header::{CutFault, Row, cut_body};
use std::alloc::Global;
use std::marker::Model;
use time_index::IndexedShelf;

/// The entries of a history, a shelf with the rows that have arrived with their batches, and the catalog of their live
/// lines. Seen as the list of the entries.
#[derive(Drop)]
pub struct State {
    alloc: Global,
    shelf: IndexedShelf,
    catalog: Catalog,
    entries: Vec<Entry>,
}

impl Model for State {
    ghost use Rattle.std.specs.Prelude.{◌≡◌, List};
    ghost use Rattle.std.specs.List.{AllByRecursion};
    ghost use Rattle.archive_entry.specs.Spelling.{IsEntry};
    ghost use Rattle.archive_entry.specs.declared.entry.Entry.{Entry};
    ghost use Rattle.archive_state.specs.History.{arrived_of, live_of};

    ghost Value = { List Entry };

    ghost view = { λ s. s.entries.items };

    ghost invariant = { λ s. (⟦<IndexedShelf as Shelf>⟧.rows s.shelf ≡ arrived_of s.entries.items) × (s.catalog ≡ live_of s.entries.items)
        × AllByRecursion IsEntry s.entries.items };
}

fn copy_of(alloc: Global, entry: &Entry) -> Result<Entry, OutOfMemory>
    ensures { IfOk result (λ copy. copy ≡ entry.now) }
{
    Ok(Entry {
        number: entry.number,
        moment: entry.moment,
        author: entry.author.copy(alloc)?,
        seq: entry.seq,
        kind: entry.kind,
        body: entry.body.copy(alloc)?,
    })
}

// The rows of a batch; none where a record is refused. Of the bytes of the body, as a slice, it is known what bytes are.
fn rows_in(
    alloc: Global,
    body: &Bytes,
    bytes: &[u8],
    number: u64,
    moment: Moment,
) -> Result<Many<Row>, OutOfMemory>
    requires same { bytes.now ≡ body.now }
    requires short { length body.now < 2 ^ 32 }
    requires clock { is_clock_moment moment ≡ true }
    ensures { IfOk result (λ rows. rows ≡ batch_rows number moment body.now) }
{
    match cut_body(alloc, body, number, moment) {
        Ok(rows) => Ok(rows),
        Err(CutFault::Bad { .. }) => Ok(Many::new(alloc)),
        Err(CutFault::OutOfMemory) => Err(OutOfMemory),
    }
}

// Puts the rows of a batch on the shelf, and the entry behind the others, for which there is room.
fn absorb_batch(
    alloc: Global,
    shelf: &mut IndexedShelf,
    entries: &mut Vec<Entry>,
    entry: Entry,
) -> Result<(), OutOfMemory>
    requires short { length entry.body < 2 ^ 32 }
    requires clock { is_clock_moment entry.moment ≡ true }
    requires few { length (⟦<IndexedShelf as Shelf>⟧.rows shelf.old) + length (batch_rows entry.number entry.moment entry.body) < 2 ^ 32 }
    requires room { vec_len entries.old < vec_capacity entries.old }
    ensures rows { OnOk result (⟦<IndexedShelf as Shelf>⟧.rows shelf.new ≡ with_rows (⟦<IndexedShelf as Shelf>⟧.rows shelf.old) (batch_rows entry.number entry.moment entry.body)) }
    ensures entries { OnOk result (entries.new.items ≡ entries.old.items ++ entry ∷ []) }
    ensures same_rows { OnErr result (⟦<IndexedShelf as Shelf>⟧.rows shelf.new ≡ ⟦<IndexedShelf as Shelf>⟧.rows shelf.old) }
    ensures same_entries { OnErr result (entries.new.items ≡ entries.old.items) }
{
    let bytes = entry.body.as_slice();
    let rows = rows_in(alloc, &entry.body, bytes, entry.number, entry.moment)?;
    shelf.insert_all(rows)?;
    entries.push_reserved(entry);
    Ok(())
}

// Takes the lines of a revision into the catalog, and the entry behind the others, for which there is room.
fn absorb_revision(
    alloc: Global,
    catalog: &mut Catalog,
    entries: &mut Vec<Entry>,
    entry: Entry,
) -> Result<(), OutOfMemory>
    requires kept { AreKept catalog.old (lines_in (revision_of entry.body)) }
    requires room { vec_len entries.old < vec_capacity entries.old }
    ensures lines { OnOk result (catalog.new ≡ live_lines (catalog.old ++ lines_in (revision_of entry.body))) }
    ensures entries { OnOk result (entries.new.items ≡ entries.old.items ++ entry ∷ []) }
    ensures same_lines { OnErr result (catalog.new ≡ catalog.old) }
    ensures same_entries { OnErr result (entries.new.items ≡ entries.old.items) }
{
    take_revision(alloc, catalog, entry.body.as_slice())?;
    entries.push_reserved(entry);
    Ok(())
}

impl State {
    /// Of no entries. Takes no memory.
    pub fn new(alloc: Global) -> State
        ensures { result ≡ [] }
    {
        State {
            alloc,
            shelf: IndexedShelf::new(alloc),
            catalog: Catalog::new(alloc),
            entries: Vec::new(alloc),
        }
    }

    /// Of a lawful history.
    pub fn of(alloc: Global, entries: &[Entry]) -> Result<State, OutOfMemory>
        requires { IsLawful entries.now }
        ensures { IfOk result (λ state. state ≡ entries.now) }
    {
        let mut state = State::new(alloc);
        'entries: for entry in entries {
            state.absorb(entry)?;
        }
        Ok(state)
    }

    /// The rows that have arrived with the entries: those of all batches in order, without those whose bytes equal an
    /// earlier row's. Those that are held are these without the withdrawn ones.
    pub fn shelf(&self) -> &IndexedShelf
        ensures { ⟦<IndexedShelf as Shelf>⟧.rows result.now ≡ arrived_of self.now }
    {
        &self.shelf
    }

    /// The catalog of the live lines.
    pub fn catalog(&self) -> &Catalog
        ensures { result.now ≡ live_of self.now }
    {
        &self.catalog
    }

    /// The entries, in order of their numbers; each has a spelling.
    pub fn entries(&self) -> &[Entry]
        ensures entries { result.now ≡ self.now }
        ensures spelled { AllByRecursion IsEntry self.now }
    {
        self.entries.as_slice()
    }

    /// Takes in an entry that fits behind the others. Where memory is missing, nothing changes.
    pub fn absorb(&mut self, entry: &Entry) -> Result<(), OutOfMemory>
        requires { CanAbsorb self.old entry.now }
        ensures ok { OnOk result (self.new ≡ self.old ++ entry.now ∷ []) }
        ensures err { OnErr result (self.new ≡ self.old) }
    {
        let copy = copy_of(self.alloc, entry)?;
        self.entries.reserve(1)?;
        let State {
            alloc,
            shelf,
            catalog,
            entries,
        } = self;
        if let Kind::Batch = entry.kind {
            return absorb_batch(*alloc, shelf, entries, copy);
        }
        absorb_revision(*alloc, catalog, entries, copy)
    }
}
