//! The shelf with its spans.
ghost use Rattle.std.specs.Prelude.{◌≡◌, ℕ, ◌+◌, ◌-◌, ◌^◌, ◌<◌, ◌≤◌, true, false, [], None, IsTrue, length, take, OnOk, OnErr};
ghost use Rattle.std.specs.BTreeMap.{get};
ghost use Rattle.channel_globs.specs.Names.{name_cmp};
ghost use Rattle.dataselect.specs.Rows.{with_rows};
ghost use Rattle.time_index.specs.Kept.{AllKept, IsKnown};

use crate::channel_kept::add_row;
use crate::indexed::TimeIndex;
use crate::kept::Kept;
use crate::kind::Kind;
use crate::kinds::list_spans;
use channel_globs::Nslc;
use dataselect::{DataQuery, Inserted, Selection, Shelf, Sight, Span};
use exact_time::{Many, Moment, OutOfMemory};
use mseed_header::Row;
use std::alloc::Global;
use std::collections::BTreeMap;

/// A shelf that finds its rows by channel and time, as [`TimeIndex`] does, and keeps their merged spans. An
/// insertion costs a look-up more, and the spans that it joins; the spans of a channel cost themselves.
#[derive(Drop)]
pub struct IndexedShelf {
    alloc: Global,
    index: TimeIndex,
    // The spans of a channel are missing where a batch ran out of memory within it: then they are made of its
    // rows when they are asked for.
    spans: BTreeMap<Nslc, BTreeMap<Kind, BTreeMap<Moment, Kept>>>,
    ghost kept: { AllKept index.rows.items spans },
}

impl IndexedShelf {
    /// A shelf without rows. Takes no memory.
    pub fn new(alloc: Global) -> Self
        ensures { ⟦<IndexedShelf as Shelf>⟧.rows result ≡ [] }
    {
        IndexedShelf {
            alloc,
            index: TimeIndex::new(alloc),
            spans: BTreeMap::new(alloc),
        }
    }

    // Whether the spans of a channel are kept with one row more: they are, or the channel has no rows.
    fn keeps(&self, name: &Nslc) -> bool
        ensures kept { result ≡ true → IsKnown self.now.index.rows.items self.now.spans name.now }
        ensures lost { result ≡ false → get name_cmp self.now.spans name.now ≡ None }
    {
        self.spans.contains_key(name) || !self.index.has_name(name)
    }

    // Takes the last row out. Takes no memory.
    fn drop_last(&mut self)
        requires some { 0 < length self.old.index.rows.items }
        ensures { self.new.index.rows.items ≡ take (length self.old.index.rows.items - 1) self.old.index.rows.items }
    {
        let last = self.index.len() - 1;
        let name = self.index.row(last).header.name;
        self.spans.remove(&name);
        self.index.drop_last();
    }

    // Takes out all rows but the first ones. Takes no memory.
    fn cut_back(&mut self, len: usize)
        ensures { self.new.index.rows.items ≡ take len self.old.index.rows.items }
    {
        'rows: while self.index.len() > len {
            self.drop_last();
        }
    }

    // Inserts rows in order, up to the first for which memory doesn't suffice.
    fn insert_each(&mut self, more: Vec<Row>) -> Result<(), OutOfMemory>
        requires few { length self.old.index.rows.items + length more.items ≤ 2 ^ 32 }
        ensures ok { OnOk result (self.new.index.rows.items ≡ with_rows self.old.index.rows.items more.items) }
        ensures err { OnErr result (take (length self.old.index.rows.items) self.new.index.rows.items ≡ self.old.index.rows.items) }
    {
        'rows: for row in more {
            self.insert(row)?;
        }
        Ok(())
    }
}

impl Shelf for IndexedShelf {
    ghost rows = { λ s. s.index.rows.items };

    fn len(&self) -> usize {
        self.index.len()
    }

    fn row(&self, i: usize) -> &Row {
        self.index.row(i)
    }

    fn insert(&mut self, row: Row) -> Result<Inserted, OutOfMemory> {
        let keeps = self.keeps(&row.header.name);
        match self.index.insert(row)? {
            Inserted::Duplicate => return Ok(Inserted::Duplicate),
            Inserted::New => (),
        }
        if !keeps {
            return Ok(Inserted::New);
        }
        let last = self.index.len() - 1;
        let added = add_row(self.alloc, &mut self.spans, self.index.row(last));
        if let Err(error) = added {
            self.index.drop_last();
            return Err(error);
        }
        Ok(Inserted::New)
    }

    fn insert_all(&mut self, more: Many<Row>) -> Result<(), OutOfMemory> {
        let before = self.index.len();
        let done = self.insert_each(more.into_vec());
        if done.is_err() {
            self.cut_back(before);
        }
        done
    }

    fn choose<V: Sight>(&self, sight: &V, query: &DataQuery) -> Result<Many<usize>, OutOfMemory> {
        self.index.choose(sight, query)
    }

    fn names(&self, selection: &Selection) -> Result<Many<Nslc>, OutOfMemory> {
        self.index.names(selection)
    }

    fn places_named(&self, name: &Nslc) -> Result<Many<usize>, OutOfMemory> {
        self.index.places_named(name)
    }

    fn merged_spans(&self, name: &Nslc) -> Result<Many<Span>, OutOfMemory> {
        match self.spans.get(name) {
            Some(kinds) => list_spans(self.alloc, name, kinds),
            None => self.index.merged_spans(name),
        }
    }

    ghost few = { λ s. s.index.few };
}
