//! The shelf.
ghost use Rattle.std.specs.Prelude.{◌≡◌, ℕ, ◌+◌, ◌-◌, ◌^◌, ◌<◌, ◌≤◌, true, [], ◌∷◌, ◌++◌, length, take, map, IfOk, OnOk, OnErr};
ghost use Rattle.std.specs.Vec.{vec_len, vec_capacity};
ghost use Rattle.dataselect.specs.Chosen.{chosen_places, ranks_chosen};
ghost use Rattle.list_laws.specs.InOrder.{in_order};
ghost use Rattle.dataselect.specs.HeldNames.{names_of};
ghost use Rattle.dataselect.specs.Order.{rank_cmp};
ghost use Rattle.std.specs.List.{list_any};
ghost use Rattle.dataselect.specs.MergedSpans.{value_of, merged_spans_of, has_name};
ghost use Rattle.dataselect.specs.Places.{places_named};
ghost use Rattle.dataselect.specs.Rows.{has_image, with_rows};
ghost use Rattle.time_index.specs.Index.{IsChannelIndex};
ghost use Rattle.time_index.specs.Spots.{spot_at};

use crate::channel_spans::{channel_places, channel_ranks};
use crate::channels::{Channel, add_spot, remove_spot};
use crate::doubles::is_twin;
use crate::names::{has_name, names_matched};
use crate::spot::{Spot, micros_lasted, spot_of};
use crate::windows::{places_in_order, ranks_found, ranks_walked};
use channel_globs::Nslc;
use dataselect::{
    DataQuery, Inserted, Rank, Selection, Shelf, Sight, Span, list_names, pick, spans_ranked,
};
use exact_time::{Many, OutOfMemory};
use mseed_header::Row;
use std::alloc::Global;
use std::collections::BTreeMap;

/// A shelf that finds its rows by channel and time, and keeps no spans: it makes them of its rows when they are
/// asked for. An insertion costs a logarithm, and a query the rows of the windows of its selections. A sender who
/// makes many records of one channel with one start and one fingerprint costs time alone: each of them is compared
/// with the others byte by byte.
#[derive(Drop)]
pub struct TimeIndex {
    alloc: Global,
    rows: Vec<Row>,
    channels: BTreeMap<Nslc, Channel>,
    ghost few: { length rows.items ≤ 2 ^ 32 },
    ghost index: { IsChannelIndex rows.items channels },
}

// Puts a row at the end, where there is room for it.
fn put(rows: &mut Vec<Row>, row: Row)
    requires room { vec_len rows.old < vec_capacity rows.old }
    ensures { rows.new.items ≡ rows.old.items ++ row ∷ [] }
{
    match rows.push(row) {
        Ok(()) => (),
        Err(_) => (),
    }
}

impl TimeIndex {
    /// A shelf without rows. Takes no memory.
    pub fn new(alloc: Global) -> Self
        ensures { ⟦<TimeIndex as Shelf>⟧.rows result ≡ [] }
    {
        TimeIndex {
            alloc,
            rows: Vec::new(alloc),
            channels: BTreeMap::new(alloc),
        }
    }

    // Whether some row has the bytes of this one, whose spot it would be at the end.
    fn is_held(&self, row: &Row, spot: Spot) -> bool
        requires spot { spot ≡ spot_at (length self.now.rows.items) row.now }
        ensures { result ≡ has_image row.now.image self.now.rows.items }
    {
        is_twin(
            &self.rows,
            &self.channels,
            &row.header.name,
            spot,
            row.image.as_slice(),
        )
    }

    // Puts a row at the end. The room is taken first, so that the last step can't fail.
    fn keep(&mut self, row: Row, spot: Spot) -> Result<(), OutOfMemory>
        requires few { length self.old.rows.items < 2 ^ 32 }
        requires spot { spot ≡ spot_at (length self.old.rows.items) row }
        ensures ok { OnOk result (self.new.rows.items ≡ self.old.rows.items ++ row ∷ []) }
        ensures err { OnErr result (self.new.rows.items ≡ self.old.rows.items) }
    {
        self.rows.reserve(1)?;
        let header = row.header;
        let longest = micros_lasted(&header);
        add_spot(self.alloc, &mut self.channels, header.name, spot, longest)?;
        put(&mut self.rows, row);
        Ok(())
    }

    /// Whether some row has that name.
    pub(crate) fn has_name(&self, name: &Nslc) -> bool
        ensures { result ≡ list_any (has_name name.now) self.now.rows.items }
    {
        has_name(&self.channels, name)
    }

    /// Takes the last row out. Takes no memory.
    pub(crate) fn drop_last(&mut self)
        requires some { 0 < length self.old.rows.items }
        ensures { self.new.rows.items ≡ take (length self.old.rows.items - 1) self.old.rows.items }
    {
        let row = self.rows.take_last();
        let spot = spot_of(self.rows.len(), &row);
        remove_spot(&mut self.channels, &row.header.name, spot);
    }

    // Takes out all rows but the first ones. Takes no memory.
    fn cut_back(&mut self, len: usize)
        ensures { self.new.rows.items ≡ take len self.old.rows.items }
    {
        'rows: while self.rows.len() > len {
            self.drop_last();
        }
    }

    // Inserts rows in order, up to the first for which memory doesn't suffice.
    fn insert_each(&mut self, more: Vec<Row>) -> Result<(), OutOfMemory>
        requires few { length self.old.rows.items + length more.items ≤ 2 ^ 32 }
        ensures ok { OnOk result (self.new.rows.items ≡ with_rows self.old.rows.items more.items) }
        ensures err { OnErr result (take (length self.old.rows.items) self.new.rows.items ≡ self.old.rows.items) }
    {
        'rows: for row in more {
            self.insert(row)?;
        }
        Ok(())
    }

    // The ranks of the rows that are seen and asked for, in any order, some of them several times. Where many
    // selections ask for the same rows, a walk over all rows is no dearer.
    fn ranks_chosen<V: Sight>(
        &self,
        sight: &V,
        query: &DataQuery,
    ) -> Result<Many<Rank>, OutOfMemory>
        ensures { IfOk result (λ ranks. in_order rank_cmp [] ranks ≡ ranks_chosen (V.seen sight.now) query.now self.now.rows.items) }
    {
        match ranks_found(self.alloc, &self.rows, &self.channels, sight, query)? {
            Some(ranks) => Ok(ranks),
            None => ranks_walked(self.alloc, &self.rows, sight, query),
        }
    }

    // The places of the chosen rows, in their order.
    fn chosen<V: Sight>(&self, sight: &V, query: &DataQuery) -> Result<Many<usize>, OutOfMemory>
        ensures { IfOk result (λ places. places ≡ chosen_places (V.seen sight.now) query.now self.now.rows.items) }
    {
        let ranks = self.ranks_chosen(sight, query)?;
        places_in_order(self.alloc, ranks)
    }
}

impl Shelf for TimeIndex {
    ghost rows = { λ s. s.rows.items };

    fn len(&self) -> usize {
        self.rows.len()
    }

    fn row(&self, i: usize) -> &Row {
        &self.rows[i]
    }

    fn insert(&mut self, row: Row) -> Result<Inserted, OutOfMemory> {
        let spot = spot_of(self.rows.len(), &row);
        if self.is_held(&row, spot) {
            return Ok(Inserted::Duplicate);
        }
        self.keep(row, spot)?;
        Ok(Inserted::New)
    }

    fn insert_all(&mut self, more: Many<Row>) -> Result<(), OutOfMemory> {
        let before = self.rows.len();
        let done = self.insert_each(more.into_vec());
        if done.is_err() {
            self.cut_back(before);
        }
        done
    }

    fn choose<V: Sight>(&self, sight: &V, query: &DataQuery) -> Result<Many<usize>, OutOfMemory> {
        let places = self.chosen(sight, query)?;
        pick(self.alloc, self.rows.as_slice(), places, query)
    }

    fn names(&self, selection: &Selection) -> Result<Many<Nslc>, OutOfMemory> {
        let names = names_matched(self.alloc, &self.channels, selection)?;
        list_names(self.alloc, &names)
    }

    fn places_named(&self, name: &Nslc) -> Result<Many<usize>, OutOfMemory> {
        let places = channel_places(self.alloc, &self.channels, name)?;
        Ok(places)
    }

    fn merged_spans(&self, name: &Nslc) -> Result<Many<Span>, OutOfMemory> {
        let ranks = channel_ranks(self.alloc, &self.rows, &self.channels, name)?;
        let spans = spans_ranked(self.alloc, &self.rows, &ranks)?;
        Ok(spans)
    }

    ghost few = { λ s. s.few };
}
