//! The plain shelf: a list, walked for each question.
ghost use Rattle.std.specs.Prelude.{◌≡◌, ℕ, ◌+◌, ◌^◌, ◌≤◌, List, [], length, IfOk};
ghost use Rattle.std.specs.Vec.{vec_len, vec_capacity};
ghost use Rattle.dataselect.specs.Rows.{has_image, with_rows};
ghost use Rattle.dataselect.specs.Chosen.{passes, ranks_chosen, chosen_places};
ghost use Rattle.dataselect.specs.HeldNames.{names_of};
ghost use Rattle.dataselect.specs.Places.{places_named};
ghost use Rattle.dataselect.specs.SpanOrder.{ranks_named};

use crate::names::list_names;
use crate::order::{Rank, places_of, rank_of};
use crate::picked::pick;
use crate::query::{DataQuery, Selection};
use crate::segments::is_same_name;
use crate::shelf::{Inserted, Shelf};
use crate::sight::Sight;
use crate::span::Span;
use crate::span_order::{SpanRank, span_rank_of};
use crate::spans::spans_ranked;
use channel_globs::Nslc;
use exact_time::{Many, OutOfMemory};
use mseed_header::Row;
use std::alloc::Global;
use std::collections::BTreeSet;

/// A shelf that keeps its rows in a list. An insertion and a query cost a walk over all rows.
#[derive(Drop)]
pub struct PlainShelf {
    alloc: Global,
    rows: Vec<Row>,
    ghost few: { length rows.items ≤ 2 ^ 32 },
}

impl PlainShelf {
    /// A shelf without rows. Takes no memory.
    pub fn new(alloc: Global) -> Self
        ensures { ⟦<PlainShelf as Shelf>⟧.rows result ≡ [] }
    {
        PlainShelf {
            alloc,
            rows: Vec::new(alloc),
        }
    }
}

// Whether some row has these bytes.
fn is_held(rows: &[Row], image: &[u8]) -> bool
    ensures { result ≡ has_image image.now rows.now }
{
    rows.iter().any(|row| row.image.as_slice() == image)
}

// Puts each row at the end unless its bytes are there. There is room for all of them.
fn put_new(rows: &mut Vec<Row>, more: Vec<Row>)
    requires room { vec_len rows.old + length more.items ≤ vec_capacity rows.old }
    ensures { rows.new.items ≡ with_rows rows.old.items more.items }
{
    'rows: for row in more {
        if !is_held(rows, row.image.as_slice()) {
            rows.push_reserved(row);
        }
    }
}

// The names of rows that the selection's codes match.
fn names_matched(
    alloc: Global,
    rows: &[Row],
    selection: &Selection,
) -> Result<BTreeSet<Nslc>, OutOfMemory>
    ensures { IfOk result (λ names. names.keys ≡ names_of selection.now rows.now) }
{
    let mut names = BTreeSet::new(alloc);
    'rows: for row in rows {
        if selection.names(&row.header.name) {
            names.insert(row.header.name)?;
        }
    }
    Ok(names)
}

// The places of the rows of a name.
fn places_named(alloc: Global, rows: &[Row], name: &Nslc) -> Result<Many<usize>, OutOfMemory>
    ensures { IfOk result (λ places. places ≡ places_named name.now rows.now) }
{
    let mut places = Many::new(alloc);
    'rows: for (index, row) in rows.iter().enumerate() {
        if is_same_name(&row.header.name, name) {
            places.push(index)?;
        }
    }
    Ok(places)
}

// The ranks of the rows of a name, in order for their spans.
fn ranks_named(alloc: Global, rows: &[Row], name: &Nslc) -> Result<BTreeSet<SpanRank>, OutOfMemory>
    ensures { IfOk result (λ ranks. ranks.keys ≡ ranks_named name.now rows.now) }
{
    let mut ranks = BTreeSet::new(alloc);
    'rows: for (index, row) in rows.iter().enumerate() {
        if is_same_name(&row.header.name, name) {
            ranks.insert(span_rank_of(index, row))?;
        }
    }
    Ok(ranks)
}

/// Whether the row is seen and asked for.
pub fn is_chosen<V: Sight>(sight: &V, query: &DataQuery, row: &Row) -> bool
    ensures { result ≡ passes (V.seen sight.now) query.now row.now }
{
    sight.sees(row) && query.asks(&row.header)
}

fn ranks<V: Sight>(
    alloc: Global,
    rows: &[Row],
    sight: &V,
    query: &DataQuery,
) -> Result<BTreeSet<Rank>, OutOfMemory>
    ensures { IfOk result (λ ranks. ranks.keys ≡ ranks_chosen (V.seen sight.now) query.now rows.now) }
{
    let mut ranks = BTreeSet::new(alloc);
    'rows: for (index, row) in rows.iter().enumerate() {
        if is_chosen(sight, query, row) {
            ranks.insert(rank_of(index, row))?;
        }
    }
    Ok(ranks)
}

// The places of the chosen rows, in their order.
fn chosen<V: Sight>(
    alloc: Global,
    rows: &[Row],
    sight: &V,
    query: &DataQuery,
) -> Result<Many<usize>, OutOfMemory>
    ensures places { IfOk result (λ places. places ≡ chosen_places (V.seen sight.now) query.now rows.now) }
{
    let ranks = ranks(alloc, rows, sight, query)?;
    places_of(alloc, &ranks)
}

impl Shelf for PlainShelf {
    ghost rows = { λ s. s.rows.items };

    fn len(&self) -> usize {
        self.rows.len()
    }

    fn row(&self, i: usize) -> &Row {
        &self.rows[i]
    }

    fn insert(&mut self, row: Row) -> Result<Inserted, OutOfMemory> {
        if is_held(&self.rows, row.image.as_slice()) {
            return Ok(Inserted::Duplicate);
        }
        self.rows.push(row)?;
        Ok(Inserted::New)
    }

    fn insert_all(&mut self, more: Many<Row>) -> Result<(), OutOfMemory> {
        self.rows.reserve(more.len())?;
        put_new(&mut self.rows, more.into_vec());
        Ok(())
    }

    fn choose<V: Sight>(&self, sight: &V, query: &DataQuery) -> Result<Many<usize>, OutOfMemory> {
        let rows = self.rows.as_slice();
        let places = chosen(self.alloc, rows, sight, query)?;
        pick(self.alloc, rows, places, query)
    }

    fn names(&self, selection: &Selection) -> Result<Many<Nslc>, OutOfMemory> {
        let names = names_matched(self.alloc, self.rows.as_slice(), selection)?;
        list_names(self.alloc, &names)
    }

    fn places_named(&self, name: &Nslc) -> Result<Many<usize>, OutOfMemory> {
        places_named(self.alloc, self.rows.as_slice(), name)
    }

    fn merged_spans(&self, name: &Nslc) -> Result<Many<Span>, OutOfMemory> {
        let rows = self.rows.as_slice();
        let ranks = ranks_named(self.alloc, rows, name)?;
        let spans = spans_ranked(self.alloc, rows, &ranks)?;
        Ok(spans)
    }

    ghost few = { λ s. s.few };
}
