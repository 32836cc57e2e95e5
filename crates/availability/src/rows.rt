//! The rows of a channel that are asked for, in order.
ghost use Rattle.std.specs.Prelude.{◌≡◌, ◌++◌, [], map, IfOk, OnOk};
ghost use Rattle.std.specs.List.{slice_get};
ghost use Rattle.list_laws.specs.InOrder.{in_order};
ghost use Rattle.dataselect.specs.SpanOrder.{row_or_none};
ghost use Rattle.dataselect.specs.Spans.{rows_in_order};
ghost use Rattle.availability.specs.Channels.{is_asked_of};
ghost use Rattle.availability.specs.Ranks.{rank_cmp, rank_if, ranks_at, rows_ranked};
ghost use Rattle.availability.specs.Spans.{merging_of, has_quality, passes};

use crate::rank::{Rank, rank_of};
use channel_globs::Nslc;
use dataselect::{Shelf, Sight};
use exact_time::{Many, OutOfMemory};
use mseed_header::{Quality, Row};
use query_parameters::QualitySet;
use query_words::AvailQuery;
use std::alloc::Global;
use std::collections::BTreeSet;

fn has_quality(set: QualitySet, quality: Quality) -> bool
    ensures { result ≡ has_quality set quality }
{
    match quality {
        Quality::D => set.d,
        Quality::M => set.m,
        Quality::Q => set.q,
        Quality::R => set.r,
    }
}

// Whether the row is seen, and has a quality that is asked for.
fn passes<V: Sight>(sight: &V, query: &AvailQuery, row: &Row) -> bool
    ensures { result ≡ passes (V.seen sight.now) query.now row.now }
{
    sight.sees(row) && has_quality(query.qualities, row.header.quality)
}

// Adds the rank of the row at a place, if it is asked for.
fn add_rank<S: Shelf, V: Sight>(
    ranks: &mut BTreeSet<Rank>,
    shelf: &S,
    sight: &V,
    query: &AvailQuery,
    place: usize,
) -> Result<(), OutOfMemory>
    ensures ok { OnOk result (ranks.new.keys ≡ in_order rank_cmp ranks.old.keys (rank_if (passes (V.seen sight.now) query.now) query.now place (slice_get (S.rows shelf.now) place))) }
{
    if place >= shelf.len() {
        return Ok(());
    }
    let row = shelf.row(place);
    if passes(sight, query, row) {
        ranks.insert(rank_of(query, place, row))?;
    }
    Ok(())
}

// The ranks of the rows at some places that are asked for.
fn ranks<S: Shelf, V: Sight>(
    alloc: Global,
    shelf: &S,
    sight: &V,
    query: &AvailQuery,
    places: &[usize],
) -> Result<BTreeSet<Rank>, OutOfMemory>
    ensures { IfOk result (λ ranks. ranks.keys ≡ in_order rank_cmp [] (ranks_at (passes (V.seen sight.now) query.now) query.now (S.rows shelf.now) places.now)) }
{
    let mut ranks = BTreeSet::new(alloc);
    'places: for place in places {
        add_rank(&mut ranks, shelf, sight, query, *place)?;
    }
    Ok(ranks)
}

// Adds the row at a place, if there is one.
fn add_row<'a, S: Shelf>(
    rows: &mut Many<&'a Row>,
    shelf: &'a S,
    index: usize,
) -> Result<(), OutOfMemory>
    ensures ok { OnOk result (map (λ r. r.now) rows.new ≡ map (λ r. r.now) rows.old ++ row_or_none (slice_get (S.rows shelf.now) index)) }
{
    if index < shelf.len() {
        rows.push(shelf.row(index))?;
    }
    Ok(())
}

// The rows at the places of ranks.
fn rows_ranked<'a, S: Shelf>(
    alloc: Global,
    shelf: &'a S,
    ranks: &BTreeSet<Rank>,
) -> Result<Many<&'a Row>, OutOfMemory>
    ensures { IfOk result (λ rows. map (λ r. r.now) rows ≡ rows_ranked (S.rows shelf.now) ranks.now.keys) }
{
    let mut rows = Many::new(alloc);
    'ranks: for rank in ranks {
        add_row(&mut rows, shelf, rank.index)?;
    }
    Ok(rows)
}

/// The rows of a name that are asked for, in order for their spans.
pub fn rows_named<'a, S: Shelf, V: Sight>(
    alloc: Global,
    shelf: &'a S,
    sight: &V,
    query: &AvailQuery,
    name: &Nslc,
) -> Result<Many<&'a Row>, OutOfMemory>
    ensures { IfOk result (λ rows. map (λ r. r.now) rows ≡ rows_in_order (merging_of query.now) (is_asked_of (V.seen sight.now) query.now name.now) (S.rows shelf.now)) }
{
    let places = shelf.places_named(name)?;
    let ranks = ranks(alloc, shelf, sight, query, places.as_slice())?;
    rows_ranked(alloc, shelf, &ranks)
}
