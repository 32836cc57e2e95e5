//! The rows of one channel, by their places and in order for their spans.
ghost use Rattle.std.specs.Prelude.{◌≡◌, List, [], IfOk, OnOk, map};
ghost use Rattle.std.specs.BTreeMap.{get};
ghost use Rattle.std.specs.List.{slice_get};
ghost use Rattle.std.specs.Ordering.{nat_cmp};
ghost use Rattle.list_laws.specs.InOrder.{in_order};
ghost use Rattle.channel_globs.specs.Names.{name_cmp};
ghost use Rattle.dataselect.specs.MergedSpans.{has_name};
ghost use Rattle.dataselect.specs.SpanOrder.{span_rank_cmp};
ghost use Rattle.time_index.specs.SpanRanks.{span_rank_if, span_ranks_at, places_of};

use crate::channels::Channel;
use crate::spot::Spot;
use channel_globs::Nslc;
use dataselect::{SpanRank, span_rank_of};
use exact_time::{Many, OutOfMemory};
use mseed_header::Row;
use std::alloc::Global;
use std::collections::{BTreeMap, BTreeSet};

// Whether the row has that name.
fn has_name(row: &Row, name: &Nslc) -> bool
    ensures { result ≡ has_name name.now row.now }
{
    row.header.name == *name
}

// Adds the rank of the row at a place, if it has that name.
fn add_rank(
    ranks: &mut BTreeSet<SpanRank>,
    rows: &[Row],
    place: usize,
    name: &Nslc,
) -> Result<(), OutOfMemory>
    ensures ok { OnOk result (ranks.new.keys ≡ in_order span_rank_cmp ranks.old.keys (span_rank_if (has_name name.now) place (slice_get rows.now place) [])) }
{
    let Some(row) = rows.get(place) else {
        return Ok(());
    };
    if has_name(row, name) {
        ranks.insert(span_rank_of(place, row))?;
    }
    Ok(())
}

// The ranks of the rows of a name at some spots.
fn ranks_at(
    alloc: Global,
    rows: &[Row],
    spots: &BTreeSet<Spot>,
    name: &Nslc,
) -> Result<BTreeSet<SpanRank>, OutOfMemory>
    ensures { IfOk result (λ ranks. ranks.keys ≡ in_order span_rank_cmp [] (span_ranks_at (has_name name.now) rows.now (map (λ spot. spot.place) spots.now.keys))) }
{
    let mut ranks = BTreeSet::new(alloc);
    'spots: for spot in spots {
        add_rank(&mut ranks, rows, spot.place, name)?;
    }
    Ok(ranks)
}

/// The ranks of the rows of the channel of that name.
pub fn channel_ranks(
    alloc: Global,
    rows: &[Row],
    channels: &BTreeMap<Nslc, Channel>,
    name: &Nslc,
) -> Result<BTreeSet<SpanRank>, OutOfMemory>
    ensures { IfOk result (λ ranks. ranks.keys ≡ in_order span_rank_cmp [] (span_ranks_at (has_name name.now) rows.now (places_of (get name_cmp channels.now name.now)))) }
{
    match channels.get(name) {
        Some(channel) => ranks_at(alloc, rows, &channel.spots, name),
        None => Ok(BTreeSet::new(alloc)),
    }
}

// The places of the rows at some spots, ascending.
fn places_at(alloc: Global, spots: &BTreeSet<Spot>) -> Result<BTreeSet<usize>, OutOfMemory>
    ensures { IfOk result (λ places. places.keys ≡ in_order nat_cmp [] (map (λ spot. spot.place) spots.now.keys)) }
{
    let mut places = BTreeSet::new(alloc);
    'spots: for spot in spots {
        places.insert(spot.place)?;
    }
    Ok(places)
}

// The places in a list, in their order.
fn list_places(alloc: Global, places: &BTreeSet<usize>) -> Result<Many<usize>, OutOfMemory>
    ensures { IfOk result (λ list. list ≡ places.now.keys) }
{
    let mut list = Many::new(alloc);
    'places: for place in places {
        list.push(*place)?;
    }
    Ok(list)
}

/// The places of the rows of the channel of that name, ascending.
pub fn channel_places(
    alloc: Global,
    channels: &BTreeMap<Nslc, Channel>,
    name: &Nslc,
) -> Result<Many<usize>, OutOfMemory>
    ensures { IfOk result (λ places. places ≡ in_order nat_cmp [] (places_of (get name_cmp channels.now name.now))) }
{
    match channels.get(name) {
        Some(channel) => list_places(alloc, &places_at(alloc, &channel.spots)?),
        None => Ok(Many::new(alloc)),
    }
}
