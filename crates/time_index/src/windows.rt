//! The rows that the windows of selections find.
ghost use Rattle.std.specs.Prelude.{◌≡◌, ◌++◌, ◌<◌, true, map, IsNone, OnOk, IfOk, IfSome, [], length};
ghost use Rattle.std.specs.List.{slice_get};
ghost use Rattle.std.specs.List.Sorted.{IsStrictlySortedBy};
ghost use Rattle.list_laws.specs.InOrder.{in_order};
ghost use Rattle.dataselect.specs.Chosen.{ranks_from};
ghost use Rattle.dataselect.specs.Order.{rank_cmp};
ghost use Rattle.dataselect.specs.Query.{is_named};
ghost use Rattle.time_index.specs.Index.{IsChannelIndex, IsOfName, AreOfName};
ghost use Rattle.time_index.specs.Windows.{first_spot_at, lower_of, upper_of, from_bound, to_bound, is_forward, places_between, places_at, places_in, single_name, window_places, passes_by, rank_if, ranks_at, ranks_found};

use crate::asked::Asked;
use crate::channels::Channel;
use crate::spot::Spot;
use crate::wholes::Wholes;
use channel_globs::Nslc;
use dataselect::{DataQuery, Rank, Selection, Sight, places_of, rank_of};
use exact_time::{Many, Moment, OutOfMemory};
use mseed_header::Row;
use std::alloc::Global;
use std::collections::{BTreeMap, BTreeSet};
use std::ops::Bound;

// The first spot that a start can have.
fn first_spot_at(micros: i64) -> Spot
    ensures { result ≡ first_spot_at micros }
{
    Spot {
        start: Moment { micros },
        fingerprint: 0,
        place: 0,
    }
}

// From where on rows may reach the start of a window, where none lasts longer than that.
fn lower(start: Option<Moment>, longest: u128) -> Option<Spot>
    ensures { result ≡ lower_of start longest }
{
    let least = (start?.micros as i128).saturating_sub_unsigned(longest);
    if least < i64::MIN as i128 {
        return None;
    }
    Some(first_spot_at(least as i64))
}

// Up to where rows start by the end of a window.
fn upper(end: Option<Moment>) -> Option<Spot>
    ensures { result ≡ upper_of end }
{
    let end = end?;
    if end.micros == i64::MAX {
        return None;
    }
    Some(first_spot_at(end.micros + 1))
}

fn from_bound(lower: Option<Spot>) -> Bound<Spot>
    ensures { result ≡ from_bound lower }
{
    match lower {
        Some(spot) => Bound::Included(spot),
        None => Bound::Unbounded,
    }
}

fn to_bound(upper: Option<Spot>) -> Bound<Spot>
    ensures { result ≡ to_bound upper }
{
    match upper {
        Some(spot) => Bound::Excluded(spot),
        None => Bound::Unbounded,
    }
}

fn is_forward(lower: Option<Spot>, upper: Option<Spot>) -> bool
    ensures { result ≡ is_forward lower upper }
{
    match (lower, upper) {
        (Some(lower), Some(upper)) => lower <= upper,
        _ => true,
    }
}

// Adds the rank of the row at a place of the channel, if it is asked for.
fn add_rank<V: Sight>(
    ranks: &mut Many<Rank>,
    asked: &Asked<'_, V>,
    rows: &[Row],
    place: usize,
) -> Result<(), OutOfMemory>
    requires of_it { IsOfName asked.now.name.now (slice_get rows.now place) }
    ensures ok { OnOk result (ranks.new ≡ ranks.old ++ rank_if (passes_by (V.seen asked.now.sight.now) asked.now.query.now asked.now.selection.now) place (slice_get rows.now place) []) }
{
    let Some(row) = rows.get(place) else {
        return Ok(());
    };
    if asked.has(row) {
        ranks.push(rank_of(place, row))?;
    }
    Ok(())
}

// Adds the ranks of the rows that are asked for, of the spots from one up to before another.
#[tactic(auto, unfolding(crate::specs::Windows::places_between))]
fn add_between<V: Sight>(
    ranks: &mut Many<Rank>,
    asked: &Asked<'_, V>,
    rows: &[Row],
    spots: &BTreeSet<Spot>,
    lower: Option<Spot>,
    upper: Option<Spot>,
) -> Result<(), OutOfMemory>
    requires of_it { AreOfName rows.now asked.now.name.now spots.now.keys }
    ensures ok { OnOk result (ranks.new ≡ ranks.old ++ ranks_at (passes_by (V.seen asked.now.sight.now) asked.now.query.now asked.now.selection.now) rows.now (places_between lower upper spots.now)) }
{
    if is_forward(lower, upper) {
        'spots: for spot in spots.range((from_bound(lower), to_bound(upper))) {
            add_rank(ranks, asked, rows, spot.place)?;
        }
    }
    Ok(())
}

// Adds the ranks of the channel's rows that are asked for.
#[tactic(auto, unfolding(crate::specs::Windows::places_at))]
fn add_asked<V: Sight>(
    ranks: &mut Many<Rank>,
    asked: &Asked<'_, V>,
    rows: &[Row],
    channel: &Channel,
) -> Result<(), OutOfMemory>
    requires of_it { AreOfName rows.now asked.now.name.now channel.now.spots.keys }
    ensures ok { OnOk result (ranks.new ≡ ranks.old ++ ranks_at (passes_by (V.seen asked.now.sight.now) asked.now.query.now asked.now.selection.now) rows.now (places_at asked.now.selection.now channel.now)) }
{
    let lower = lower(asked.selection.start, channel.longest);
    let upper = upper(asked.selection.end);
    add_between(ranks, asked, rows, &channel.spots, lower, upper)
}

// Adds the ranks of the rows of a channel that the selection names which are seen and asked for.
fn add_channel<V: Sight>(
    ranks: &mut Many<Rank>,
    wholes: &mut Wholes<'_, V>,
    rows: &[Row],
    name: &Nslc,
    channel: &Channel,
    query: &DataQuery,
    selection: &Selection,
) -> Result<(), OutOfMemory>
    requires named { is_named selection.now name.now ≡ true }
    requires of_it { AreOfName rows.now name.now channel.now.spots.keys }
    ensures ok { OnOk result (ranks.new ≡ ranks.old ++ ranks_at (passes_by (V.seen wholes.old.sight.now) query.now selection.now) rows.now (places_at selection.now channel.now)) }
    ensures sight { wholes.new.sight.now ≡ wholes.old.sight.now }
{
    let whole = wholes.is_whole(name)?;
    let asked = Asked {
        sight: wholes.sight,
        query,
        selection,
        name,
        whole,
    };
    add_asked(ranks, &asked, rows, channel)
}

// Adds the ranks of the rows of each channel that the selection names which are seen and asked for.
fn add_channels<V: Sight>(
    ranks: &mut Many<Rank>,
    wholes: &mut Wholes<'_, V>,
    rows: &[Row],
    channels: &BTreeMap<Nslc, Channel>,
    query: &DataQuery,
    selection: &Selection,
) -> Result<(), OutOfMemory>
    requires index { IsChannelIndex rows.now channels.now }
    ensures ok { OnOk result (ranks.new ≡ ranks.old ++ ranks_at (passes_by (V.seen wholes.old.sight.now) query.now selection.now) rows.now (places_in selection.now channels.now.entries)) }
    ensures sight { wholes.new.sight.now ≡ wholes.old.sight.now }
{
    'channels: for (name, channel) in channels {
        if selection.names(name) {
            add_channel(ranks, wholes, rows, name, channel, query, selection)?;
        }
    }
    Ok(())
}

/// The one name that the selection names, where it has no wildcard.
pub fn single_name(selection: &Selection) -> Option<Nslc>
    ensures { result ≡ single_name selection.now }
{
    Some(Nslc {
        network: selection.network.single()?,
        station: selection.station.single()?,
        location: selection.location.single()?,
        channel: selection.channel.single()?,
    })
}

// Adds the ranks of the rows that a selection finds. The channel of one name is looked up.
fn add_found<V: Sight>(
    ranks: &mut Many<Rank>,
    wholes: &mut Wholes<'_, V>,
    rows: &[Row],
    channels: &BTreeMap<Nslc, Channel>,
    query: &DataQuery,
    selection: &Selection,
) -> Result<(), OutOfMemory>
    requires index { IsChannelIndex rows.now channels.now }
    ensures ok { OnOk result (ranks.new ≡ ranks.old ++ ranks_at (passes_by (V.seen wholes.old.sight.now) query.now selection.now) rows.now (window_places selection.now channels.now)) }
    ensures sight { wholes.new.sight.now ≡ wholes.old.sight.now }
{
    let Some(name) = single_name(selection) else {
        return add_channels(ranks, wholes, rows, channels, query, selection);
    };
    match channels.get(&name) {
        Some(channel) => add_channel(ranks, wholes, rows, &name, channel, query, selection),
        None => Ok(()),
    }
}

/// The ranks of the rows that the selections find, where they aren't many more than there are rows: a row that
/// several selections ask for comes several times. Each row is tested against the selection alone that found it.
pub fn ranks_found<V: Sight>(
    alloc: Global,
    rows: &[Row],
    channels: &BTreeMap<Nslc, Channel>,
    sight: &V,
    query: &DataQuery,
) -> Result<Option<Many<Rank>>, OutOfMemory>
    requires index { IsChannelIndex rows.now channels.now }
    ensures some { IfOk result (λ found. IfSome found (λ ranks. ranks ≡ ranks_found (V.seen sight.now) query.now rows.now channels.now query.now.selections)) }
    ensures none { IfOk result (λ found. IsNone found → length rows.now < length (ranks_found (V.seen sight.now) query.now rows.now channels.now query.now.selections)) }
{
    let mut ranks = Many::new(alloc);
    let mut wholes = Wholes::new(alloc, sight);
    'selections: for selection in query.selections.as_slice() {
        if rows.len() < ranks.len() {
            return Ok(None);
        }
        add_found(&mut ranks, &mut wholes, rows, channels, query, selection)?;
    }
    Ok(Some(ranks))
}

/// The ranks of the rows that are seen and asked for, found by a walk over all rows.
pub fn ranks_walked<V: Sight>(
    alloc: Global,
    rows: &[Row],
    sight: &V,
    query: &DataQuery,
) -> Result<Many<Rank>, OutOfMemory>
    ensures { IfOk result (λ ranks. ranks ≡ ranks_from (V.seen sight.now) query.now 0 rows.now) }
{
    let mut ranks = Many::new(alloc);
    let mut wholes = Wholes::new(alloc, sight);
    'rows: for (place, row) in rows.iter().enumerate() {
        if wholes.is_asked_for(query, row)? {
            ranks.push(rank_of(place, row))?;
        }
    }
    Ok(ranks)
}

// Whether each rank is below the next.
fn are_rising(ranks: &[Rank]) -> bool
    ensures { result ≡ true → IsStrictlySortedBy rank_cmp ranks.now }
{
    'ranks: for index in 1..ranks.len() {
        if ranks[index - 1].cmp(&ranks[index]).is_ge() {
            return false;
        }
    }
    true
}

// The places in the shelf, in the order of the list.
fn list_places(alloc: Global, ranks: &[Rank]) -> Result<Many<usize>, OutOfMemory>
    ensures { IfOk result (λ places. places ≡ map (λ rank. rank.index) ranks.now) }
{
    let mut places = Many::new(alloc);
    'ranks: for rank in ranks {
        places.push(rank.index)?;
    }
    Ok(places)
}

// Ranks in order, each once.
fn in_order(alloc: Global, ranks: Many<Rank>) -> Result<BTreeSet<Rank>, OutOfMemory>
    ensures { IfOk result (λ set. set.keys ≡ in_order rank_cmp [] ranks) }
{
    let set = ranks.into_vec().into_iter().collect(alloc)?;
    Ok(set)
}

/// The places in the shelf, in the order of the ranks, each once. Ranks that rise already are as they are.
pub fn places_in_order(alloc: Global, ranks: Many<Rank>) -> Result<Many<usize>, OutOfMemory>
    ensures { IfOk result (λ places. places ≡ map (λ rank. rank.index) (in_order rank_cmp [] ranks)) }
{
    if are_rising(ranks.as_slice()) {
        return list_places(alloc, ranks.as_slice());
    }
    let set = in_order(alloc, ranks)?;
    places_of(alloc, &set)
}
