//! The names of the channels that have rows.
ghost use Rattle.std.specs.Prelude.{◌≡◌, ◌&&◌, List, [], ◌∷◌, Some, IfOk, if◌then◌else◌};
ghost use Rattle.std.specs.List.{list_any};
ghost use Rattle.dataselect.specs.MergedSpans.{has_name};
ghost use Rattle.dataselect.specs.HeldNames.{names_of};
ghost use Rattle.dataselect.specs.Query.{is_named};
ghost use Rattle.mseed_header.specs.declared.row.Row.{Row};
ghost use Rattle.time_index.specs.Index.{IsChannelIndex};
ghost use Rattle.time_index.specs.Names.{has_rows};
ghost use Rattle.time_index.specs.Windows.{single_name};
ghost use Rattle.dataselect.specs.declared.query.Selection.{Selection};

use crate::channels::Channel;
use crate::windows::single_name;
use channel_globs::Nslc;
use dataselect::Selection;
use exact_time::OutOfMemory;
use std::alloc::Global;
use std::collections::{BTreeMap, BTreeSet};

// Whether the channel has a row. One whose rows were taken out again has none.
fn has_rows(channel: &Channel) -> bool
    ensures { result ≡ has_rows channel.now }
{
    channel.spots.first().is_some()
}

// Whether the channel has a row, and the selection's codes match its name.
fn is_matched(name: &Nslc, channel: &Channel, selection: &Selection) -> bool
    ensures { result ≡ (has_rows channel.now && is_named selection.now name.now) }
{
    has_rows(channel) && selection.names(name)
}

// The same, found by a walk over all channels.
fn names_walked(
    alloc: Global,
    channels: &BTreeMap<Nslc, Channel>,
    selection: &Selection,
) -> Result<BTreeSet<Nslc>, OutOfMemory>
    ensures { IfOk result (λ names. (rows : List Row) → IsChannelIndex rows channels.now → names.keys ≡ names_of selection.now rows) }
{
    let mut names = BTreeSet::new(alloc);
    'channels: for (name, channel) in channels {
        if is_matched(name, channel, selection) {
            names.insert(*name)?;
        }
    }
    Ok(names)
}

// A name, or none.
fn one_if(alloc: Global, held: bool, name: Nslc) -> Result<BTreeSet<Nslc>, OutOfMemory>
    ensures { IfOk result (λ names. names.keys ≡ (if held then name ∷ [] else [])) }
{
    let mut names = BTreeSet::new(alloc);
    if held {
        names.insert(name)?;
    }
    Ok(names)
}

// The one name that a selection can match, if some row has it.
fn name_held(
    alloc: Global,
    channels: &BTreeMap<Nslc, Channel>,
    name: Nslc,
) -> Result<BTreeSet<Nslc>, OutOfMemory>
    ensures { IfOk result (λ names. (s : Selection) (rows : List Row) → single_name s ≡ Some name → IsChannelIndex rows channels.now → names.keys ≡ names_of s rows) }
{
    let held = has_name(channels, &name);
    one_if(alloc, held, name)
}

/// The names of the rows that the selection's codes match. The channel of one name is looked up.
pub fn names_matched(
    alloc: Global,
    channels: &BTreeMap<Nslc, Channel>,
    selection: &Selection,
) -> Result<BTreeSet<Nslc>, OutOfMemory>
    ensures { IfOk result (λ names. (rows : List Row) → IsChannelIndex rows channels.now → names.keys ≡ names_of selection.now rows) }
{
    match single_name(selection) {
        Some(name) => name_held(alloc, channels, name),
        None => names_walked(alloc, channels, selection),
    }
}

/// Whether some row has that name.
pub fn has_name(channels: &BTreeMap<Nslc, Channel>, name: &Nslc) -> bool
    ensures { (rows : List Row) → IsChannelIndex rows channels.now → result ≡ list_any (has_name name.now) rows }
{
    match channels.get(name) {
        Some(channel) => has_rows(channel),
        None => false,
    }
}
