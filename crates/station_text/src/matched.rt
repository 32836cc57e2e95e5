//! The selections that match a network and a station, kept while the lines of that station are walked.
//!
//! The lines of a network stand together, and among them those of a station. So a selection is matched against
//! each network once, and against each station of the networks that it matches; a line is tested against the
//! selections alone that are left.
ghost use Rattle.std.specs.Prelude.{◌≡◌, [], ◌++◌, map, filter, IfOk, OnOk};
ghost use Rattle.std.specs.List.{list_any};
ghost use Rattle.epochs.specs.Views.{values_of_line};
ghost use Rattle.epochs.specs.declared.line.Line.TheVariants.{Sta, Cha};
ghost use Rattle.query_parameters.specs.declared.level.Level.TheVariants as level;
ghost use Rattle.station_text.specs.Asked.{is_line_asked};
ghost use Rattle.station_text.specs.Matched.{selection_at, on_network, on_station, AreMatched, StandsAt, takes_station, takes_channel, is_asked_by};
ghost use Rattle.station_text.specs.Lines.{line_at};

use crate::asked::{
    asks_network, channel_epoch, has_channel, is_eligible_channel, is_eligible_station,
    matches_channel, station_epoch,
};
use crate::place::{Place, line_place};
use channel_globs::Code;
use dataselect::Selection;
use epoch_catalog::Catalog;
use epochs::{ChannelEpoch, Line, StationEpoch};
use exact_time::{Many, OutOfMemory};
use query_words::{Level, StationQuery};
use std::alloc::Global;

/// The selections that match a network, and those of them that match one of its stations.
#[derive(Drop)]
pub struct Matched<'a> {
    pub place: Place,
    pub on_network: Many<&'a Selection>,
    pub on_station: Many<&'a Selection>,
}

// The selections that match a network.
fn on_network<'a>(
    alloc: Global,
    selections: &'a [Selection],
    network: Code,
) -> Result<Many<&'a Selection>, OutOfMemory>
    ensures { IfOk result (λ found. map selection_at found ≡ on_network network selections.now) }
{
    let mut found = Many::new(alloc);
    'selections: for selection in selections {
        if selection.network.matches(&network) {
            found.push(selection)?;
        }
    }
    Ok(found)
}

// Of some selections those that match a station's own code.
fn on_station<'a>(
    alloc: Global,
    selections: &[&'a Selection],
    station: Code,
) -> Result<Many<&'a Selection>, OutOfMemory>
    ensures { IfOk result (λ found. map selection_at found ≡ on_station station (map selection_at selections.now)) }
{
    let mut found = Many::new(alloc);
    'selections: for selection in selections {
        if selection.station.matches(&station) {
            found.push(*selection)?;
        }
    }
    Ok(found)
}

/// The selections that match a station.
pub fn matched_at<'a>(
    alloc: Global,
    selections: &'a [Selection],
    place: Place,
) -> Result<Matched<'a>, OutOfMemory>
    ensures place { IfOk result (λ kept. kept.place ≡ place) }
    ensures selections { IfOk result (AreMatched selections.now) }
{
    let on_network = on_network(alloc, selections, place.network)?;
    let on_station = on_station(alloc, on_network.as_slice(), place.station)?;
    Ok(Matched {
        place,
        on_network,
        on_station,
    })
}

// The selections that match a station of the same network, found anew where it isn't the one before.
fn turned_within<'a>(
    alloc: Global,
    selections: &'a [Selection],
    before: Matched<'a>,
    place: Place,
) -> Result<Matched<'a>, OutOfMemory>
    requires network { before.place.network ≡ place.network }
    requires selections { AreMatched selections.now before }
    ensures place { IfOk result (λ kept. kept.place ≡ place) }
    ensures selections { IfOk result (AreMatched selections.now) }
{
    if before.place.station == place.station {
        return Ok(before);
    }
    let on_network = before.on_network;
    let on_station = on_station(alloc, on_network.as_slice(), place.station)?;
    Ok(Matched {
        place,
        on_network,
        on_station,
    })
}

// The selections that match a station, found anew where it isn't the one before.
fn turned<'a>(
    alloc: Global,
    selections: &'a [Selection],
    before: Matched<'a>,
    place: Place,
) -> Result<Matched<'a>, OutOfMemory>
    requires { AreMatched selections.now before }
    ensures place { IfOk result (λ kept. kept.place ≡ place) }
    ensures selections { IfOk result (AreMatched selections.now) }
{
    if before.place.network == place.network {
        return turned_within(alloc, selections, before, place);
    }
    matched_at(alloc, selections, place)
}

// The same at a line; at one that is of no station nothing is found.
fn turned_to_line<'a>(
    alloc: Global,
    selections: &'a [Selection],
    before: Matched<'a>,
    line: &Line,
) -> Result<Matched<'a>, OutOfMemory>
    requires { AreMatched selections.now before }
    ensures place { IfOk result (StandsAt (values_of_line line.now)) }
    ensures selections { IfOk result (AreMatched selections.now) }
{
    match line_place(line) {
        Some(place) => turned(alloc, selections, before, place),
        None => Ok(before),
    }
}

// Whether a selection that matches a station's codes asks for the station.
fn takes_station(catalog: &Catalog, selection: &Selection, station: &StationEpoch) -> bool
    ensures { result ≡ takes_station catalog.now (values_of_line (Sta station.now)) selection.now }
{
    station_epoch(station).meets(selection) && has_channel(catalog, selection, station)
}

// Whether a selection that matches a channel's network and station asks for the channel.
fn takes_channel(selection: &Selection, channel: &ChannelEpoch) -> bool
    ensures { result ≡ takes_channel (values_of_line (Cha channel.now)) selection.now }
{
    matches_channel(selection, channel) && channel_epoch(channel).meets(selection)
}

fn some_takes_station(catalog: &Catalog, selections: &[&Selection], station: &StationEpoch) -> bool
    ensures { result ≡ list_any (λ selection. takes_station catalog.now (values_of_line (Sta station.now)) selection.now) selections.now }
{
    selections
        .iter()
        .any(|selection| takes_station(catalog, selection, station))
}

fn some_takes_channel(selections: &[&Selection], channel: &ChannelEpoch) -> bool
    ensures { result ≡ list_any (λ selection. takes_channel (values_of_line (Cha channel.now)) selection.now) selections.now }
{
    selections
        .iter()
        .any(|selection| takes_channel(selection, channel))
}

// Whether a station is asked for, by these selections that match its codes.
fn is_station_asked(
    catalog: &Catalog,
    query: &StationQuery,
    selections: &[&Selection],
    station: &StationEpoch,
) -> bool
    ensures { result ≡ is_asked_by level.Station catalog.now query.now (map selection_at selections.now) (values_of_line (Sta station.now)) }
{
    is_eligible_station(query, station) && some_takes_station(catalog, selections, station)
}

fn is_channel_asked(query: &StationQuery, selections: &[&Selection], channel: &ChannelEpoch) -> bool
    ensures { result ≡ is_asked_by level.Channel [] query.now (map selection_at selections.now) (values_of_line (Cha channel.now)) }
{
    is_eligible_channel(query, channel) && some_takes_channel(selections, channel)
}

// Whether the line is that of such a station, or of such a channel.
fn is_station_line_asked(
    catalog: &Catalog,
    query: &StationQuery,
    selections: &[&Selection],
    line: &Line,
) -> bool
    ensures { result ≡ is_asked_by level.Station catalog.now query.now (map selection_at selections.now) (values_of_line line.now) }
{
    match line {
        Line::Sta(station) => is_station_asked(catalog, query, selections, station),
        _ => false,
    }
}

fn is_channel_line_asked(query: &StationQuery, selections: &[&Selection], line: &Line) -> bool
    ensures { result ≡ is_asked_by level.Channel [] query.now (map selection_at selections.now) (values_of_line line.now) }
{
    match line {
        Line::Cha(channel) => is_channel_asked(query, selections, channel),
        _ => false,
    }
}

// Whether the line is asked for at the query's level, where these selections match its network and station.
fn is_asked_by(
    catalog: &Catalog,
    query: &StationQuery,
    selections: &[&Selection],
    line: &Line,
) -> bool
    ensures { result ≡ is_asked_by query.now.level catalog.now query.now (map selection_at selections.now) (values_of_line line.now) }
{
    match query.level {
        Level::Network => asks_network(catalog, query, line),
        Level::Station => is_station_line_asked(catalog, query, selections, line),
        Level::Channel => is_channel_line_asked(query, selections, line),
    }
}

// Whether the line is asked for, where the selections are kept for its station.
fn is_line_asked(catalog: &Catalog, query: &StationQuery, kept: &Matched<'_>, line: &Line) -> bool
    requires place { StandsAt (values_of_line line.now) kept.now }
    requires selections { AreMatched query.now.selections kept.now }
    ensures { result ≡ is_line_asked catalog.now query.now (values_of_line line.now) }
{
    is_asked_by(catalog, query, kept.on_station.as_slice(), line)
}

/// Puts those of some lines of a station that are asked for behind others, where these selections match its codes.
pub fn walk_station<'a>(
    catalog: &Catalog,
    query: &StationQuery,
    selections: &[&Selection],
    lines: &'a [Line],
    asked: &mut Many<&'a Line>,
) -> Result<(), OutOfMemory>
    ensures { OnOk result (map line_at asked.new ≡ map line_at asked.old ++ filter (is_asked_by query.now.level catalog.now query.now (map selection_at selections.now)) (map values_of_line lines.now)) }
{
    'lines: for line in lines {
        if is_asked_by(catalog, query, selections, line) {
            asked.push(line)?;
        }
    }
    Ok(())
}

/// Puts those of some lines that are asked for behind others, with the selections that are kept for a station
/// before; afterwards they are kept for the last line's.
pub fn walk<'a, 'b>(
    alloc: Global,
    catalog: &Catalog,
    query: &'b StationQuery,
    before: Matched<'b>,
    lines: &'a [Line],
    asked: &mut Many<&'a Line>,
) -> Result<Matched<'b>, OutOfMemory>
    requires { AreMatched query.now.selections before }
    ensures asked { OnOk result (map line_at asked.new ≡ map line_at asked.old ++ filter (is_line_asked catalog.now query.now) (map values_of_line lines.now)) }
    ensures selections { IfOk result (AreMatched query.now.selections) }
{
    let selections = query.selections.as_slice();
    let mut kept = before;
    'lines: for line in lines {
        kept = turned_to_line(alloc, selections, kept, line)?;
        if is_line_asked(catalog, query, &kept, line) {
            asked.push(line)?;
        }
    }
    Ok(kept)
}
