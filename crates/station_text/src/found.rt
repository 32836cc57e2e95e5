//! The live lines that a query asks for.
//!
//! Where each selection names one station, as the lines of a POST mostly do, the lines of these stations are found by
//! halves, one station after another in order. Else the lines of the level are walked once, or of these those of
//! the one network that each selection names.
ghost use Rattle.std.specs.Prelude.{◌≡◌, [], ◌++◌, true, map, filter, IfOk, OnOk};
ghost use Rattle.std.specs.List.{list_all, filter_map, flat_map};
ghost use Rattle.list_laws.specs.InOrder.{in_order};
ghost use Rattle.epochs.specs.Views.{values_of_line};
ghost use Rattle.station_text.specs.Asked.{is_line_asked, asked_lines};
ghost use Rattle.station_text.specs.Found.{level_family, is_of_stations, place_of, has_place, place_cmp, asked_at, on_place, names_only, first_network};
ghost use Rattle.station_text.specs.declared.place.Place.{Place};
ghost use Rattle.station_text.specs.Groups.{group_at};
ghost use Rattle.station_text.specs.Lines.{line_at};
ghost use Rattle.station_text.specs.Matched.{AreMatched, selection_at};

use crate::groups::{Group, grouped};
use crate::matched::{Matched, matched_at, walk, walk_station};
use crate::place::{Place, have_places, place_of};
use crate::sections::{lines_at, lines_on};
use channel_globs::Code;
use dataselect::Selection;
use epoch_catalog::{Catalog, Family};
use epochs::Line;
use exact_time::{Many, OutOfMemory};
use query_words::{Level, StationQuery};
use std::alloc::Global;
use std::collections::{BTreeMap, BTreeSet};

// The lines of a level.
fn level_family(level: Level) -> Family<'static>
    ensures { result ≡ level_family level }
{
    match level {
        Level::Network => Family::Networks,
        Level::Station => Family::Stations,
        Level::Channel => Family::Channels,
    }
}

fn is_of_stations(level: Level) -> bool
    ensures { result ≡ is_of_stations level }
{
    match level {
        Level::Network => false,
        Level::Station => true,
        Level::Channel => true,
    }
}

// The stations that selections name, in order, each once.
fn places_of(alloc: Global, selections: &[Selection]) -> Result<BTreeSet<Place>, OutOfMemory>
    ensures { IfOk result (λ places. places.keys ≡ in_order place_cmp [] (filter_map place_of selections.now)) }
{
    let mut places = BTreeSet::new(alloc);
    'selections: for selection in selections {
        if let Some(place) = place_of(selection) {
            places.insert(place)?;
        }
    }
    Ok(places)
}

// Puts the lines of a station that are asked for behind others; these selections match its codes.
fn walk_group<'a>(
    catalog: &'a Catalog,
    query: &StationQuery,
    place: &Place,
    selections: &[&Selection],
    asked: &mut Many<&'a Line>,
) -> Result<(), OutOfMemory>
    requires { map selection_at selections.now ≡ on_place place.now query.now.selections }
    ensures { OnOk result (map line_at asked.new ≡ map line_at asked.old ++ asked_at catalog.now query.now place.now) }
{
    let lines = lines_at(catalog.lines(), query.level, place);
    walk_station(catalog, query, selections, lines, asked)
}

// The same with the selections that are kept for the station.
fn walk_at<'a>(
    catalog: &'a Catalog,
    query: &StationQuery,
    place: &Place,
    groups: &BTreeMap<Place, Group<'_>>,
    asked: &mut Many<&'a Line>,
) -> Result<(), OutOfMemory>
    requires { group_at groups.now place.now ≡ on_place place.now query.now.selections }
    ensures { OnOk result (map line_at asked.new ≡ map line_at asked.old ++ asked_at catalog.now query.now place.now) }
{
    match groups.get(place) {
        Some(group) => walk_group(catalog, query, place, group.selections.as_slice(), asked),
        None => walk_group(catalog, query, place, &[], asked),
    }
}

// Before the first line no selections are kept: no network has the blank code.
fn at_no_place<'a>(alloc: Global, selections: &'a [Selection]) -> Result<Matched<'a>, OutOfMemory>
    ensures { IfOk result (AreMatched selections.now) }
{
    let place = Place {
        network: Code::blank(),
        station: Code::blank(),
    };
    matched_at(alloc, selections, place)
}

// The lines that are asked for of these stations, one after another.
fn asked_at_places<'a>(
    alloc: Global,
    catalog: &'a Catalog,
    query: &StationQuery,
    places: &BTreeSet<Place>,
    groups: &BTreeMap<Place, Group<'_>>,
) -> Result<Many<&'a Line>, OutOfMemory>
    requires { (place : Place) → group_at groups.now place ≡ on_place place query.now.selections }
    ensures { IfOk result (λ asked. map line_at asked ≡ flat_map (asked_at catalog.now query.now) places.now.keys) }
{
    let mut asked = Many::new(alloc);
    'places: for place in places {
        walk_at(catalog, query, place, groups, &mut asked)?;
    }
    Ok(asked)
}

// The lines that are asked for, where each selection names one station.
fn asked_by_places<'a>(
    alloc: Global,
    catalog: &'a Catalog,
    query: &StationQuery,
) -> Result<Many<&'a Line>, OutOfMemory>
    requires level { is_of_stations query.now.level ≡ true }
    requires places { list_all has_place query.now.selections ≡ true }
    ensures { IfOk result (λ lines. map line_at lines ≡ asked_lines catalog.now query.now) }
{
    let _ = catalog.lines();
    let selections = query.selections.as_slice();
    let places = places_of(alloc, selections)?;
    let groups = grouped(alloc, selections)?;
    asked_at_places(alloc, catalog, query, &places, &groups)
}

// Those of some lines that are asked for, by one walk.
fn asked_among<'a>(
    alloc: Global,
    catalog: &Catalog,
    query: &StationQuery,
    lines: &'a [Line],
) -> Result<Many<&'a Line>, OutOfMemory>
    ensures { IfOk result (λ asked. map line_at asked ≡ filter (is_line_asked catalog.now query.now) (map values_of_line lines.now)) }
{
    let mut asked = Many::new(alloc);
    let first = at_no_place(alloc, query.selections.as_slice())?;
    walk(alloc, catalog, query, first, lines, &mut asked)?;
    Ok(asked)
}

// The lines that are asked for, by one walk over the lines of the level.
fn asked_in_level<'a>(
    alloc: Global,
    catalog: &'a Catalog,
    query: &StationQuery,
) -> Result<Many<&'a Line>, OutOfMemory>
    ensures { IfOk result (λ lines. map line_at lines ≡ asked_lines catalog.now query.now) }
{
    let lines = catalog.family(&level_family(query.level));
    asked_among(alloc, catalog, query, lines)
}

// Whether each selection names this network alone.
fn name_only(selections: &[Selection], network: Code) -> bool
    ensures { result ≡ list_all (names_only network) selections.now }
{
    selections
        .iter()
        .all(|selection| names_only(selection, network))
}

fn names_only(selection: &Selection, network: Code) -> bool
    ensures { result ≡ names_only network selection.now }
{
    match selection.network.single() {
        Some(code) => code == network,
        None => false,
    }
}

// The lines that are asked for, by one walk over the lines of the one network that each selection names.
fn asked_on_network<'a>(
    alloc: Global,
    catalog: &'a Catalog,
    query: &StationQuery,
    network: Code,
) -> Result<Many<&'a Line>, OutOfMemory>
    requires level { is_of_stations query.now.level ≡ true }
    requires network { list_all (names_only network) query.now.selections ≡ true }
    ensures { IfOk result (λ lines. map line_at lines ≡ asked_lines catalog.now query.now) }
{
    let lines = lines_on(catalog.lines(), query.level, network);
    asked_among(alloc, catalog, query, lines)
}

// The network that the first selection names, where it names one.
fn first_network(selections: &[Selection]) -> Option<Code>
    ensures { result ≡ first_network selections.now }
{
    match selections.first() {
        Some(selection) => selection.network.single(),
        None => None,
    }
}

// The lines that are asked for, by one walk: over the lines of a network, where each selection names that one,
// and else over those of the level.
fn asked_by_walk<'a>(
    alloc: Global,
    catalog: &'a Catalog,
    query: &StationQuery,
) -> Result<Many<&'a Line>, OutOfMemory>
    requires { is_of_stations query.now.level ≡ true }
    ensures { IfOk result (λ lines. map line_at lines ≡ asked_lines catalog.now query.now) }
{
    if let Some(network) = first_network(query.selections.as_slice()) {
        if name_only(query.selections.as_slice(), network) {
            return asked_on_network(alloc, catalog, query, network);
        }
    }
    asked_in_level(alloc, catalog, query)
}

/// The live lines that are asked for, in the order of codes and start.
pub fn asked_lines<'a>(
    alloc: Global,
    catalog: &'a Catalog,
    query: &StationQuery,
) -> Result<Many<&'a Line>, OutOfMemory>
    ensures { IfOk result (λ lines. map line_at lines ≡ asked_lines catalog.now query.now) }
{
    if !is_of_stations(query.level) {
        return asked_in_level(alloc, catalog, query);
    }
    if have_places(query.selections.as_slice()) {
        return asked_by_places(alloc, catalog, query);
    }
    asked_by_walk(alloc, catalog, query)
}
