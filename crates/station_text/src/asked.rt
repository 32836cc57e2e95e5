//! What a query for stations asks of a line.
ghost use Rattle.std.specs.Prelude.{◌≡◌, Some, map};
ghost use Rattle.std.specs.List.{list_any};
ghost use Rattle.epochs.specs.Views.{values_of_line};
ghost use Rattle.epochs.specs.declared.line.Line.TheVariants.{Net, Sta, Cha};
ghost use Rattle.channel_globs.specs.Matching.{single_code};
ghost use Rattle.station_text.specs.Asked.{is_every, takes_all_channels, matches_channel, is_inner_channel, channels_of, has_channel, is_wanted, asks_inside, is_inner_station, stations_of, takes_all_stations, has_station, names_network, selects_network, is_eligible, asks_network};

use crate::place::Place;
use crate::sections::{Section, lines_at, lines_in};
use crate::windows::Epoch;
use channel_globs::{Code, PatternList};
use dataselect::Selection;
use epoch_catalog::{Catalog, Family};
use epochs::{ChannelEpoch, Line, NetworkEpoch, StationEpoch};
use query_words::{Area, Level, StationQuery};

// So many lines are walked in the time of a search by halves.
const FEW_LINES: usize = 100;

// Whether a list is the one pattern `*`.
fn is_every(list: &PatternList) -> bool
    ensures { result ≡ is_every list.now }
{
    list.is_any()
}

// Whether a selection asks for every channel of a station.
fn takes_all_channels(selection: &Selection) -> bool
    ensures { result ≡ takes_all_channels selection.now }
{
    is_every(&selection.location) && is_every(&selection.channel)
}

/// The epoch of a network.
pub fn network_epoch(network: &NetworkEpoch) -> Epoch
    ensures { (result.start ≡ network.now.times.start) × (result.end ≡ network.now.times.end) }
{
    Epoch {
        start: network.times.start,
        end: network.times.end,
    }
}

/// The epoch of a station.
pub fn station_epoch(station: &StationEpoch) -> Epoch
    ensures { (result.start ≡ station.now.times.start) × (result.end ≡ station.now.times.end) }
{
    Epoch {
        start: station.times.start,
        end: station.times.end,
    }
}

/// The epoch of a channel.
pub fn channel_epoch(channel: &ChannelEpoch) -> Epoch
    ensures { (result.start ≡ channel.now.times.start) × (result.end ≡ channel.now.times.end) }
{
    Epoch {
        start: channel.times.start,
        end: channel.times.end,
    }
}

/// Whether the selection matches the location and the channel.
pub fn matches_channel(selection: &Selection, channel: &ChannelEpoch) -> bool
    ensures { result ≡ matches_channel selection.now (values_of_line (Cha channel.now)) }
{
    selection.location.matches(&channel.name.location)
        && selection.channel.matches(&channel.name.channel)
}

// Whether the channel's epoch is within the station's, and the selection matches its location and channel.
fn is_inner_channel(selection: &Selection, station: &StationEpoch, channel: &ChannelEpoch) -> bool
    ensures { result ≡ is_inner_channel selection.now (values_of_line (Sta station.now)) (values_of_line (Cha channel.now)) }
{
    station_epoch(station).contains(&channel_epoch(channel)) && matches_channel(selection, channel)
}

// Whether the line is such a channel.
fn is_channel_line(selection: &Selection, station: &StationEpoch, line: &Line) -> bool
    ensures { result ≡ is_inner_channel selection.now (values_of_line (Sta station.now)) (values_of_line line.now) }
{
    match line {
        Line::Cha(channel) => is_inner_channel(selection, station, channel),
        _ => false,
    }
}

// Whether one of the lines is.
fn has_inner_channel(selection: &Selection, station: &StationEpoch, lines: &[Line]) -> bool
    ensures { result ≡ list_any (λ line. is_inner_channel selection.now (values_of_line (Sta station.now)) (values_of_line line)) lines.now }
{
    lines
        .iter()
        .any(|line| is_channel_line(selection, station, line))
}

// Whether one of the station's channels, which these are, is; the selection asks for one location.
fn has_channel_at(
    catalog: &Catalog,
    selection: &Selection,
    station: &StationEpoch,
    location: Code,
    lines: &[Line],
) -> bool
    requires location { single_code selection.now.location ≡ Some location }
    requires lines { map values_of_line lines.now ≡ channels_of (values_of_line (Sta station.now)) catalog.now }
    ensures { result ≡ list_any (is_inner_channel selection.now (values_of_line (Sta station.now))) (channels_of (values_of_line (Sta station.now)) catalog.now) }
{
    // The live lines are in order, and so are these.
    let _ = catalog.lines();
    let section = Section {
        place: Place {
            network: station.network,
            station: station.station,
        },
        location,
        channel: selection.channel.single(),
    };
    has_inner_channel(selection, station, lines_in(lines, &section))
}

// The same of any selection, where the lines are too many to walk them all.
fn has_channel_of_many(
    catalog: &Catalog,
    selection: &Selection,
    station: &StationEpoch,
    lines: &[Line],
) -> bool
    requires { map values_of_line lines.now ≡ channels_of (values_of_line (Sta station.now)) catalog.now }
    ensures { result ≡ list_any (is_inner_channel selection.now (values_of_line (Sta station.now))) (channels_of (values_of_line (Sta station.now)) catalog.now) }
{
    match selection.location.single() {
        Some(location) => has_channel_at(catalog, selection, station, location, lines),
        None => has_inner_channel(selection, station, lines),
    }
}

// Whether one of the station's channels is.
fn has_channel_inside(catalog: &Catalog, selection: &Selection, station: &StationEpoch) -> bool
    ensures { result ≡ list_any (is_inner_channel selection.now (values_of_line (Sta station.now))) (channels_of (values_of_line (Sta station.now)) catalog.now) }
{
    let family = Family::ChannelsOf(station.network, station.station);
    let lines = catalog.family(&family);
    if lines.len() > FEW_LINES {
        return has_channel_of_many(catalog, selection, station, lines);
    }
    has_inner_channel(selection, station, lines)
}

/// Whether the station has a channel that the selection asks for.
pub fn has_channel(catalog: &Catalog, selection: &Selection, station: &StationEpoch) -> bool
    ensures { result ≡ has_channel catalog.now selection.now (values_of_line (Sta station.now)) }
{
    takes_all_channels(selection) || has_channel_inside(catalog, selection, station)
}

// Whether the selection matches the station, and it lies in the area.
fn is_wanted(area: &Area, selection: &Selection, station: &StationEpoch) -> bool
    ensures { result ≡ is_wanted area.now selection.now (values_of_line (Sta station.now)) }
{
    selection.station.matches(&station.station)
        && area.contains(station.position.latitude, station.position.longitude)
}

// Whether a network may be asked for by the station.
fn asks_inside(
    catalog: &Catalog,
    area: &Area,
    selection: &Selection,
    station: &StationEpoch,
) -> bool
    ensures { result ≡ asks_inside catalog.now area.now selection.now (values_of_line (Sta station.now)) }
{
    is_wanted(area, selection, station) && has_channel(catalog, selection, station)
}

// Whether the station's epoch is within the network's, and the network may be asked for by it.
fn is_inner_station(
    catalog: &Catalog,
    area: &Area,
    selection: &Selection,
    network: &NetworkEpoch,
    station: &StationEpoch,
) -> bool
    ensures { result ≡ is_inner_station catalog.now area.now selection.now (values_of_line (Net network.now)) (values_of_line (Sta station.now)) }
{
    network_epoch(network).contains(&station_epoch(station))
        && asks_inside(catalog, area, selection, station)
}

// Whether the line is such a station.
fn is_station_line(
    catalog: &Catalog,
    area: &Area,
    selection: &Selection,
    network: &NetworkEpoch,
    line: &Line,
) -> bool
    ensures { result ≡ is_inner_station catalog.now area.now selection.now (values_of_line (Net network.now)) (values_of_line line.now) }
{
    match line {
        Line::Sta(station) => is_inner_station(catalog, area, selection, network, station),
        _ => false,
    }
}

// Whether one of the lines is.
fn has_inner_station(
    catalog: &Catalog,
    area: &Area,
    selection: &Selection,
    network: &NetworkEpoch,
    lines: &[Line],
) -> bool
    ensures { result ≡ list_any (λ line. is_inner_station catalog.now area.now selection.now (values_of_line (Net network.now)) (values_of_line line)) lines.now }
{
    lines.iter().any(|line| is_station_line(catalog, area, selection, network, line))
}

// Whether the selection and the area ask for every station of a network.
fn takes_all_stations(area: &Area, selection: &Selection) -> bool
    ensures { result ≡ takes_all_stations area.now selection.now }
{
    is_every(&selection.station) && takes_all_channels(selection) && area.is_everywhere()
}

// Whether one of the network's stations of a code is.
fn has_station_at(
    catalog: &Catalog,
    area: &Area,
    selection: &Selection,
    network: &NetworkEpoch,
    station: Code,
) -> bool
    requires { single_code selection.now.station ≡ Some station }
    ensures { result ≡ list_any (is_inner_station catalog.now area.now selection.now (values_of_line (Net network.now))) (stations_of (values_of_line (Net network.now)) catalog.now) }
{
    let place = Place {
        network: network.network,
        station,
    };
    let lines = lines_at(catalog.lines(), Level::Station, &place);
    has_inner_station(catalog, area, selection, network, lines)
}

// Whether one of the network's stations is.
fn has_station_of_all(
    catalog: &Catalog,
    area: &Area,
    selection: &Selection,
    network: &NetworkEpoch,
) -> bool
    ensures { result ≡ list_any (is_inner_station catalog.now area.now selection.now (values_of_line (Net network.now))) (stations_of (values_of_line (Net network.now)) catalog.now) }
{
    let family = Family::StationsOf(network.network);
    has_inner_station(catalog, area, selection, network, catalog.family(&family))
}

// Whether one of the network's stations is; where the selection asks for one code, only its epochs are tested.
fn has_station_inside(
    catalog: &Catalog,
    area: &Area,
    selection: &Selection,
    network: &NetworkEpoch,
) -> bool
    ensures { result ≡ list_any (is_inner_station catalog.now area.now selection.now (values_of_line (Net network.now))) (stations_of (values_of_line (Net network.now)) catalog.now) }
{
    match selection.station.single() {
        Some(station) => has_station_at(catalog, area, selection, network, station),
        None => has_station_of_all(catalog, area, selection, network),
    }
}

// Whether the network has a station that is asked for.
fn has_station(
    catalog: &Catalog,
    area: &Area,
    selection: &Selection,
    network: &NetworkEpoch,
) -> bool
    ensures { result ≡ has_station catalog.now area.now selection.now (values_of_line (Net network.now)) }
{
    takes_all_stations(area, selection) || has_station_inside(catalog, area, selection, network)
}

// Whether the selection matches the network, and its window is met.
fn names_network(selection: &Selection, network: &NetworkEpoch) -> bool
    ensures { result ≡ names_network selection.now (values_of_line (Net network.now)) }
{
    selection.network.matches(&network.network) && network_epoch(network).meets(selection)
}

// Whether some selection asks for the network.
fn selects_network(catalog: &Catalog, query: &StationQuery, network: &NetworkEpoch) -> bool
    ensures { result ≡ selects_network catalog.now query.now (values_of_line (Net network.now)) }
{
    query.selections.as_slice().iter().any(|selection| {
        names_network(selection, network) && has_station(catalog, &query.area, selection, network)
    })
}

// Whether the network is asked for.
fn asks_for_network(catalog: &Catalog, query: &StationQuery, network: &NetworkEpoch) -> bool
    ensures { result ≡ asks_network catalog.now query.now (values_of_line (Net network.now)) }
{
    network_epoch(network).passes_comparisons(query) && selects_network(catalog, query, network)
}

/// Whether the station passes the comparisons and lies in the area.
pub fn is_eligible_station(query: &StationQuery, station: &StationEpoch) -> bool
    ensures { result ≡ is_eligible query.now (values_of_line (Sta station.now)) }
{
    station_epoch(station).passes_comparisons(query)
        && query
            .area
            .contains(station.position.latitude, station.position.longitude)
}

/// Whether the channel passes the comparisons and lies in the area.
pub fn is_eligible_channel(query: &StationQuery, channel: &ChannelEpoch) -> bool
    ensures { result ≡ is_eligible query.now (values_of_line (Cha channel.now)) }
{
    channel_epoch(channel).passes_comparisons(query)
        && query
            .area
            .contains(channel.position.latitude, channel.position.longitude)
}

/// Whether the line is that of a network that is asked for.
pub fn asks_network(catalog: &Catalog, query: &StationQuery, line: &Line) -> bool
    ensures { result ≡ asks_network catalog.now query.now (values_of_line line.now) }
{
    match line {
        Line::Net(network) => asks_for_network(catalog, query, network),
        _ => false,
    }
}
