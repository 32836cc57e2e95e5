//! The lines of the text answers.
ghost use Rattle.std.specs.Prelude.{◌≡◌, ◌+◌, ◌^◌, ◌<◌, ◌++◌, List, [], ◌∷◌, length, map, Some, None, true, IfOk, OnOk};
ghost use Rattle.std.specs.List.{AllByRecursion, filter_map, last_or};
ghost use Rattle.std.specs.Option.{option_to_list};
ghost use Rattle.epochs.specs.Lines.{LineValues};
ghost use Rattle.epochs.specs.Views.{values_of_line};
ghost use Rattle.epochs.specs.declared.line.Line.TheVariants.{Net, Sta, Cha};
ghost use Rattle.epoch_rules.specs.Rules.{is_epoch};
ghost use Rattle.station_text.specs.Asked.{station_within, total_stations};
ghost use Rattle.station_text.specs.Counts.{is_last, each_once};
ghost use Rattle.station_text.specs.Texts.{header_text, line_text, answer_text};
ghost use Rattle.station_text.specs.Lines.{line_at};

use crate::asked::{network_epoch, station_epoch};
use channel_globs::Code;
use epoch_catalog::{Catalog, Family};
use epochs::{ChannelEpoch, Line, NetworkEpoch, StationEpoch};
use exact_time::{OutOfMemory, Text};
use line_columns::{Column, write_columns};
use query_words::Level;
use std::alloc::Global;

// The code of the station whose epoch the line is, if that is within the network's.
fn station_within(network: &NetworkEpoch, line: &Line) -> Option<Code>
    ensures { result ≡ station_within (values_of_line (Net network.now)) (values_of_line line.now) }
{
    match line {
        Line::Sta(station) => code_within(network, station),
        _ => None,
    }
}

fn code_within(network: &NetworkEpoch, station: &StationEpoch) -> Option<Code>
    ensures { result ≡ station_within (values_of_line (Net network.now)) (values_of_line (Sta station.now)) }
{
    if network_epoch(network).contains(&station_epoch(station)) {
        Some(station.station)
    } else {
        None
    }
}

// How many codes were counted, and the last of them.
#[derive(Clone, Copy)]
struct Counted {
    codes: usize,
    last: Option<Code>,
}

fn is_last(last: Option<Code>, code: Code) -> bool
    ensures { result ≡ is_last last code }
{
    match last {
        Some(last) => last == code,
        None => false,
    }
}

// One code more, if it isn't the last that was counted.
fn with_code(before: Counted, code: Option<Code>) -> Counted
    requires { before.codes < 2 ^ 63 }
    ensures codes { result.codes ≡ before.codes + length (each_once before.last (option_to_list code)) }
    ensures last { result.last ≡ last_or before.last (option_to_list code) }
{
    match code {
        Some(code) => with_next(before, code),
        None => before,
    }
}

fn with_next(before: Counted, code: Code) -> Counted
    requires { before.codes < 2 ^ 63 }
    ensures codes { result.codes ≡ before.codes + length (each_once before.last (code ∷ [])) }
    ensures last { result.last ≡ Some code }
{
    if is_last(before.last, code) {
        return before;
    }
    Counted {
        codes: before.codes + 1,
        last: Some(code),
    }
}

// How many codes the stations of some lines have whose epochs are within the network's, where lines of one code
// stand together.
fn count_within(network: &NetworkEpoch, lines: &[Line]) -> usize
    ensures { result ≡ length (each_once None (filter_map (station_within (values_of_line (Net network.now))) (map values_of_line lines.now))) }
{
    let mut counted = Counted {
        codes: 0,
        last: None,
    };
    'lines: for line in lines {
        counted = with_code(counted, station_within(network, line));
    }
    counted.codes
}

// How many stations have an epoch within the network's.
fn total_stations(catalog: &Catalog, network: &NetworkEpoch) -> u64
    ensures { result ≡ total_stations catalog.now (values_of_line (Net network.now)) }
{
    // The live lines are in order: those of one code stand together, and need no set.
    let _ = catalog.lines();
    let stations = catalog.family(&Family::StationsOf(network.network));
    count_within(network, stations) as u64
}

fn write_network(
    alloc: Global,
    out: &mut Text,
    catalog: &Catalog,
    network: &NetworkEpoch,
) -> Result<(), OutOfMemory>
    ensures { OnOk result (out.new ≡ out.old ++ line_text catalog.now (values_of_line (Net network.now))) }
{
    let total = total_stations(catalog, network);
    write_columns(
        alloc,
        out,
        &[
            Column::Code(network.network),
            Column::Words(&network.description),
            Column::Start(network.times.start),
            Column::End(network.times.end),
            Column::Count(total),
        ],
    )
}

fn write_station(alloc: Global, out: &mut Text, station: &StationEpoch) -> Result<(), OutOfMemory>
    ensures { OnOk result ((live : List LineValues) → out.new ≡ out.old ++ line_text live (values_of_line (Sta station.now))) }
{
    write_columns(
        alloc,
        out,
        &[
            Column::Code(station.network),
            Column::Code(station.station),
            Column::Number(station.position.latitude),
            Column::Number(station.position.longitude),
            Column::Number(station.position.elevation),
            Column::Words(&station.site),
            Column::Start(station.times.start),
            Column::End(station.times.end),
        ],
    )
}

fn write_channel(alloc: Global, out: &mut Text, channel: &ChannelEpoch) -> Result<(), OutOfMemory>
    ensures { OnOk result ((live : List LineValues) → out.new ≡ out.old ++ line_text live (values_of_line (Cha channel.now))) }
{
    write_columns(
        alloc,
        out,
        &[
            Column::Code(channel.name.network),
            Column::Code(channel.name.station),
            Column::Code(channel.name.location),
            Column::Code(channel.name.channel),
            Column::Number(channel.position.latitude),
            Column::Number(channel.position.longitude),
            Column::Number(channel.position.elevation),
            Column::Number(channel.sensor.depth),
            Column::Optional(channel.sensor.azimuth),
            Column::Optional(channel.sensor.dip),
            Column::Words(&channel.sensor.sensor),
            Column::Optional(channel.response.scale),
            Column::Optional(channel.response.scale_freq),
            Column::Words(&channel.response.scale_units),
            Column::Number(channel.response.sample_rate),
            Column::Start(channel.times.start),
            Column::End(channel.times.end),
        ],
    )
}

// Appends the line of an epoch.
fn write_line(
    alloc: Global,
    out: &mut Text,
    catalog: &Catalog,
    line: &Line,
) -> Result<(), OutOfMemory>
    requires { is_epoch (values_of_line line.now) ≡ true }
    ensures { OnOk result (out.new ≡ out.old ++ line_text catalog.now (values_of_line line.now)) }
{
    match line {
        Line::Net(network) => write_network(alloc, out, catalog, network),
        Line::Sta(station) => write_station(alloc, out, station),
        Line::Cha(channel) => write_channel(alloc, out, channel),
        _ => Ok(()),
    }
}

// The header line.
fn header(level: Level) -> &'static str
    ensures { result.now ≡ header_text level }
{
    match level {
        Level::Network => "#Network|Description|StartTime|EndTime|TotalStations\n",
        Level::Station => {
            "#Network|Station|Latitude|Longitude|Elevation|SiteName|StartTime|EndTime\n"
        }
        Level::Channel => {
            "#Network|Station|Location|Channel|Latitude|Longitude|Elevation|Depth|Azimuth|Dip|SensorDescription|Scale|ScaleFreq|ScaleUnits|SampleRate|StartTime|EndTime\n"
        }
    }
}

/// The header line, and then a line for each of these epochs.
pub fn answer_text(
    alloc: Global,
    catalog: &Catalog,
    level: Level,
    lines: &[&Line],
) -> Result<Text, OutOfMemory>
    requires { AllByRecursion (λ line. is_epoch (line_at line) ≡ true) lines.now }
    ensures { IfOk result (λ text. text ≡ answer_text level catalog.now (map line_at lines.now)) }
{
    let mut text = Text::new(alloc);
    text.push(header(level))?;
    'lines: for line in lines {
        write_line(alloc, &mut text, catalog, line)?;
    }
    Ok(text)
}
