//! Lines of a catalog that stand together, found by halves.
ghost use Rattle.std.specs.Prelude.{◌≡◌, map, filter};
ghost use Rattle.std.specs.Ordering.{nat_cmp, ordering_then};
ghost use Rattle.std.specs.List.Sorted.{IsStrictlySortedBy};
ghost use Rattle.epochs.specs.Views.{values_of_line};
ghost use Rattle.epoch_rules.specs.Catalog.{IsCatalog};
ghost use Rattle.epoch_rules.specs.KeyKinds.{key_rank};
ghost use Rattle.epoch_rules.specs.KeyOrder.{key_parts_of, line_cmp, text_cmp};
ghost use Rattle.station_text.specs.Found.{level_rank, place_order, stands_at, network_order, stands_on};
ghost use Rattle.station_text.specs.Sections.{code_order, section_order, stands_in};

use crate::place::Place;
use channel_globs::Code;
use epoch_rules::{KeyKind, key_view};
use epochs::Line;
use query_words::Level;
use std::cmp::Ordering;

// The kind of the lines of a level.
fn level_kind(level: Level) -> KeyKind
    ensures { key_rank result ≡ level_rank level }
{
    match level {
        Level::Network => KeyKind::Network,
        Level::Station => KeyKind::Station,
        Level::Channel => KeyKind::Channel,
    }
}

// Where a line of a kind and of these codes stands to those of a station at a level.
fn codes_order(
    level: Level,
    place: &Place,
    kind: KeyKind,
    network: &Code,
    station: &Code,
) -> Ordering
    ensures { result ≡ ordering_then (nat_cmp (key_rank kind) (level_rank level)) (ordering_then (text_cmp network.now place.now.network) (text_cmp station.now place.now.station)) }
{
    kind.cmp(&level_kind(level)).then(
        network
            .cmp(&place.network)
            .then(station.cmp(&place.station)),
    )
}

// The same of any line, by its key.
fn key_order(level: Level, place: &Place, line: &Line) -> Ordering
    ensures { result ≡ place_order (level_rank level) place.now (key_parts_of (values_of_line line.now)) }
{
    let key = key_view(line);
    key.kind.cmp(&level_kind(level)).then(
        key.first
            .cmp(&place.network.as_slice())
            .then(key.second.cmp(&place.station.as_slice())),
    )
}

// Where a line stands to those of a station: before them, among them or behind them. Codes are compared in less
// time than the texts of keys.
fn place_order(level: Level, place: &Place, line: &Line) -> Ordering
    ensures { result ≡ place_order (level_rank level) place.now (key_parts_of (values_of_line line.now)) }
{
    match line {
        Line::Sta(station) => codes_order(
            level,
            place,
            KeyKind::Station,
            &station.network,
            &station.station,
        ),
        Line::Cha(channel) => codes_order(
            level,
            place,
            KeyKind::Channel,
            &channel.name.network,
            &channel.name.station,
        ),
        _ => key_order(level, place, line),
    }
}

// A station mostly has fewer lines of a level, so that its last is looked for among these first.
const NEAR: usize = 8;

/// The lines of a station among those of a catalog, found by halves.
pub fn lines_at<'a>(lines: &'a [Line], level: Level, place: &Place) -> &'a [Line]
    requires { IsCatalog (map values_of_line lines.now) }
    ensures { map values_of_line result.now ≡ filter (stands_at (level_rank level) place.now) (map values_of_line lines.now) }
{
    let first = lines.partition_point(|line| place_order(level, place, line).is_lt());
    let rest = &lines[first..];
    let near = &rest[..rest.len().min(NEAR)];
    let few = near.partition_point(|line| place_order(level, place, line).is_le());
    if few < near.len() {
        return &near[..few];
    }
    let count = rest.partition_point(|line| place_order(level, place, line).is_le());
    &rest[..count]
}

// Where a line stands to those of a network: before them, among them or behind them.
fn network_order(level: Level, network: Code, line: &Line) -> Ordering
    ensures { result ≡ network_order (level_rank level) network (key_parts_of (values_of_line line.now)) }
{
    let key = key_view(line);
    key.kind
        .cmp(&level_kind(level))
        .then(key.first.cmp(&network.as_slice()))
}

/// The lines of a network among those of a catalog, found by halves.
pub fn lines_on<'a>(lines: &'a [Line], level: Level, network: Code) -> &'a [Line]
    requires { IsCatalog (map values_of_line lines.now) }
    ensures { map values_of_line result.now ≡ filter (stands_on (level_rank level) network) (map values_of_line lines.now) }
{
    let first = lines.partition_point(|line| network_order(level, network, line).is_lt());
    let rest = &lines[first..];
    let count = rest.partition_point(|line| network_order(level, network, line).is_le());
    &rest[..count]
}

/// The channels of a station at one location, or of these the one with a code.
#[derive(Clone, Copy)]
pub struct Section {
    pub place: Place,
    pub location: Code,
    pub channel: Option<Code>,
}

// Where a text stands to a code; where there is none, each is at it.
fn code_order(code: Option<Code>, text: &[u8]) -> Ordering
    ensures { result ≡ code_order code text.now }
{
    match code {
        Some(code) => text.cmp(&code.as_slice()),
        None => Ordering::Equal,
    }
}

// Where a line stands to those of a section: before them, among them or behind them.
fn section_order(section: &Section, line: &Line) -> Ordering
    ensures { result ≡ section_order section.now (key_parts_of (values_of_line line.now)) }
{
    let key = key_view(line);
    let channel = code_order(section.channel, key.fourth);
    key.kind.cmp(&KeyKind::Channel).then(
        key.first.cmp(&section.place.network.as_slice()).then(
            key.second
                .cmp(&section.place.station.as_slice())
                .then(key.third.cmp(&section.location.as_slice()).then(channel)),
        ),
    )
}

/// The lines of a section among lines in the order of their keys, found by halves.
pub fn lines_in<'a>(lines: &'a [Line], section: &Section) -> &'a [Line]
    requires { IsStrictlySortedBy line_cmp (map values_of_line lines.now) }
    ensures { map values_of_line result.now ≡ filter (stands_in section.now) (map values_of_line lines.now) }
{
    let first = lines.partition_point(|line| section_order(section, line).is_lt());
    let rest = &lines[first..];
    let count = rest.partition_point(|line| section_order(section, line).is_le());
    &rest[..count]
}
