//! The order of lines by their keys.
ghost use Rattle.std.specs.Prelude.{◌≡◌, [], pos};
ghost use Rattle.epochs.specs.Keys.{values_of_key};
ghost use Rattle.epochs.specs.Views.{values_of_line};
ghost use Rattle.epoch_rules.specs.KeyKinds.{key_rank};
ghost use Rattle.epoch_rules.specs.KeyOrder.{key_parts, key_parts_of, line_cmp};
ghost use Rattle.epoch_rules.specs.KeyViews.{parts_of_view, view_of};

use crate::key_kind::KeyKind;
use epochs::{Globs, Key, Line};
use exact_time::Moment;
use std::cmp::Ordering;

/// The parts of a key that are compared, in the order of `specs/KeyOrder.antt`.
#[derive(Clone, Copy, Debug, PartialEq, Eq, PartialOrd, Ord)]
pub struct KeyView<'a> {
    pub kind: KeyKind,
    pub first: &'a [u8],
    pub second: &'a [u8],
    pub third: &'a [u8],
    pub fourth: &'a [u8],
    pub fifth: &'a [u8],
    /// In microseconds since 1970; 0 where a key has none.
    pub start: i64,
}

// The key of one text, without a start.
fn named<'a>(kind: KeyKind, name: &'a [u8]) -> KeyView<'a>
    ensures { parts_of_view result ≡ view_of (key_rank kind) name.now [] [] [] [] (pos 0) }
{
    KeyView {
        kind,
        first: name,
        second: &[],
        third: &[],
        fourth: &[],
        fifth: &[],
        start: 0,
    }
}

// The key of an epoch of these codes.
fn epoch<'a>(
    kind: KeyKind,
    network: &'a [u8],
    station: &'a [u8],
    location: &'a [u8],
    channel: &'a [u8],
    start: Moment,
) -> KeyView<'a>
    ensures { parts_of_view result ≡ view_of (key_rank kind) network.now station.now location.now channel.now [] start.micros }
{
    KeyView {
        kind,
        first: network,
        second: station,
        third: location,
        fourth: channel,
        fifth: &[],
        start: start.micros,
    }
}

// The key of an epoch of channels that patterns name.
fn patterned<'a>(kind: KeyKind, channels: &'a Globs, start: Moment) -> KeyView<'a>
    ensures { parts_of_view result ≡ view_of (key_rank kind) channels.now.network.text channels.now.station.text channels.now.location.text channels.now.channel.text [] start.micros }
{
    epoch(
        kind,
        channels.network.text.as_slice(),
        channels.station.text.as_slice(),
        channels.location.text.as_slice(),
        channels.channel.text.as_slice(),
        start,
    )
}

// The key of a grant.
fn grant<'a>(user: &'a [u8], channels: &'a Globs, start: Moment) -> KeyView<'a>
    ensures { parts_of_view result ≡ view_of 5 user.now channels.now.network.text channels.now.station.text channels.now.location.text channels.now.channel.text start.micros }
{
    KeyView {
        kind: KeyKind::Grant,
        first: user,
        second: channels.network.text.as_slice(),
        third: channels.station.text.as_slice(),
        fourth: channels.location.text.as_slice(),
        fifth: channels.channel.text.as_slice(),
        start: start.micros,
    }
}

// A key as it is compared.
fn deleted(key: &Key) -> KeyView<'_>
    ensures { parts_of_view result ≡ key_parts (values_of_key key.now) }
{
    match key {
        Key::Net { network, start } => epoch(
            KeyKind::Network,
            network.as_slice(),
            &[],
            &[],
            &[],
            *start,
        ),
        Key::Sta {
            network,
            station,
            start,
        } => epoch(
            KeyKind::Station,
            network.as_slice(),
            station.as_slice(),
            &[],
            &[],
            *start,
        ),
        Key::Cha { name, start } => epoch(
            KeyKind::Channel,
            name.network.as_slice(),
            name.station.as_slice(),
            name.location.as_slice(),
            name.channel.as_slice(),
            *start,
        ),
        Key::Evt { id } => named(KeyKind::Event, id.as_slice()),
        Key::Rst { channels, start } => patterned(KeyKind::Restriction, channels, *start),
        Key::Grt {
            user,
            channels,
            start,
        } => grant(user.as_slice(), channels, *start),
        Key::Usr { name } => named(KeyKind::User, name.as_slice()),
        Key::Wdr { channels, start } => patterned(KeyKind::Withdrawal, channels, *start),
    }
}

/// The key of a line, as it is compared; of a deletion that which it deletes.
pub fn key_view(line: &Line) -> KeyView<'_>
    ensures { parts_of_view result ≡ key_parts_of (values_of_line line.now) }
{
    match line {
        Line::Net(net) => epoch(
            KeyKind::Network,
            net.network.as_slice(),
            &[],
            &[],
            &[],
            net.times.start,
        ),
        Line::Sta(sta) => epoch(
            KeyKind::Station,
            sta.network.as_slice(),
            sta.station.as_slice(),
            &[],
            &[],
            sta.times.start,
        ),
        Line::Cha(cha) => epoch(
            KeyKind::Channel,
            cha.name.network.as_slice(),
            cha.name.station.as_slice(),
            cha.name.location.as_slice(),
            cha.name.channel.as_slice(),
            cha.times.start,
        ),
        Line::Evt(event) => named(KeyKind::Event, event.id.as_slice()),
        Line::Rst(rst) => patterned(KeyKind::Restriction, &rst.channels, rst.times.start),
        Line::Grt(grt) => grant(grt.user.as_slice(), &grt.channels, grt.times.start),
        Line::Usr(user) => named(KeyKind::User, user.name.as_slice()),
        Line::Wdr(wdr) => patterned(KeyKind::Withdrawal, &wdr.channels, wdr.times.start),
        Line::Del(deletion) => deleted(&deletion.key),
    }
}

/// Lines by their keys.
pub fn cmp_keys(a: &Line, b: &Line) -> Ordering
    ensures { result ≡ line_cmp (values_of_line a.now) (values_of_line b.now) }
{
    key_view(a).cmp(&key_view(b))
}
