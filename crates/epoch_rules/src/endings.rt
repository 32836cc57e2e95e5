//! The ends of stations and channels, in order for each network and station.
ghost use Rattle.std.specs.Prelude.{◌≡◌, true, false, MatchOption};
ghost use Rattle.epochs.specs.Views.{values_of_line};
ghost use Rattle.epochs.specs.declared.line.Line.TheVariants as line;
ghost use Rattle.epoch_rules.specs.Endings.{parts_of_child, ending, ending_of, parts_of_ending, is_child, cut, is_between, has_end};
ghost use Rattle.epoch_rules.specs.KeyKinds.{key_rank};
ghost use Rattle.epoch_rules.specs.KeyOrder.{key_parts_of};

use crate::key_code::KeyCode;
use crate::key_kind::KeyKind;
use crate::spans::end;
use epochs::{ChannelEpoch, Line, StationEpoch};
use std::collections::BTreeSet;

/// The key of a station or a channel, in the order of `specs/KeyOrder.antt`.
#[derive(Clone, Copy, Debug, PartialEq, Eq, PartialOrd, Ord)]
struct ChildKey {
    kind: KeyKind,
    network: KeyCode,
    station: KeyCode,
    location: KeyCode,
    channel: KeyCode,
    start: i64,
}

/// The end of a station in its network, or of a channel in its station. Epochs of one container stand by
/// their ends, those without an end last.
#[derive(Clone, Copy, Debug, PartialEq, Eq, PartialOrd, Ord)]
pub struct Ending {
    kind: KeyKind,
    first: KeyCode,
    second: KeyCode,
    forever: bool,
    micros: i64,
    key: ChildKey,
}

// An end in the container of these codes.
fn ending_in(
    kind: KeyKind,
    first: KeyCode,
    second: KeyCode,
    end: Option<i64>,
    key: ChildKey,
) -> Ending
    ensures { parts_of_ending result ≡ ending (key_rank kind) first second end (parts_of_child key) }
{
    Ending {
        kind,
        first,
        second,
        forever: end.is_none(),
        micros: end.unwrap_or(0),
        key,
    }
}

fn station_key(sta: &StationEpoch) -> ChildKey
    ensures { parts_of_child result ≡ key_parts_of (values_of_line (line.Sta sta.now)) }
{
    ChildKey {
        kind: KeyKind::Station,
        network: KeyCode::of(sta.network),
        station: KeyCode::of(sta.station),
        location: KeyCode::none(),
        channel: KeyCode::none(),
        start: sta.times.start.micros,
    }
}

fn channel_key(cha: &ChannelEpoch) -> ChildKey
    ensures { parts_of_child result ≡ key_parts_of (values_of_line (line.Cha cha.now)) }
{
    ChildKey {
        kind: KeyKind::Channel,
        network: KeyCode::of(cha.name.network),
        station: KeyCode::of(cha.name.station),
        location: KeyCode::of(cha.name.location),
        channel: KeyCode::of(cha.name.channel),
        start: cha.times.start.micros,
    }
}

/// The end of a line that lies in a container.
pub fn ending_of(line: &Line) -> Option<Ending>
    ensures { MatchOption result (is_child (values_of_line line.now) ≡ false) (λ e. (is_child (values_of_line line.now) ≡ true) × (parts_of_ending e ≡ ending_of (values_of_line line.now))) }
{
    match line {
        Line::Sta(sta) => {
            let key = station_key(sta);
            Some(ending_in(
                KeyKind::Station,
                key.network,
                KeyCode::none(),
                end(line),
                key,
            ))
        }
        Line::Cha(cha) => {
            let key = channel_key(cha);
            Some(ending_in(KeyKind::Channel, key.network, key.station, end(line), key))
        }
        _ => None,
    }
}

/// Behind all epochs of that kind in the container of these codes that end by `end`, and before the others.
pub fn cut(kind: KeyKind, first: KeyCode, second: KeyCode, end: Option<i64>) -> Ending
    ensures { parts_of_ending result ≡ cut (key_rank kind) first second end }
{
    let last = ChildKey {
        kind: KeyKind::Last,
        network: KeyCode::none(),
        station: KeyCode::none(),
        location: KeyCode::none(),
        channel: KeyCode::none(),
        start: 0,
    };
    ending_in(kind, first, second, end, last)
}

/// Whether an end stands at a cut or after it, and before another.
pub fn has_between(ends: &BTreeSet<Ending>, low: &Ending, high: &Ending) -> bool
    ensures { result ≡ has_end ends.now (is_between (parts_of_ending low.now) (parts_of_ending high.now)) }
{
    low.cmp(high).is_lt() && ends.range(*low..*high).next().is_some()
}
