//! Networks and stations, in which stations and channels lie.
ghost use Rattle.std.specs.Prelude.{◌≡◌, []};
ghost use Rattle.epochs.specs.Keys.{values_of_key};
ghost use Rattle.epochs.specs.Views.{values_of_line};
ghost use Rattle.epoch_rules.specs.Containers.{IsContainerOf};
ghost use Rattle.epoch_rules.specs.KeyKinds.{key_rank};
ghost use Rattle.epoch_rules.specs.KeyOrder.{key_parts, key_parts_of};

use crate::key_code::KeyCode;
use crate::key_kind::KeyKind;
use channel_globs::Code;
use epochs::{Key, Line};

/// A network, or a station: what kind of epochs lies in it, and its codes.
#[derive(Clone, Copy, Debug)]
pub struct Container {
    pub kind: KeyKind,
    pub first: KeyCode,
    pub second: KeyCode,
}

fn network(network: Code) -> Container
    ensures kind { key_rank result.kind ≡ 1 }
    ensures first { result.first ≡ network }
    ensures second { result.second ≡ [] }
{
    Container {
        kind: KeyKind::Station,
        first: KeyCode::of(network),
        second: KeyCode::none(),
    }
}

fn station(network: Code, station: Code) -> Container
    ensures kind { key_rank result.kind ≡ 2 }
    ensures first { result.first ≡ network }
    ensures second { result.second ≡ station }
{
    Container {
        kind: KeyKind::Channel,
        first: KeyCode::of(network),
        second: KeyCode::of(station),
    }
}

// The container of a key.
fn container_at(key: &Key) -> Option<Container>
    ensures { IsContainerOf (key_parts (values_of_key key.now)) result }
{
    match key {
        Key::Net { network: code, .. } => Some(network(*code)),
        Key::Sta {
            network,
            station: code,
            ..
        } => Some(station(*network, *code)),
        _ => None,
    }
}

/// The container whose epoch a line states or deletes.
pub fn container_of(line: &Line) -> Option<Container>
    ensures { IsContainerOf (key_parts_of (values_of_line line.now)) result }
{
    match line {
        Line::Net(net) => Some(network(net.network)),
        Line::Sta(sta) => Some(station(sta.network, sta.station)),
        Line::Del(deletion) => container_at(&deletion.key),
        _ => None,
    }
}
