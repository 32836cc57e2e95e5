//! Lines that stand together in a catalog.
ghost use Rattle.std.specs.Prelude.{◌≡◌, ◌+◌, ◌≤◌, map, filter, length, take, drop};
ghost use Rattle.std.specs.List.{list_any};
ghost use Rattle.epochs.specs.declared.kinds.LineKind.TheVariants.{Rst};
ghost use Rattle.epochs.specs.Views.{values_of_line};
ghost use Rattle.epoch_rules.specs.Catalog.{IsCatalog};
ghost use Rattle.epoch_catalog.specs.Families.{is_in, family_place, name_place};
ghost use Rattle.epoch_rules.specs.KeyOrder.{key_parts_of};
ghost use Rattle.epoch_rules.specs.KeyViews.{parts_of_view};
ghost use Rattle.epoch_rules.specs.Rules.{is_line_of};

use channel_globs::{Code, Nslc};
use epoch_rules::{KeyKind, KeyView, key_view};
use epochs::Line;
use std::cmp::Ordering;

/// Lines that stand together in a catalog.
#[derive(Clone, Copy, Debug)]
pub enum Family<'a> {
    /// The epochs of networks.
    Networks,
    /// The epochs of stations.
    Stations,
    /// The epochs of channels.
    Channels,
    /// The epochs of the stations of a network.
    StationsOf(Code),
    /// The epochs of the channels of a station: its network, and its own code.
    ChannelsOf(Code, Code),
    /// The events, in the order of their ids.
    Events,
    /// The restrictions.
    Restrictions,
    /// The restrictions whose network is written as this code.
    RestrictionsOn(Code),
    /// The grants of a user.
    GrantsOf(&'a [u8]),
    /// The grants of a user whose network is written as this code.
    GrantsOn(&'a [u8], Code),
    /// The withdrawals.
    Withdrawals,
    /// The withdrawals whose texts are written as the codes of this name, but for the location's, which is written as
    /// this text.
    WithdrawalsOn(Nslc, &'a [u8]),
}

// Where the first four texts of a key stand to the codes of a name, whose location is written as this text.
fn place_to_name(key: &KeyView<'_>, name: &Nslc, location: &[u8]) -> Ordering
    ensures { result ≡ name_place name.now location.now (parts_of_view key.now) }
{
    key.first.cmp(&name.network.as_slice()).then(
        key.second.cmp(&name.station.as_slice()).then(
            key.third
                .cmp(location)
                .then(key.fourth.cmp(&name.channel.as_slice())),
        ),
    )
}

// Where a line stands to a family: before it, in it or behind it.
fn place_to(family: &Family<'_>, line: &Line) -> Ordering
    ensures { result ≡ family_place family.now (key_parts_of (values_of_line line.now)) }
{
    let key = key_view(line);
    match family {
        Family::Networks => key.kind.cmp(&KeyKind::Network),
        Family::Stations => key.kind.cmp(&KeyKind::Station),
        Family::Channels => key.kind.cmp(&KeyKind::Channel),
        Family::StationsOf(network) => {
            key.kind
                .cmp(&KeyKind::Station)
                .then(key.first.cmp(&network.as_slice()))
        }
        Family::ChannelsOf(network, station) => key.kind.cmp(&KeyKind::Channel).then(
            key.first
                .cmp(&network.as_slice())
                .then(key.second.cmp(&station.as_slice())),
        ),
        Family::Events => key.kind.cmp(&KeyKind::Event),
        Family::Restrictions => key.kind.cmp(&KeyKind::Restriction),
        Family::RestrictionsOn(network) => {
            key.kind
                .cmp(&KeyKind::Restriction)
                .then(key.first.cmp(&network.as_slice()))
        }
        Family::GrantsOf(user) => key.kind.cmp(&KeyKind::Grant).then(key.first.cmp(user)),
        Family::GrantsOn(user, network) => key.kind.cmp(&KeyKind::Grant).then(
            key.first
                .cmp(user)
                .then(key.second.cmp(&network.as_slice())),
        ),
        Family::Withdrawals => key.kind.cmp(&KeyKind::Withdrawal),
        Family::WithdrawalsOn(name, location) => key
            .kind
            .cmp(&KeyKind::Withdrawal)
            .then(place_to_name(&key, name, location)),
    }
}

/// Where the lines of a family stand among the lines of a catalog: how many are before them, and how many
/// they are.
#[derive(Clone, Copy, Debug)]
pub struct Bounds {
    pub first: usize,
    pub count: usize,
}

/// Where the lines of a family stand among the lines of a catalog, found by halves.
pub fn family_bounds(lines: &[Line], family: &Family<'_>) -> Bounds
    requires { IsCatalog (map values_of_line lines.now) }
    ensures within { result.first + result.count ≤ length lines.now }
    ensures lines { map values_of_line (take result.count (drop result.first lines.now)) ≡ filter (is_in family.now) (map values_of_line lines.now) }
{
    let first = lines.partition_point(|line| place_to(family, line).is_lt());
    let count = lines[first..].partition_point(|line| place_to(family, line).is_le());
    Bounds { first, count }
}

/// The lines of a family among those of a catalog.
pub fn family_in<'a>(lines: &'a [Line], family: &Family<'_>) -> &'a [Line]
    requires { IsCatalog (map values_of_line lines.now) }
    ensures { map values_of_line result.now ≡ filter (is_in family.now) (map values_of_line lines.now) }
{
    let bounds = family_bounds(lines, family);
    &lines[bounds.first..][..bounds.count]
}

/// Whether there is a restriction among the lines of a catalog.
pub fn has_restrictions(lines: &[Line]) -> bool
    requires { IsCatalog (map values_of_line lines.now) }
    ensures { result ≡ list_any (is_line_of Rst) (map values_of_line lines.now) }
{
    !family_in(lines, &Family::Restrictions).is_empty()
}
