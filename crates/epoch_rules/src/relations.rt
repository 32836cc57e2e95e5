//! What two lines are to one another, in the words of `specs/Rules.antt`.
ghost use Rattle.std.specs.Prelude.{◌≡◌, if◌then◌else◌};
ghost use Rattle.std.specs.Ordering.{is_eq};
ghost use Rattle.epochs.specs.Views.{values_of_line};
ghost use Rattle.epochs.specs.declared.kinds.LineKind.TheVariants.{Net as net, Sta as sta, Cha as cha, Grt as grt};
ghost use Rattle.epoch_rules.specs.KeyOrder.{family_cmp};
ghost use Rattle.epoch_rules.specs.KeyViews.{parts_of_view};
ghost use Rattle.epoch_rules.specs.LiveLines.{is_said};
ghost use Rattle.epoch_rules.specs.Rules.{is_line_of, is_epoch, is_operator, have_one_family, is_rival, holds_channel, holds_station};

use crate::key_order::{KeyView, cmp_keys, key_view};
use crate::spans::{contains, overlap};
use epochs::Line;
use std::cmp::Ordering;

/// Whether a line isn't a deletion.
pub fn is_said(line: &Line) -> bool
    ensures { result ≡ is_said (values_of_line line.now) }
{
    !matches!(line, Line::Del(_))
}

/// Whether a line is an epoch of a network.
pub fn is_network(line: &Line) -> bool
    ensures { result ≡ is_line_of net (values_of_line line.now) }
{
    matches!(line, Line::Net(_))
}

/// Whether a line is an epoch of a station.
pub fn is_station(line: &Line) -> bool
    ensures { result ≡ is_line_of sta (values_of_line line.now) }
{
    matches!(line, Line::Sta(_))
}

/// Whether a line is an epoch of a channel.
pub fn is_channel(line: &Line) -> bool
    ensures { result ≡ is_line_of cha (values_of_line line.now) }
{
    matches!(line, Line::Cha(_))
}

/// Whether a line grants something.
pub fn is_grant(line: &Line) -> bool
    ensures { result ≡ is_line_of grt (values_of_line line.now) }
{
    matches!(line, Line::Grt(_))
}

/// Whether a line is an epoch of a network, a station or a channel.
pub fn is_epoch(line: &Line) -> bool
    ensures { result ≡ is_epoch (values_of_line line.now) }
{
    is_network(line) || is_station(line) || is_channel(line)
}

/// Whether a line is a user with the role operator.
pub fn is_operator(line: &Line) -> bool
    ensures { result ≡ is_operator (values_of_line line.now) }
{
    match line {
        Line::Usr(user) => user.roles.operator,
        _ => false,
    }
}

/// How many operators a line is: 1 where it is a user with that role, and else 0.
pub fn count_operator(line: &Line) -> usize
    ensures { result ≡ (if is_operator (values_of_line line.now) then 1 else 0) }
{
    if is_operator(line) { 1 } else { 0 }
}

// Keys without their starts.
fn cmp_families(a: &KeyView<'_>, b: &KeyView<'_>) -> Ordering
    ensures { result ≡ family_cmp (parts_of_view a.now) (parts_of_view b.now) }
{
    a.kind
        .cmp(&b.kind)
        .then(a.first.cmp(b.first))
        .then(a.second.cmp(b.second))
        .then(a.third.cmp(b.third))
        .then(a.fourth.cmp(b.fourth))
        .then(a.fifth.cmp(b.fifth))
}

/// Whether lines are of one kind and have the same codes.
pub fn have_one_family(a: &Line, b: &Line) -> bool
    ensures { result ≡ have_one_family (values_of_line a.now) (values_of_line b.now) }
{
    cmp_families(&key_view(a), &key_view(b)).is_eq()
}

/// Whether a live line is an epoch of the line's codes with another start, and the two overlap.
pub fn is_rival(line: &Line, live: &Line) -> bool
    ensures { result ≡ is_rival (values_of_line line.now) (values_of_line live.now) }
{
    have_one_family(line, live) && !cmp_keys(line, live).is_eq() && overlap(line, live)
}

/// Whether a live line is an epoch of the channel's station that contains the channel's epoch.
pub fn holds_channel(channel: &Line, live: &Line) -> bool
    ensures { result ≡ holds_channel (values_of_line channel.now) (values_of_line live.now) }
{
    is_station(live)
        && key_view(live).first == key_view(channel).first
        && key_view(live).second == key_view(channel).second
        && contains(live, channel)
}

/// Whether a live line is an epoch of the station's network that contains the station's epoch.
pub fn holds_station(station: &Line, live: &Line) -> bool
    ensures { result ≡ holds_station (values_of_line station.now) (values_of_line live.now) }
{
    is_network(live) && key_view(live).first == key_view(station).first && contains(live, station)
}
