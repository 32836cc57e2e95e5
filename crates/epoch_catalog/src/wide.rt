//! The restrictions and grants whose network is written as patterns, and the withdrawals some text of which is.
ghost use Rattle.std.specs.Prelude.{◌≡◌, ◌≤◌, ◌<◌, ◌&&◌, [], ℕ, map, filter, length, nat_le, nat_lt, vec_capacity};
ghost use Rattle.std.specs.List.Sorted.{IsPartitionedBy};
ghost use Rattle.epochs.specs.Views.{values_of_line};
ghost use Rattle.epoch_rules.specs.Catalog.{IsCatalog};
ghost use Rattle.epoch_catalog.specs.Wide.{is_one_code, is_one_location, is_one_name, is_wide, wide_places, wide_in, StandAt};

use crate::families::{Family, family_bounds};
use epochs::{Globs, Line};

// Whether a list of patterns is written as one code: with letters and digits alone.
fn is_one_code(text: &[u8]) -> bool
    ensures { result ≡ is_one_code text.now }
{
    text.iter().all(|byte| byte.is_ascii_alphanumeric())
}

// Whether a list of patterns for locations is written as one code, or as the blank location.
fn is_one_location(text: &[u8]) -> bool
    ensures { result ≡ is_one_location text.now }
{
    is_one_code(text) || text == b"--".as_slice()
}

/// Whether each of four lists of patterns is written as one code.
pub fn is_one_name(channels: &Globs) -> bool
    ensures { result ≡ is_one_name channels.now.network.text channels.now.station.text channels.now.location.text channels.now.channel.text }
{
    is_one_code(channels.network.text.as_slice())
        && is_one_code(channels.station.text.as_slice())
        && is_one_location(channels.location.text.as_slice())
        && is_one_code(channels.channel.text.as_slice())
}

// Whether a line is a restriction or a grant whose network isn't written as one code, or a withdrawal some text of which
// isn't.
fn is_wide(line: &Line) -> bool
    ensures { result ≡ is_wide (values_of_line line.now) }
{
    match line {
        Line::Rst(restriction) => !is_one_code(restriction.channels.network.text.as_slice()),
        Line::Grt(grant) => !is_one_code(grant.channels.network.text.as_slice()),
        Line::Wdr(withdrawal) => !is_one_name(&withdrawal.channels),
        _ => false,
    }
}

/// Notes the places of the wide lines, ascending, for which there is room.
pub fn note_wide(places: &mut Vec<usize>, lines: &[Line])
    requires empty { places.old.items ≡ [] }
    requires room { length lines.now ≤ vec_capacity places.old }
    ensures { places.new.items ≡ wide_places (map values_of_line lines.now) }
{
    let mut rest = lines;
    let mut place = 0;
    'lines: while let Some((line, behind)) = rest.split_first() {
        if is_wide(line) {
            places.push_reserved(place);
        }
        place += 1;
        rest = behind;
    }
}

// Of numbers that ascend those from a start to before an end, found by halves.
fn numbers_within(numbers: &[usize], start: usize, end: usize) -> &[usize]
    requires started { IsPartitionedBy (λ n. nat_lt n start) numbers.now }
    requires ended { IsPartitionedBy (λ n. nat_lt n end) numbers.now }
    ensures { result.now ≡ filter (λ n. nat_le start n && nat_lt n end) numbers.now }
{
    let first = numbers.partition_point(|number| *number < start);
    let rest = &numbers[first..];
    let count = rest.partition_point(|number| *number < end);
    &rest[..count]
}

/// The places of the wide lines of a family, ascending, found by halves among those of all.
pub fn wide_of<'a>(lines: &[Line], wide: &'a [usize], family: &Family<'_>) -> &'a [usize]
    requires catalog { IsCatalog (map values_of_line lines.now) }
    requires wide { wide.now ≡ wide_places (map values_of_line lines.now) }
    ensures { StandAt (map values_of_line lines.now) result.now (wide_in family.now (map values_of_line lines.now)) }
{
    if wide.is_empty() {
        return wide;
    }
    let bounds = family_bounds(lines, family);
    numbers_within(wide, bounds.first, bounds.first + bounds.count)
}
