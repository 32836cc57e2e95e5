//! Whether a user may have a row.
ghost use Rattle.std.specs.Prelude.{◌≡◌, option_map, map};
ghost use Rattle.std.specs.List.{list_any, slice_get};
ghost use Rattle.epochs.specs.Views.{values_of_line};
ghost use Rattle.access_digest.specs.Access.{restricts, touches, covers, is_touched, is_covered, is_unrestricted, is_there, may_have};

use crate::patterns::{keeps_times, match_codes, meets_times};
use channel_globs::Nslc;
use epoch_catalog::{Catalog, Family};
use epochs::{Line, User};
use mseed_header::Row;

// Whether a line is a restriction whose patterns match the name.
fn restricts(line: &Line, name: &Nslc) -> bool
    ensures { result ≡ restricts (values_of_line line.now) name.now }
{
    match line {
        Line::Rst(restriction) => match_codes(&restriction.channels, name),
        _ => false,
    }
}

// Whether a line is a restriction that touches the row.
fn touches(line: &Line, row: &Row) -> bool
    ensures { result ≡ touches (values_of_line line.now) row.now }
{
    match line {
        Line::Rst(restriction) => {
            restricts(line, &row.header.name) && meets_times(&row.header, restriction.times)
        }
        _ => false,
    }
}

// Whether a line is a grant of that user which covers the row.
fn covers(user: &User, line: &Line, row: &Row) -> bool
    ensures { result ≡ covers user.now.name (values_of_line line.now) row.now }
{
    match line {
        Line::Grt(grant) => {
            user.name.as_slice() == grant.user.as_slice()
                && match_codes(&grant.channels, &row.header.name)
                && keeps_times(&row.header, grant.times)
        }
        _ => false,
    }
}

fn some_touches(lines: &[Line], row: &Row) -> bool
    ensures { result ≡ list_any (λ line. touches (values_of_line line) row.now) lines.now }
{
    lines.iter().any(|line| touches(line, row))
}

fn some_covers(user: &User, lines: &[Line], row: &Row) -> bool
    ensures { result ≡ list_any (λ line. covers user.now.name (values_of_line line) row.now) lines.now }
{
    lines.iter().any(|line| covers(user, line, row))
}

fn some_restricts(lines: &[Line], name: &Nslc) -> bool
    ensures { result ≡ list_any (λ line. restricts (values_of_line line) name.now) lines.now }
{
    lines.iter().any(|line| restricts(line, name))
}

// Whether the line at a place is a restriction that touches the row.
fn touches_there(lines: &[Line], place: usize, row: &Row) -> bool
    ensures { result ≡ is_there (λ line. touches (values_of_line line) row.now) (slice_get lines.now place) }
{
    match lines.get(place) {
        Some(line) => touches(line, row),
        None => false,
    }
}

fn touches_at(lines: &[Line], places: &[usize], row: &Row) -> bool
    ensures { result ≡ list_any (λ place. is_there (λ line. touches (values_of_line line) row.now) (slice_get lines.now place)) places.now }
{
    places.iter().any(|place| touches_there(lines, *place, row))
}

// Whether the line at a place is a grant of that user which covers the row.
fn covers_there(user: &User, lines: &[Line], place: usize, row: &Row) -> bool
    ensures { result ≡ is_there (λ line. covers user.now.name (values_of_line line) row.now) (slice_get lines.now place) }
{
    match lines.get(place) {
        Some(line) => covers(user, line, row),
        None => false,
    }
}

fn covers_at(user: &User, lines: &[Line], places: &[usize], row: &Row) -> bool
    ensures { result ≡ list_any (λ place. is_there (λ line. covers user.now.name (values_of_line line) row.now) (slice_get lines.now place)) places.now }
{
    places
        .iter()
        .any(|place| covers_there(user, lines, *place, row))
}

// Whether the line at a place is a restriction whose patterns match the name.
fn restricts_there(lines: &[Line], place: usize, name: &Nslc) -> bool
    ensures { result ≡ is_there (λ line. restricts (values_of_line line) name.now) (slice_get lines.now place) }
{
    match lines.get(place) {
        Some(line) => restricts(line, name),
        None => false,
    }
}

fn restricts_at(lines: &[Line], places: &[usize], name: &Nslc) -> bool
    ensures { result ≡ list_any (λ place. is_there (λ line. restricts (values_of_line line) name.now) (slice_get lines.now place)) places.now }
{
    places
        .iter()
        .any(|place| restricts_there(lines, *place, name))
}

// Whether a live restriction touches the row: one whose network is written as the row's, or a wide one.
fn is_touched_by_one(catalog: &Catalog, row: &Row) -> bool
    ensures { result ≡ is_touched catalog.now row.now }
{
    let network = row.header.name.network;
    some_touches(catalog.family(&Family::RestrictionsOn(network)), row)
        || touches_at(catalog.lines(), catalog.wide(&Family::Restrictions), row)
}

/// Whether a live restriction touches the row. Where there is none, nothing is searched.
pub fn is_touched(catalog: &Catalog, row: &Row) -> bool
    ensures { result ≡ is_touched catalog.now row.now }
{
    catalog.has_restrictions() && is_touched_by_one(catalog, row)
}

// Whether a live grant of this user covers the row.
fn user_covers(catalog: &Catalog, user: &User, row: &Row) -> bool
    ensures { result ≡ list_any (λ e. covers user.now.name e row.now) catalog.now }
{
    let name = user.name.as_slice();
    let network = row.header.name.network;
    some_covers(user, catalog.family(&Family::GrantsOn(name, network)), row)
        || covers_at(
            user,
            catalog.lines(),
            catalog.wide(&Family::GrantsOf(name)),
            row,
        )
}

// Whether a live grant of the user covers the row.
fn is_covered(catalog: &Catalog, user: Option<&User>, row: &Row) -> bool
    ensures { result ≡ is_covered catalog.now (option_map (λ u. u.now.name) user.entry) row.now }
{
    user.is_some_and(|user| user_covers(catalog, user, row))
}

// Whether the patterns of a live restriction match the name.
fn is_restricted(catalog: &Catalog, name: &Nslc) -> bool
    ensures { result ≡ list_any (λ e. restricts e name.now) catalog.now }
{
    let written = catalog.family(&Family::RestrictionsOn(name.network));
    some_restricts(written, name)
        || restricts_at(catalog.lines(), catalog.wide(&Family::Restrictions), name)
}

/// Whether the patterns of no live restriction match the name.
pub fn is_unrestricted(catalog: &Catalog, name: &Nslc) -> bool
    ensures { result ≡ is_unrestricted catalog.now name.now }
{
    !is_restricted(catalog, name)
}

/// Whether a caller may have the row: no live restriction touches it, or a live grant of the user covers
/// it. Without a user there is no grant. Takes no memory, and looks at the restrictions, and at the user's
/// grants, whose network is written as the row's or isn't one code.
pub fn may(catalog: &Catalog, user: Option<&User>, row: &Row) -> bool
    ensures { result ≡ may_have catalog.now (option_map (λ u. u.now.name) user.entry) row.now }
{
    !is_touched(catalog, row) || is_covered(catalog, user, row)
}
