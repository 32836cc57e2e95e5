//! Whether a row is withdrawn.
ghost use Rattle.std.specs.Prelude.{◌≡◌, ◌&&◌, int_le, option_map, reverse};
ghost use Rattle.std.specs.List.{list_any, slice_get, take_while};
ghost use Rattle.dataselect.specs.Query.{holds};
ghost use Rattle.epochs.specs.Views.{values_of_line};
ghost use Rattle.epoch_catalog.specs.Withdrawals.{AreRising};
ghost use Rattle.access_digest.specs.Access.{is_over_by, is_there, is_whole, is_withdrawn, withdraws, withdraws_some};

use crate::access::is_unrestricted;
use crate::patterns::{is_over_by, keeps_times, match_codes};
use channel_globs::Nslc;
use epoch_catalog::{Catalog, Family, Mark};
use epochs::Line;
use mseed_header::Row;

// Whether a line is a withdrawal whose patterns match the name.
fn withdraws_some(line: &Line, name: &Nslc) -> bool
    ensures { result ≡ withdraws_some (values_of_line line.now) name.now }
{
    match line {
        Line::Wdr(withdrawal) => match_codes(&withdrawal.channels, name),
        _ => false,
    }
}

// Whether a line is a withdrawal that covers the row.
fn withdraws(line: &Line, row: &Row) -> bool
    ensures { result ≡ withdraws (values_of_line line.now) row.now }
{
    match line {
        Line::Wdr(withdrawal) => {
            row.entry <= withdrawal.upto
                && keeps_times(&row.header, withdrawal.times)
                && withdraws_some(line, &row.header.name)
        }
        _ => false,
    }
}

// Whether the line at a place is a withdrawal whose patterns match the name.
fn matches_there(lines: &[Line], place: usize, name: &Nslc) -> bool
    ensures { result ≡ is_there (λ line. withdraws_some (values_of_line line) name.now) (slice_get lines.now place) }
{
    match lines.get(place) {
        Some(line) => withdraws_some(line, name),
        None => false,
    }
}

// Whether the line at a place is a withdrawal that covers the row.
fn covers_there(lines: &[Line], place: usize, row: &Row) -> bool
    ensures { result ≡ is_there (λ line. withdraws (values_of_line line) row.now) (slice_get lines.now place) }
{
    match lines.get(place) {
        Some(line) => withdraws(line, row),
        None => false,
    }
}

fn matches_at(lines: &[Line], places: &[usize], name: &Nslc) -> bool
    ensures { result ≡ list_any (λ place. is_there (λ line. withdraws_some (values_of_line line) name.now) (slice_get lines.now place)) places.now }
{
    places
        .iter()
        .any(|place| matches_there(lines, *place, name))
}

fn covers_at(lines: &[Line], places: &[usize], row: &Row) -> bool
    ensures { result ≡ list_any (λ place. is_there (λ line. withdraws (values_of_line line) row.now) (slice_get lines.now place)) places.now }
{
    places.iter().any(|place| covers_there(lines, *place, row))
}

fn matches_marked(lines: &[Line], marks: &[Mark], name: &Nslc) -> bool
    ensures { result ≡ list_any (λ mark. is_there (λ line. withdraws_some (values_of_line line) name.now) (slice_get lines.now mark.place)) marks.now }
{
    marks
        .iter()
        .any(|mark| matches_there(lines, mark.place, name))
}

// Whether a marked line covers the row, from the last mark on while marks reach the row's end. What covers a row is often the
// last that starts before it.
fn covers_reaching(lines: &[Line], marks: &[Mark], row: &Row) -> bool
    ensures { result ≡ list_any (λ mark. is_there (λ line. withdraws (values_of_line line) row.now) (slice_get lines.now mark.place))
        (take_while (λ mark. holds (λ stop. is_over_by row.now.header stop) (option_map (λ t. t.micros) mark.reach)) (reverse marks.now)) }
{
    marks
        .iter()
        .rev()
        .take_while(|mark| is_over_by(&row.header, mark.reach))
        .any(|mark| covers_there(lines, mark.place, row))
}

// Whether a marked line covers the row. Only marks that begin in time and reach the row's end are looked at.
fn covers_marked(lines: &[Line], marks: &[Mark], row: &Row) -> bool
    requires { AreRising marks.now }
    ensures { result ≡ list_any (λ mark. int_le mark.start.micros row.now.header.start.micros
        && (holds (λ stop. is_over_by row.now.header stop) (option_map (λ t. t.micros) mark.reach)
        && is_there (λ line. withdraws (values_of_line line) row.now) (slice_get lines.now mark.place))) marks.now }
{
    let begun = marks.partition_point(|mark| mark.start.micros <= row.header.start.micros);
    covers_reaching(lines, &marks[..begun], row)
}

// Whether the patterns of a live withdrawal match the name.
fn is_matched(catalog: &Catalog, name: &Nslc) -> bool
    ensures { result ≡ list_any (λ e. withdraws_some e name.now) catalog.now }
{
    let lines = catalog.lines();
    matches_marked(lines, catalog.withdrawals_of(name), name)
        || matches_at(lines, catalog.wide(&Family::Withdrawals), name)
}

/// Whether a live withdrawal covers the row. Takes no memory, and looks at the withdrawals that are written as the
/// row's codes and can cover it by their times, and at those of which some text isn't one code.
pub fn withdrawn(catalog: &Catalog, row: &Row) -> bool
    ensures { result ≡ is_withdrawn catalog.now row.now }
{
    let lines = catalog.lines();
    covers_marked(lines, catalog.withdrawals_of(&row.header.name), row)
        || covers_at(lines, catalog.wide(&Family::Withdrawals), row)
}

/// Whether the patterns of no live restriction and of no live withdrawal match the name.
pub fn is_whole(catalog: &Catalog, name: &Nslc) -> bool
    ensures { result ≡ is_whole catalog.now name.now }
{
    is_unrestricted(catalog, name) && !is_matched(catalog, name)
}
