//! The channels of rows, and what the rows of a channel cover.
ghost use Rattle.std.specs.Prelude.{◌≡◌, [], filter, IfOk, OnOk};
ghost use Rattle.std.specs.List.{slice_get};
ghost use Rattle.list_laws.specs.InOrder.{in_order};
ghost use Rattle.coverage_report.specs.Lines.{names_of};
ghost use Rattle.coverage_report.specs.Stretches.{stretch_cmp, stretch_at, stretches_at, stretches_of};

use crate::stretch::{Stretch, stretch_of};
use channel_globs::Nslc;
use dataselect::{Shelf, Sight};
use exact_time::{Moment, OutOfMemory};
use std::alloc::Global;
use std::collections::BTreeSet;

/// The names of the rows that are seen.
pub fn names_seen<S: Shelf, V: Sight>(
    alloc: Global,
    shelf: &S,
    sight: &V,
) -> Result<BTreeSet<Nslc>, OutOfMemory>
    ensures { IfOk result (λ names. names.keys ≡ names_of (filter (V.seen sight.now) (S.rows shelf.now))) }
{
    let mut names = BTreeSet::new(alloc);
    'rows: for place in 0..shelf.len() {
        let row = shelf.row(place);
        if sight.sees(row) {
            names.insert(row.header.name)?;
        }
    }
    Ok(names)
}

// Adds what the row at a place covers, if there is one and it is seen.
fn add_row<S: Shelf, V: Sight>(
    stretches: &mut BTreeSet<Stretch>,
    shelf: &S,
    sight: &V,
    first: Moment,
    size: u64,
    place: usize,
) -> Result<(), OutOfMemory>
    ensures { OnOk result (stretches.new.keys ≡ in_order stretch_cmp stretches.old.keys
        (stretch_at (V.seen sight.now) first.micros size (slice_get (S.rows shelf.now) place))) }
{
    if place >= shelf.len() {
        return Ok(());
    }
    let row = shelf.row(place);
    if !sight.sees(row) {
        return Ok(());
    }
    if let Some(stretch) = stretch_of(first, size, &row.header) {
        stretches.insert(stretch)?;
    }
    Ok(())
}

// What the rows at some places that are seen cover.
fn stretches_at<S: Shelf, V: Sight>(
    alloc: Global,
    shelf: &S,
    sight: &V,
    first: Moment,
    size: u64,
    places: &[usize],
) -> Result<BTreeSet<Stretch>, OutOfMemory>
    ensures { IfOk result (λ stretches. stretches.keys ≡ in_order stretch_cmp []
        (stretches_at (V.seen sight.now) first.micros size (S.rows shelf.now) places.now)) }
{
    let mut stretches = BTreeSet::new(alloc);
    'places: for place in places {
        add_row(&mut stretches, shelf, sight, first, size, *place)?;
    }
    Ok(stretches)
}

/// What the rows of a channel that are seen cover of so many microseconds from the first moment on.
pub fn stretches_of<S: Shelf, V: Sight>(
    alloc: Global,
    shelf: &S,
    sight: &V,
    name: &Nslc,
    first: Moment,
    size: u64,
) -> Result<BTreeSet<Stretch>, OutOfMemory>
    ensures { IfOk result (λ stretches. stretches.keys
        ≡ stretches_of (filter (V.seen sight.now) (S.rows shelf.now)) first.micros size name.now) }
{
    let places = shelf.places_named(name)?;
    stretches_at(alloc, shelf, sight, first, size, places.as_slice())
}
