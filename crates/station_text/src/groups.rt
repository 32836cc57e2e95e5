//! The selections of each station, where each selection names one.
ghost use Rattle.std.specs.Prelude.{◌≡◌, [], ◌∷◌, ◌++◌, map, filter, if◌then◌else◌, None, IfOk, OnOk};
ghost use Rattle.std.specs.BTreeMap.{get};
ghost use Rattle.station_text.specs.declared.place.Place.{Place};
ghost use Rattle.station_text.specs.Found.{place_cmp};
ghost use Rattle.station_text.specs.Groups.{is_same_place, is_of, group_at};
ghost use Rattle.station_text.specs.Matched.{selection_at};

use crate::place::{Place, place_of};
use dataselect::Selection;
use exact_time::{Many, OutOfMemory};
use std::alloc::Global;
use std::collections::BTreeMap;

/// The selections that name one station.
#[derive(Drop)]
pub struct Group<'a> {
    pub selections: Many<&'a Selection>,
}

fn new_group<'a>(alloc: Global, selection: &'a Selection) -> Result<Group<'a>, OutOfMemory>
    ensures { IfOk result (λ group. map selection_at group.selections ≡ selection.now ∷ []) }
{
    let mut selections = Many::new(alloc);
    selections.push(selection)?;
    Ok(Group { selections })
}

fn add_to<'a>(group: &mut Group<'a>, selection: &'a Selection) -> Result<(), OutOfMemory>
    ensures { OnOk result (map selection_at group.new.selections ≡ map selection_at group.old.selections ++ selection.now ∷ []) }
{
    group.selections.push(selection)?;
    Ok(())
}

// Adds a station with one selection.
fn begin<'a>(
    alloc: Global,
    groups: &mut BTreeMap<Place, Group<'a>>,
    place: Place,
    selection: &'a Selection,
) -> Result<(), OutOfMemory>
    requires absent { get place_cmp groups.old place ≡ None }
    ensures { OnOk result ((p : Place) → group_at groups.new p ≡ (if is_same_place place p then group_at groups.old p ++ selection.now ∷ [] else group_at groups.old p)) }
{
    let group = new_group(alloc, selection)?;
    groups.insert(place, group)?;
    Ok(())
}

// Adds a selection to those of a station, which may be new.
fn add<'a>(
    alloc: Global,
    groups: &mut BTreeMap<Place, Group<'a>>,
    place: Place,
    selection: &'a Selection,
) -> Result<(), OutOfMemory>
    ensures { OnOk result ((p : Place) → group_at groups.new p ≡ (if is_same_place place p then group_at groups.old p ++ selection.now ∷ [] else group_at groups.old p)) }
{
    if let Some(group) = groups.get_mut(&place) {
        add_to(group, selection)?;
        return Ok(());
    }
    begin(alloc, groups, place, selection)
}

// The same for the station that the selection names, if it names one.
fn add_selection<'a>(
    alloc: Global,
    groups: &mut BTreeMap<Place, Group<'a>>,
    selection: &'a Selection,
) -> Result<(), OutOfMemory>
    ensures { OnOk result ((p : Place) → group_at groups.new p ≡ group_at groups.old p ++ filter (is_of p) (selection.now ∷ [])) }
{
    match place_of(selection) {
        Some(place) => add(alloc, groups, place, selection),
        None => Ok(()),
    }
}

/// The selections by the stations that they name.
pub fn grouped<'a>(
    alloc: Global,
    selections: &'a [Selection],
) -> Result<BTreeMap<Place, Group<'a>>, OutOfMemory>
    ensures { IfOk result (λ groups. (p : Place) → group_at groups p ≡ filter (is_of p) selections.now) }
{
    let mut groups = BTreeMap::new(alloc);
    'selections: for selection in selections {
        add_selection(alloc, &mut groups, selection)?;
    }
    Ok(groups)
}
