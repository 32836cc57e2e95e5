//! The stations that selections and lines name.
ghost use Rattle.std.specs.Prelude.{◌≡◌};
ghost use Rattle.std.specs.List.{list_all};
ghost use Rattle.epochs.specs.Views.{values_of_line};
ghost use Rattle.station_text.specs.Found.{place_of, has_place};
ghost use Rattle.station_text.specs.Matched.{line_place};

use channel_globs::Code;
use dataselect::Selection;
use epochs::Line;

/// A station: the code of its network, and its own.
#[derive(Clone, Copy, Debug, PartialEq, Eq, PartialOrd, Ord)]
pub struct Place {
    pub network: Code,
    pub station: Code,
}

/// The station of the line of a station or a channel.
pub fn line_place(line: &Line) -> Option<Place>
    ensures { result ≡ line_place (values_of_line line.now) }
{
    match line {
        Line::Sta(station) => Some(Place {
            network: station.network,
            station: station.station,
        }),
        Line::Cha(channel) => Some(Place {
            network: channel.name.network,
            station: channel.name.station,
        }),
        _ => None,
    }
}

/// The one station that a selection names, where its network and its station are written as one code each.
pub fn place_of(selection: &Selection) -> Option<Place>
    ensures { result ≡ place_of selection.now }
{
    match (selection.network.single(), selection.station.single()) {
        (Some(network), Some(station)) => Some(Place { network, station }),
        _ => None,
    }
}

fn has_place(selection: &Selection) -> bool
    ensures { result ≡ has_place selection.now }
{
    match place_of(selection) {
        Some(_) => true,
        None => false,
    }
}

/// Whether each selection names one station.
pub fn have_places(selections: &[Selection]) -> bool
    ensures { result ≡ list_all has_place selections.now }
{
    selections.iter().all(|selection| has_place(selection))
}
