//! The names of the methods.
ghost use Rattle.std.specs.Prelude.{◌≡◌};
ghost use Rattle.query_parameters.specs.Rows.{names_of};
ghost use Rattle.query_words.specs.AvailTables.{avail_names};
ghost use Rattle.query_words.specs.declared.avail.AvailMethod.TheVariants.{Spans, Extent};
ghost use Rattle.query_words.specs.Tables.{data_names, station_names, event_names, number_names};

use channel_globs::Part;
use query_parameters::{ParameterName, ValueKind};

/// Where the rows of dataselect have the start and the end of a window.
pub const START: usize = 0;

pub const END: usize = 1;

/// Where they have the network, and behind it the other codes.
pub const CODES: usize = 2;

/// Where they have the first option, which a body may have too.
pub const OPTIONS: usize = 6;

/// The names of dataselect: the times, the codes, and behind them the options.
pub fn data_names() -> [ParameterName; 11]
    ensures { names_of result ≡ data_names }
{
    [
        ParameterName::with_alias("starttime", "start", ValueKind::Time),
        ParameterName::with_alias("endtime", "end", ValueKind::Time),
        ParameterName::with_alias("network", "net", ValueKind::Patterns(Part::Network)),
        ParameterName::with_alias("station", "sta", ValueKind::Patterns(Part::Station)),
        ParameterName::with_alias("location", "loc", ValueKind::Patterns(Part::Location)),
        ParameterName::with_alias("channel", "cha", ValueKind::Patterns(Part::Channel)),
        ParameterName::new("nodata", ValueKind::Nodata),
        ParameterName::new("quality", ValueKind::Quality),
        ParameterName::new("minimumlength", ValueKind::Seconds),
        ParameterName::new("longestonly", ValueKind::Flag),
        ParameterName::new("format", ValueKind::Format),
    ]
}

/// The names of station: the times, the codes, and behind them the options.
pub fn station_names() -> [ParameterName; 25]
    ensures { names_of result ≡ station_names }
{
    [
        ParameterName::with_alias("starttime", "start", ValueKind::Time),
        ParameterName::with_alias("endtime", "end", ValueKind::Time),
        ParameterName::with_alias("network", "net", ValueKind::Patterns(Part::Network)),
        ParameterName::with_alias("station", "sta", ValueKind::Patterns(Part::Station)),
        ParameterName::with_alias("location", "loc", ValueKind::Patterns(Part::Location)),
        ParameterName::with_alias("channel", "cha", ValueKind::Patterns(Part::Channel)),
        ParameterName::new("nodata", ValueKind::Nodata),
        ParameterName::new("startbefore", ValueKind::Time),
        ParameterName::new("startafter", ValueKind::Time),
        ParameterName::new("endbefore", ValueKind::Time),
        ParameterName::new("endafter", ValueKind::Time),
        ParameterName::with_alias("minlatitude", "minlat", ValueKind::Latitude),
        ParameterName::with_alias("maxlatitude", "maxlat", ValueKind::Latitude),
        ParameterName::with_alias("minlongitude", "minlon", ValueKind::Longitude),
        ParameterName::with_alias("maxlongitude", "maxlon", ValueKind::Longitude),
        ParameterName::new("level", ValueKind::Level),
        ParameterName::new("format", ValueKind::TextForm),
        ParameterName::new("includerestricted", ValueKind::Always),
        ParameterName::new("includeavailability", ValueKind::Never),
        ParameterName::new("matchtimeseries", ValueKind::Never),
        ParameterName::with_alias("latitude", "lat", ValueKind::LeftOut),
        ParameterName::with_alias("longitude", "lon", ValueKind::LeftOut),
        ParameterName::new("minradius", ValueKind::LeftOut),
        ParameterName::new("maxradius", ValueKind::LeftOut),
        ParameterName::new("updatedafter", ValueKind::LeftOut),
    ]
}

/// The names of event.
pub fn event_names() -> [ParameterName; 28]
    ensures { names_of result ≡ event_names }
{
    [
        ParameterName::with_alias("starttime", "start", ValueKind::Time),
        ParameterName::with_alias("endtime", "end", ValueKind::Time),
        ParameterName::new("nodata", ValueKind::Nodata),
        ParameterName::with_alias("minlatitude", "minlat", ValueKind::Latitude),
        ParameterName::with_alias("maxlatitude", "maxlat", ValueKind::Latitude),
        ParameterName::with_alias("minlongitude", "minlon", ValueKind::Longitude),
        ParameterName::with_alias("maxlongitude", "maxlon", ValueKind::Longitude),
        ParameterName::new("mindepth", ValueKind::Decimal),
        ParameterName::new("maxdepth", ValueKind::Decimal),
        ParameterName::with_alias("minmagnitude", "minmag", ValueKind::Decimal),
        ParameterName::with_alias("maxmagnitude", "maxmag", ValueKind::Decimal),
        ParameterName::with_alias("magnitudetype", "magtype", ValueKind::Text),
        ParameterName::new("eventid", ValueKind::Text),
        ParameterName::new("catalog", ValueKind::Text),
        ParameterName::new("contributor", ValueKind::Text),
        ParameterName::new("orderby", ValueKind::EventOrder),
        ParameterName::new("limit", ValueKind::Count),
        ParameterName::new("offset", ValueKind::Count),
        ParameterName::new("format", ValueKind::TextForm),
        ParameterName::new("includeallorigins", ValueKind::Never),
        ParameterName::new("includeallmagnitudes", ValueKind::Never),
        ParameterName::new("includearrivals", ValueKind::Never),
        ParameterName::new("eventtype", ValueKind::LeftOut),
        ParameterName::with_alias("latitude", "lat", ValueKind::LeftOut),
        ParameterName::with_alias("longitude", "lon", ValueKind::LeftOut),
        ParameterName::new("minradius", ValueKind::LeftOut),
        ParameterName::new("maxradius", ValueKind::LeftOut),
        ParameterName::new("updatedafter", ValueKind::LeftOut),
    ]
}

/// The name of a method that takes the number of an entry and nothing else.
pub fn number_names(name: &'static str) -> [ParameterName; 1]
    ensures { names_of result ≡ number_names name.now }
{
    [ParameterName::new(name, ValueKind::EntryNumber)]
}

/// The names of availability's spans: the times, the codes, and behind them the options.
pub fn spans_names() -> [ParameterName; 15]
    ensures { names_of result ≡ avail_names Spans }
{
    [
        ParameterName::with_alias("starttime", "start", ValueKind::Time),
        ParameterName::with_alias("endtime", "end", ValueKind::Time),
        ParameterName::with_alias("network", "net", ValueKind::Patterns(Part::Network)),
        ParameterName::with_alias("station", "sta", ValueKind::Patterns(Part::Station)),
        ParameterName::with_alias("location", "loc", ValueKind::Patterns(Part::Location)),
        ParameterName::with_alias("channel", "cha", ValueKind::Patterns(Part::Channel)),
        ParameterName::new("nodata", ValueKind::Nodata),
        ParameterName::new("quality", ValueKind::Qualities),
        ParameterName::new("merge", ValueKind::Merges),
        ParameterName::new("orderby", ValueKind::SpansOrder),
        ParameterName::new("limit", ValueKind::Count),
        ParameterName::new("format", ValueKind::AvailForm),
        ParameterName::new("includerestricted", ValueKind::Never),
        ParameterName::new("show", ValueKind::LeftOut),
        ParameterName::new("mergegaps", ValueKind::Seconds),
    ]
}

/// The names of its extents.
pub fn extent_names() -> [ParameterName; 14]
    ensures { names_of result ≡ avail_names Extent }
{
    [
        ParameterName::with_alias("starttime", "start", ValueKind::Time),
        ParameterName::with_alias("endtime", "end", ValueKind::Time),
        ParameterName::with_alias("network", "net", ValueKind::Patterns(Part::Network)),
        ParameterName::with_alias("station", "sta", ValueKind::Patterns(Part::Station)),
        ParameterName::with_alias("location", "loc", ValueKind::Patterns(Part::Location)),
        ParameterName::with_alias("channel", "cha", ValueKind::Patterns(Part::Channel)),
        ParameterName::new("nodata", ValueKind::Nodata),
        ParameterName::new("quality", ValueKind::Qualities),
        ParameterName::new("merge", ValueKind::Merges),
        ParameterName::new("orderby", ValueKind::ExtentOrder),
        ParameterName::new("limit", ValueKind::Count),
        ParameterName::new("format", ValueKind::AvailForm),
        ParameterName::new("includerestricted", ValueKind::Never),
        ParameterName::new("show", ValueKind::LeftOut),
    ]
}
