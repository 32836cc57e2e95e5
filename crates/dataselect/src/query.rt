//! Queries, and which records they ask for.
ghost use Rattle.std.specs.Prelude.{◌≡◌, ◌==◌};
ghost use Rattle.std.specs.List.{list_any};
ghost use Rattle.mseed_header.specs.Quality.{quality_letter};
ghost use Rattle.dataselect.specs.Query.{holds, is_asked, is_named, is_selected, meets, starts_by, reaches};

use channel_globs::{Nslc, PatternList};
use exact_time::{Many, Moment, cmp_sample_time};
use mseed_header::{Header, Quality, last};

/// Names of channels in a window of time. An absent limit holds always.
#[derive(Debug, Drop)]
pub struct Selection {
    pub network: PatternList,
    pub station: PatternList,
    pub location: PatternList,
    pub channel: PatternList,
    /// A record is asked for where its last sample is at this moment or later.
    pub start: Option<Moment>,
    /// A record is asked for where its first sample is at this moment or earlier.
    pub end: Option<Moment>,
}

/// What a client is told where nothing is chosen: FDSN dataselect `nodata`.
#[derive(Clone, Copy, Debug, PartialEq, Eq)]
pub enum Nodata {
    /// HTTP status 204.
    Quiet,
    /// HTTP status 404.
    NotFound,
}

/// A query for waveforms (FDSN Web Service Specifications 1.2, dataselect).
#[derive(Debug, Drop)]
pub struct DataQuery {
    pub selections: Many<Selection>,
    /// The asked quality; absent, any (`quality=B`).
    pub quality: Option<Quality>,
    /// The least length of a segment, in microseconds: `minimumlength`.
    pub minimum: u64,
    /// Only the longest segment of each name: `longestonly`.
    pub longest: bool,
    pub nodata: Nodata,
}

impl Selection {
    /// Whether the four codes match.
    pub fn names(&self, name: &Nslc) -> bool
        ensures { result ≡ is_named self.now name.now }
    {
        self.network.matches(&name.network)
            && self.station.matches(&name.station)
            && self.location.matches(&name.location)
            && self.channel.matches(&name.channel)
    }

    /// Whether the record's time meets the window, whatever its codes are.
    pub fn meets(&self, header: &Header) -> bool
        ensures { result ≡ meets self.now header.now }
    {
        is_reached(header, self.start) && is_started(header, self.end)
    }

    /// Whether the four codes match and the record's time meets the window.
    #[tactic(auto, unfolding(crate::specs::Query::is_selected))]
    pub fn selects(&self, header: &Header) -> bool
        ensures { result ≡ is_selected self.now header.now }
    {
        self.names(&header.name) && self.meets(header)
    }
}

// Whether the record's last sample is at that moment or later.
fn is_reached(header: &Header, start: Option<Moment>) -> bool
    ensures { result ≡ holds (λ t. reaches header.now t.micros) start }
{
    match start {
        Some(start) => cmp_sample_time(last(header), start).is_ge(),
        None => true,
    }
}

// Whether the record's first sample is at that moment or earlier.
fn is_started(header: &Header, end: Option<Moment>) -> bool
    ensures { result ≡ holds (λ t. starts_by header.now t.micros) end }
{
    match end {
        Some(end) => header.start.micros <= end.micros,
        None => true,
    }
}

fn is_selected_by_any(selections: &[Selection], header: &Header) -> bool
    ensures { result ≡ list_any (λ s. is_selected s header.now) selections.now }
{
    selections.iter().any(|selection| selection.selects(header))
}

impl DataQuery {
    /// Whether the record has the asked quality.
    pub fn has_quality(&self, header: &Header) -> bool
        ensures { result ≡ holds (λ q. quality_letter q == quality_letter header.now.quality) self.now.quality }
    {
        match self.quality {
            Some(quality) => quality == header.quality,
            None => true,
        }
    }

    /// Whether the record has the asked quality and some selection selects it.
    #[tactic(auto, unfolding(crate::specs::Query::is_asked))]
    pub fn asks(&self, header: &Header) -> bool
        ensures { result ≡ is_asked self.now header.now }
    {
        self.has_quality(header) && is_selected_by_any(self.selections.as_slice(), header)
    }
}
