//! What the patterns and the times of one line are to a record.
ghost use Rattle.std.specs.Prelude.{◌≡◌, ◌&&◌, int_le, option_map, [], ◌∷◌};
ghost use Rattle.channel_globs.specs.Matching.{is_match_any};
ghost use Rattle.dataselect.specs.Query.{holds, reaches, starts_by};
ghost use Rattle.access_digest.specs.Access.{match_codes, is_over_by};

use channel_globs::Nslc;
use epochs::{EpochTimes, Globs};
use exact_time::{Moment, cmp_sample_time};
use mseed_header::{Header, last};

/// Whether the four lists match the four codes.
pub fn match_codes(channels: &Globs, name: &Nslc) -> bool
    ensures { result ≡ match_codes (channels.now.network.list ∷ channels.now.station.list ∷ channels.now.location.list ∷ channels.now.channel.list ∷ []) name.now }
{
    channels.network.list.matches(&name.network)
        && channels.station.list.matches(&name.station)
        && channels.location.list.matches(&name.location)
        && channels.channel.list.matches(&name.channel)
}

// Whether the record's first sample is at an end or earlier.
fn starts_by(header: &Header, end: Option<Moment>) -> bool
    ensures { result ≡ holds (λ stop. starts_by header.now stop) (option_map (λ t. t.micros) end) }
{
    match end {
        Some(end) => header.start.micros <= end.micros,
        None => true,
    }
}

/// Whether the record's last sample is at an end or earlier.
pub fn is_over_by(header: &Header, end: Option<Moment>) -> bool
    ensures { result ≡ holds (λ stop. is_over_by header.now stop) (option_map (λ t. t.micros) end) }
{
    match end {
        Some(end) => cmp_sample_time(last(header), end).is_le(),
        None => true,
    }
}

/// Whether the record has a sample no earlier than the start, and one no later than the end.
pub fn meets_times(header: &Header, times: EpochTimes) -> bool
    ensures { result ≡ (reaches header.now times.start.micros && holds (λ stop. starts_by header.now stop) (option_map (λ t. t.micros) times.end)) }
{
    cmp_sample_time(last(header), times.start).is_ge() && starts_by(header, times.end)
}

/// Whether the record lies between the start and the end.
pub fn keeps_times(header: &Header, times: EpochTimes) -> bool
    ensures { result ≡ (int_le times.start.micros header.now.start.micros && holds (λ stop. is_over_by header.now stop) (option_map (λ t. t.micros) times.end)) }
{
    times.start.micros <= header.start.micros && is_over_by(header, times.end)
}
