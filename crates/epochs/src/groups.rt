//! Fields that stand together in lines of several kinds, or that one line has too many of. The numbers
//! of the fields are those from the given one on.
ghost use Rattle.std.specs.Prelude.{◌≡◌, ◌≤◌, ◌<◌, ◌↔◌, IsTrue, Some, option_map, [], ◌∷◌, IfOk, IfErr};
ghost use Rattle.channel_globs.specs.declared.nslc.Part.TheVariants.{Network, Station, Location, Channel};
ghost use Rattle.epochs.specs.declared.quantity.Quantity.TheVariants.{Latitude, Longitude, Azimuth, Dip, Rate, Measure};
ghost use Rattle.epochs.specs.Kinds.{CodeOf, Words, Time, End, Required, Optional, PatternsOf, EventId};
ghost use Rattle.epochs.specs.Fields.{words};
ghost use Rattle.epochs.specs.Lines.{AreValues, IsAfter};
ghost use Rattle.epochs.specs.Values.{time_value, name_values, glob_values, epoch_values, position_values, sensor_values, response_values, hypocentre_values, attribution_values, magnitude_values};
ghost use Rattle.epochs.specs.Reading.{RefusesLineFields};

use crate::parts::{
    Attribution, EpochTimes, Globs, Hypocentre, Magnitude, Position, Response, Sensor,
};
use crate::quantity::Quantity;
use crate::values::{
    FieldFault, read_code, read_end, read_event_id, read_glob, read_number, read_optional,
    read_time, read_words,
};
use channel_globs::{Nslc, Part};
use exact_time::{Moment, Text};
use std::alloc::Global;

/// The four codes of a channel.
pub fn read_name(
    number: u64,
    network: &str,
    station: &str,
    location: &str,
    channel: &str,
) -> Result<Nslc, FieldFault>
    requires { number < 100 }
    ensures value { IfOk result (λ name. AreValues (CodeOf Network ∷ CodeOf Station ∷ CodeOf Location ∷ CodeOf Channel ∷ []) (network.entry.now ∷ station.entry.now ∷ location.entry.now ∷ channel.entry.now ∷ []) (name_values name)) }
    ensures refused { IfErr result (RefusesLineFields (CodeOf Network ∷ CodeOf Station ∷ CodeOf Location ∷ CodeOf Channel ∷ []) number (network.entry.now ∷ station.entry.now ∷ location.entry.now ∷ channel.entry.now ∷ [])) }
{
    let network = read_code(number, Part::Network, network)?;
    let station = read_code(number + 1, Part::Station, station)?;
    let location = read_code(number + 2, Part::Location, location)?;
    let channel = read_code(number + 3, Part::Channel, channel)?;
    Ok(Nslc {
        network,
        station,
        location,
        channel,
    })
}

/// Reads the pattern lists of the four codes.
pub fn read_globs(
    alloc: Global,
    number: u64,
    network: &str,
    station: &str,
    location: &str,
    channel: &str,
) -> Result<Globs, FieldFault>
    requires { number < 100 }
    ensures value { IfOk result (λ channels. AreValues (PatternsOf Network ∷ PatternsOf Station ∷ PatternsOf Location ∷ PatternsOf Channel ∷ []) (network.entry.now ∷ station.entry.now ∷ location.entry.now ∷ channel.entry.now ∷ []) (glob_values channels)) }
    ensures refused { IfErr result (RefusesLineFields (PatternsOf Network ∷ PatternsOf Station ∷ PatternsOf Location ∷ PatternsOf Channel ∷ []) number (network.entry.now ∷ station.entry.now ∷ location.entry.now ∷ channel.entry.now ∷ [])) }
{
    let network = read_glob(alloc, number, Part::Network, network)?;
    let station = read_glob(alloc, number + 1, Part::Station, station)?;
    let location = read_glob(alloc, number + 2, Part::Location, location)?;
    let channel = read_glob(alloc, number + 3, Part::Channel, channel)?;
    Ok(Globs {
        network,
        station,
        location,
        channel,
    })
}

/// The start and the end of an epoch.
pub fn read_epoch(number: u64, start: &str, end: &str) -> Result<EpochTimes, FieldFault>
    requires { number < 100 }
    ensures value { IfOk result (λ times. AreValues (Time ∷ End ∷ []) (start.entry.now ∷ end.entry.now ∷ []) (epoch_values times)) }
    ensures refused { IfErr result (RefusesLineFields (Time ∷ End ∷ []) number (start.entry.now ∷ end.entry.now ∷ [])) }
{
    let start = read_time(number, start)?;
    let end = read_end(number + 1, end)?;
    Ok(EpochTimes { start, end })
}

/// Whether an end is after its start; an epoch without an end is open.
pub fn is_in_order(times: EpochTimes) -> bool
    ensures { IsTrue result ↔ IsAfter (Some times.start.micros) (option_map (λ moment. moment.micros) times.end) }
{
    match times.end {
        None => true,
        Some(end) => times.start < end,
    }
}

/// A latitude, a longitude and an elevation.
pub fn read_position(
    number: u64,
    latitude: &str,
    longitude: &str,
    elevation: &str,
) -> Result<Position, FieldFault>
    requires { number < 100 }
    ensures value { IfOk result (λ position. AreValues (Required Latitude ∷ Required Longitude ∷ Required Measure ∷ []) (latitude.entry.now ∷ longitude.entry.now ∷ elevation.entry.now ∷ []) (position_values position)) }
    ensures refused { IfErr result (RefusesLineFields (Required Latitude ∷ Required Longitude ∷ Required Measure ∷ []) number (latitude.entry.now ∷ longitude.entry.now ∷ elevation.entry.now ∷ [])) }
{
    let latitude = read_number(number, Quantity::Latitude, latitude)?;
    let longitude = read_number(number + 1, Quantity::Longitude, longitude)?;
    let elevation = read_number(number + 2, Quantity::Measure, elevation)?;
    Ok(Position {
        latitude,
        longitude,
        elevation,
    })
}

/// How a sensor stands: its depth, azimuth, dip and description.
pub fn read_sensor(
    alloc: Global,
    number: u64,
    depth: &str,
    azimuth: &str,
    dip: &str,
    sensor: &str,
) -> Result<Sensor, FieldFault>
    requires { number < 100 }
    ensures value { IfOk result (λ read. AreValues (Required Measure ∷ Optional Azimuth ∷ Optional Dip ∷ Words ∷ []) (depth.entry.now ∷ azimuth.entry.now ∷ dip.entry.now ∷ sensor.entry.now ∷ []) (sensor_values read)) }
    ensures refused { IfErr result (RefusesLineFields (Required Measure ∷ Optional Azimuth ∷ Optional Dip ∷ Words ∷ []) number (depth.entry.now ∷ azimuth.entry.now ∷ dip.entry.now ∷ sensor.entry.now ∷ [])) }
{
    let depth = read_number(number, Quantity::Measure, depth)?;
    let azimuth = read_optional(number + 1, Quantity::Azimuth, azimuth)?;
    let dip = read_optional(number + 2, Quantity::Dip, dip)?;
    let sensor = read_words(alloc, number + 3, sensor)?;
    Ok(Sensor {
        depth,
        azimuth,
        dip,
        sensor,
    })
}

/// What a sensor's samples mean: the scale, its frequency and units, and the sample rate.
pub fn read_response(
    alloc: Global,
    number: u64,
    scale: &str,
    scale_freq: &str,
    scale_units: &str,
    sample_rate: &str,
) -> Result<Response, FieldFault>
    requires { number < 100 }
    ensures value { IfOk result (λ response. AreValues (Optional Measure ∷ Optional Measure ∷ Words ∷ Required Rate ∷ []) (scale.entry.now ∷ scale_freq.entry.now ∷ scale_units.entry.now ∷ sample_rate.entry.now ∷ []) (response_values response)) }
    ensures refused { IfErr result (RefusesLineFields (Optional Measure ∷ Optional Measure ∷ Words ∷ Required Rate ∷ []) number (scale.entry.now ∷ scale_freq.entry.now ∷ scale_units.entry.now ∷ sample_rate.entry.now ∷ [])) }
{
    let scale = read_optional(number, Quantity::Measure, scale)?;
    let scale_freq = read_optional(number + 1, Quantity::Measure, scale_freq)?;
    let scale_units = read_words(alloc, number + 2, scale_units)?;
    let sample_rate = read_number(number + 3, Quantity::Rate, sample_rate)?;
    Ok(Response {
        scale,
        scale_freq,
        scale_units,
        sample_rate,
    })
}

/// An event's id and time.
pub fn read_event(
    alloc: Global,
    number: u64,
    id: &str,
    time: &str,
) -> Result<(Text, Moment), FieldFault>
    requires { number < 100 }
    ensures value { IfOk result (λ e. AreValues (EventId ∷ Time ∷ []) (id.entry.now ∷ time.entry.now ∷ []) (words e.0 ∷ time_value e.1 ∷ [])) }
    ensures refused { IfErr result (RefusesLineFields (EventId ∷ Time ∷ []) number (id.entry.now ∷ time.entry.now ∷ [])) }
{
    let id = read_event_id(alloc, number, id)?;
    let time = read_time(number + 1, time)?;
    Ok((id, time))
}

/// An event's latitude, longitude and depth.
pub fn read_hypocentre(
    number: u64,
    latitude: &str,
    longitude: &str,
    depth: &str,
) -> Result<Hypocentre, FieldFault>
    requires { number < 100 }
    ensures value { IfOk result (λ hypocentre. AreValues (Required Latitude ∷ Required Longitude ∷ Optional Measure ∷ []) (latitude.entry.now ∷ longitude.entry.now ∷ depth.entry.now ∷ []) (hypocentre_values hypocentre)) }
    ensures refused { IfErr result (RefusesLineFields (Required Latitude ∷ Required Longitude ∷ Optional Measure ∷ []) number (latitude.entry.now ∷ longitude.entry.now ∷ depth.entry.now ∷ [])) }
{
    let latitude = read_number(number, Quantity::Latitude, latitude)?;
    let longitude = read_number(number + 1, Quantity::Longitude, longitude)?;
    let depth = read_optional(number + 2, Quantity::Measure, depth)?;
    Ok(Hypocentre {
        latitude,
        longitude,
        depth,
    })
}

/// Who told of an event: the author, the catalog, the contributor and its id.
pub fn read_attribution(
    alloc: Global,
    number: u64,
    author: &str,
    catalog: &str,
    contributor: &str,
    contributor_id: &str,
) -> Result<Attribution, FieldFault>
    requires { number < 100 }
    ensures value { IfOk result (λ attribution. AreValues (Words ∷ Words ∷ Words ∷ Words ∷ []) (author.entry.now ∷ catalog.entry.now ∷ contributor.entry.now ∷ contributor_id.entry.now ∷ []) (attribution_values attribution)) }
    ensures refused { IfErr result (RefusesLineFields (Words ∷ Words ∷ Words ∷ Words ∷ []) number (author.entry.now ∷ catalog.entry.now ∷ contributor.entry.now ∷ contributor_id.entry.now ∷ [])) }
{
    let author = read_words(alloc, number, author)?;
    let catalog = read_words(alloc, number + 1, catalog)?;
    let contributor = read_words(alloc, number + 2, contributor)?;
    let contributor_id = read_words(alloc, number + 3, contributor_id)?;
    Ok(Attribution {
        author,
        catalog,
        contributor,
        contributor_id,
    })
}

/// An event's magnitude, behind its kind and before its author, and the name of its place.
pub fn read_magnitude(
    alloc: Global,
    number: u64,
    kind: &str,
    magnitude: &str,
    author: &str,
    location: &str,
) -> Result<Magnitude, FieldFault>
    requires { number < 100 }
    ensures value { IfOk result (λ read. AreValues (Words ∷ Optional Measure ∷ Words ∷ Words ∷ []) (kind.entry.now ∷ magnitude.entry.now ∷ author.entry.now ∷ location.entry.now ∷ []) (magnitude_values read)) }
    ensures refused { IfErr result (RefusesLineFields (Words ∷ Optional Measure ∷ Words ∷ Words ∷ []) number (kind.entry.now ∷ magnitude.entry.now ∷ author.entry.now ∷ location.entry.now ∷ [])) }
{
    let kind = read_words(alloc, number, kind)?;
    let magnitude = read_optional(number + 1, Quantity::Measure, magnitude)?;
    let author = read_words(alloc, number + 2, author)?;
    let location = read_words(alloc, number + 3, location)?;
    Ok(Magnitude {
        kind,
        magnitude,
        author,
        location,
    })
}
