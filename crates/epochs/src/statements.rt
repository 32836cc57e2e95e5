//! The lines of each kind, of the fields behind the kind.
ghost use Rattle.std.specs.Prelude.{◌≡◌, ◌≤◌, ◌<◌, [], ◌∷◌, IfOk, IfErr, length, map};
ghost use Rattle.epochs.specs.declared.kinds.LineKind.TheVariants.{Net, Sta, Cha, Evt, Rst, Grt, Usr, Wdr};
ghost use Rattle.epochs.specs.declared.kinds.Head.TheVariants.{Says};
ghost use Rattle.epochs.specs.Views.{values_of_line};
ghost use Rattle.epochs.specs.Reading.{IsSpelled, RefusesBehind};

use crate::fault::LineFault;
use crate::groups::{
    is_in_order, read_attribution, read_epoch, read_event, read_globs, read_hypocentre,
    read_magnitude, read_name, read_position, read_response, read_sensor,
};
use crate::kinds::LineKind;
use crate::line::{
    ChannelEpoch, Event, Grant, Line, NetworkEpoch, Restriction, StationEpoch, User, Withdrawal,
};
use crate::roles::read_roles;
use crate::values::{
    FieldFault, read_code, read_entry_number, read_ha1, read_user_name, read_words,
};
use channel_globs::Part;
use std::alloc::Global;

fn read_net(alloc: Global, fields: &[&str]) -> Result<Line, FieldFault>
    ensures value { IfOk result (λ line. IsSpelled (Says Net) (map (λ x. x.now) fields.now) (values_of_line line)) }
    ensures refused { IfErr result (RefusesBehind (Says Net) (map (λ x. x.now) fields.now)) }
{
    let [network, description, start, end] = fields else {
        return Err(FieldFault::Bad(LineFault::Fields));
    };
    let network = read_code(2, Part::Network, network)?;
    let description = read_words(alloc, 3, description)?;
    let times = read_epoch(4, start, end)?;
    if !is_in_order(times) {
        return Err(FieldFault::Bad(LineFault::Order));
    }
    Ok(Line::Net(NetworkEpoch {
        network,
        description,
        times,
    }))
}

fn read_sta(alloc: Global, fields: &[&str]) -> Result<Line, FieldFault>
    ensures value { IfOk result (λ line. IsSpelled (Says Sta) (map (λ x. x.now) fields.now) (values_of_line line)) }
    ensures refused { IfErr result (RefusesBehind (Says Sta) (map (λ x. x.now) fields.now)) }
{
    let [
        network,
        station,
        latitude,
        longitude,
        elevation,
        site,
        start,
        end,
    ] = fields
    else {
        return Err(FieldFault::Bad(LineFault::Fields));
    };
    let network = read_code(2, Part::Network, network)?;
    let station = read_code(3, Part::Station, station)?;
    let position = read_position(4, latitude, longitude, elevation)?;
    let site = read_words(alloc, 7, site)?;
    let times = read_epoch(8, start, end)?;
    if !is_in_order(times) {
        return Err(FieldFault::Bad(LineFault::Order));
    }
    Ok(Line::Sta(StationEpoch {
        network,
        station,
        position,
        site,
        times,
    }))
}

fn read_cha(alloc: Global, fields: &[&str]) -> Result<Line, FieldFault>
    ensures value { IfOk result (λ line. IsSpelled (Says Cha) (map (λ x. x.now) fields.now) (values_of_line line)) }
    ensures refused { IfErr result (RefusesBehind (Says Cha) (map (λ x. x.now) fields.now)) }
{
    let [
        network,
        station,
        location,
        channel,
        latitude,
        longitude,
        elevation,
        depth,
        azimuth,
        dip,
        sensor,
        scale,
        scale_freq,
        scale_units,
        sample_rate,
        start,
        end,
    ] = fields
    else {
        return Err(FieldFault::Bad(LineFault::Fields));
    };
    let name = read_name(2, network, station, location, channel)?;
    let position = read_position(6, latitude, longitude, elevation)?;
    let sensor = read_sensor(alloc, 9, depth, azimuth, dip, sensor)?;
    let response = read_response(alloc, 13, scale, scale_freq, scale_units, sample_rate)?;
    let times = read_epoch(17, start, end)?;
    if !is_in_order(times) {
        return Err(FieldFault::Bad(LineFault::Order));
    }
    Ok(Line::Cha(ChannelEpoch {
        name,
        position,
        sensor,
        response,
        times,
    }))
}

fn read_evt(alloc: Global, fields: &[&str]) -> Result<Line, FieldFault>
    ensures value { IfOk result (λ line. IsSpelled (Says Evt) (map (λ x. x.now) fields.now) (values_of_line line)) }
    ensures refused { IfErr result (RefusesBehind (Says Evt) (map (λ x. x.now) fields.now)) }
{
    let [
        id,
        time,
        latitude,
        longitude,
        depth,
        author,
        catalog,
        contributor,
        contributor_id,
        kind,
        magnitude,
        magnitude_author,
        location,
    ] = fields
    else {
        return Err(FieldFault::Bad(LineFault::Fields));
    };
    let (id, time) = read_event(alloc, 2, id, time)?;
    let hypocentre = read_hypocentre(4, latitude, longitude, depth)?;
    let attribution = read_attribution(alloc, 7, author, catalog, contributor, contributor_id)?;
    let magnitude = read_magnitude(alloc, 11, kind, magnitude, magnitude_author, location)?;
    Ok(Line::Evt(Event {
        id,
        time,
        hypocentre,
        attribution,
        magnitude,
    }))
}

fn read_rst(alloc: Global, fields: &[&str]) -> Result<Line, FieldFault>
    ensures value { IfOk result (λ line. IsSpelled (Says Rst) (map (λ x. x.now) fields.now) (values_of_line line)) }
    ensures refused { IfErr result (RefusesBehind (Says Rst) (map (λ x. x.now) fields.now)) }
{
    let [network, station, location, channel, start, end] = fields else {
        return Err(FieldFault::Bad(LineFault::Fields));
    };
    let channels = read_globs(alloc, 2, network, station, location, channel)?;
    let times = read_epoch(6, start, end)?;
    if !is_in_order(times) {
        return Err(FieldFault::Bad(LineFault::Order));
    }
    Ok(Line::Rst(Restriction { channels, times }))
}

fn read_grt(alloc: Global, fields: &[&str]) -> Result<Line, FieldFault>
    ensures value { IfOk result (λ line. IsSpelled (Says Grt) (map (λ x. x.now) fields.now) (values_of_line line)) }
    ensures refused { IfErr result (RefusesBehind (Says Grt) (map (λ x. x.now) fields.now)) }
{
    let [user, network, station, location, channel, start, end] = fields else {
        return Err(FieldFault::Bad(LineFault::Fields));
    };
    let user = read_user_name(alloc, 2, user)?;
    let channels = read_globs(alloc, 3, network, station, location, channel)?;
    let times = read_epoch(7, start, end)?;
    if !is_in_order(times) {
        return Err(FieldFault::Bad(LineFault::Order));
    }
    Ok(Line::Grt(Grant {
        user,
        channels,
        times,
    }))
}

fn read_wdr(alloc: Global, fields: &[&str]) -> Result<Line, FieldFault>
    ensures value { IfOk result (λ line. IsSpelled (Says Wdr) (map (λ x. x.now) fields.now) (values_of_line line)) }
    ensures refused { IfErr result (RefusesBehind (Says Wdr) (map (λ x. x.now) fields.now)) }
{
    let [network, station, location, channel, start, end, upto] = fields else {
        return Err(FieldFault::Bad(LineFault::Fields));
    };
    let channels = read_globs(alloc, 2, network, station, location, channel)?;
    let times = read_epoch(6, start, end)?;
    let upto = read_entry_number(8, upto)?;
    if !is_in_order(times) {
        return Err(FieldFault::Bad(LineFault::Order));
    }
    Ok(Line::Wdr(Withdrawal {
        channels,
        times,
        upto,
    }))
}

fn read_usr(alloc: Global, fields: &[&str]) -> Result<Line, FieldFault>
    ensures value { IfOk result (λ line. IsSpelled (Says Usr) (map (λ x. x.now) fields.now) (values_of_line line)) }
    ensures refused { IfErr result (RefusesBehind (Says Usr) (map (λ x. x.now) fields.now)) }
{
    let [name, ha1, roles] = fields else {
        return Err(FieldFault::Bad(LineFault::Fields));
    };
    let name = read_user_name(alloc, 2, name)?;
    let ha1 = read_ha1(3, ha1)?;
    let roles = read_roles(alloc, 4, roles)?;
    Ok(Line::Usr(User { name, ha1, roles }))
}

/// The line of a kind, of the fields behind the kind.
pub fn read_statement(alloc: Global, kind: LineKind, fields: &[&str]) -> Result<Line, FieldFault>
    ensures value { IfOk result (λ line. IsSpelled (Says kind) (map (λ x. x.now) fields.now) (values_of_line line)) }
    ensures refused { IfErr result (RefusesBehind (Says kind) (map (λ x. x.now) fields.now)) }
{
    match kind {
        LineKind::Net => read_net(alloc, fields),
        LineKind::Sta => read_sta(alloc, fields),
        LineKind::Cha => read_cha(alloc, fields),
        LineKind::Evt => read_evt(alloc, fields),
        LineKind::Rst => read_rst(alloc, fields),
        LineKind::Grt => read_grt(alloc, fields),
        LineKind::Usr => read_usr(alloc, fields),
        LineKind::Wdr => read_wdr(alloc, fields),
    }
}
