//! Deletions, of the fields behind `DEL` and the kind: those of the key.
ghost use Rattle.std.specs.Prelude.{◌≡◌, ◌≤◌, ◌<◌, [], ◌∷◌, IfOk, IfErr, length, map};
ghost use Rattle.epochs.specs.declared.kinds.LineKind.TheVariants.{Net, Sta, Cha, Evt, Rst, Grt, Usr, Wdr};
ghost use Rattle.epochs.specs.declared.kinds.Head.TheVariants.{Deletes};
ghost use Rattle.epochs.specs.Views.{values_of_line};
ghost use Rattle.epochs.specs.Reading.{IsSpelled, RefusesBehind};

use crate::fault::LineFault;
use crate::groups::{read_globs, read_name};
use crate::key::Key;
use crate::kinds::LineKind;
use crate::line::{Deletion, Line};
use crate::values::{FieldFault, read_code, read_event_id, read_time, read_user_name};
use channel_globs::Part;
use std::alloc::Global;

fn net_deletion(fields: &[&str]) -> Result<Line, FieldFault>
    ensures value { IfOk result (λ line. IsSpelled (Deletes Net) (map (λ x. x.now) fields.now) (values_of_line line)) }
    ensures refused { IfErr result (RefusesBehind (Deletes Net) (map (λ x. x.now) fields.now)) }
{
    let [network, start] = fields else {
        return Err(FieldFault::Bad(LineFault::Fields));
    };
    let network = read_code(3, Part::Network, network)?;
    let start = read_time(4, start)?;
    Ok(Line::Del(Deletion {
        key: Key::Net { network, start },
    }))
}

fn sta_deletion(fields: &[&str]) -> Result<Line, FieldFault>
    ensures value { IfOk result (λ line. IsSpelled (Deletes Sta) (map (λ x. x.now) fields.now) (values_of_line line)) }
    ensures refused { IfErr result (RefusesBehind (Deletes Sta) (map (λ x. x.now) fields.now)) }
{
    let [network, station, start] = fields else {
        return Err(FieldFault::Bad(LineFault::Fields));
    };
    let network = read_code(3, Part::Network, network)?;
    let station = read_code(4, Part::Station, station)?;
    let start = read_time(5, start)?;
    Ok(Line::Del(Deletion {
        key: Key::Sta {
            network,
            station,
            start,
        },
    }))
}

fn cha_deletion(fields: &[&str]) -> Result<Line, FieldFault>
    ensures value { IfOk result (λ line. IsSpelled (Deletes Cha) (map (λ x. x.now) fields.now) (values_of_line line)) }
    ensures refused { IfErr result (RefusesBehind (Deletes Cha) (map (λ x. x.now) fields.now)) }
{
    let [network, station, location, channel, start] = fields else {
        return Err(FieldFault::Bad(LineFault::Fields));
    };
    let name = read_name(3, network, station, location, channel)?;
    let start = read_time(7, start)?;
    Ok(Line::Del(Deletion {
        key: Key::Cha { name, start },
    }))
}

fn evt_deletion(alloc: Global, fields: &[&str]) -> Result<Line, FieldFault>
    ensures value { IfOk result (λ line. IsSpelled (Deletes Evt) (map (λ x. x.now) fields.now) (values_of_line line)) }
    ensures refused { IfErr result (RefusesBehind (Deletes Evt) (map (λ x. x.now) fields.now)) }
{
    let [id] = fields else {
        return Err(FieldFault::Bad(LineFault::Fields));
    };
    let id = read_event_id(alloc, 3, id)?;
    Ok(Line::Del(Deletion {
        key: Key::Evt { id },
    }))
}

fn rst_deletion(alloc: Global, fields: &[&str]) -> Result<Line, FieldFault>
    ensures value { IfOk result (λ line. IsSpelled (Deletes Rst) (map (λ x. x.now) fields.now) (values_of_line line)) }
    ensures refused { IfErr result (RefusesBehind (Deletes Rst) (map (λ x. x.now) fields.now)) }
{
    let [network, station, location, channel, start] = fields else {
        return Err(FieldFault::Bad(LineFault::Fields));
    };
    let channels = read_globs(alloc, 3, network, station, location, channel)?;
    let start = read_time(7, start)?;
    Ok(Line::Del(Deletion {
        key: Key::Rst { channels, start },
    }))
}

fn grt_deletion(alloc: Global, fields: &[&str]) -> Result<Line, FieldFault>
    ensures value { IfOk result (λ line. IsSpelled (Deletes Grt) (map (λ x. x.now) fields.now) (values_of_line line)) }
    ensures refused { IfErr result (RefusesBehind (Deletes Grt) (map (λ x. x.now) fields.now)) }
{
    let [user, network, station, location, channel, start] = fields else {
        return Err(FieldFault::Bad(LineFault::Fields));
    };
    let user = read_user_name(alloc, 3, user)?;
    let channels = read_globs(alloc, 4, network, station, location, channel)?;
    let start = read_time(8, start)?;
    Ok(Line::Del(Deletion {
        key: Key::Grt {
            user,
            channels,
            start,
        },
    }))
}

fn wdr_deletion(alloc: Global, fields: &[&str]) -> Result<Line, FieldFault>
    ensures value { IfOk result (λ line. IsSpelled (Deletes Wdr) (map (λ x. x.now) fields.now) (values_of_line line)) }
    ensures refused { IfErr result (RefusesBehind (Deletes Wdr) (map (λ x. x.now) fields.now)) }
{
    let [network, station, location, channel, start] = fields else {
        return Err(FieldFault::Bad(LineFault::Fields));
    };
    let channels = read_globs(alloc, 3, network, station, location, channel)?;
    let start = read_time(7, start)?;
    Ok(Line::Del(Deletion {
        key: Key::Wdr { channels, start },
    }))
}

fn usr_deletion(alloc: Global, fields: &[&str]) -> Result<Line, FieldFault>
    ensures value { IfOk result (λ line. IsSpelled (Deletes Usr) (map (λ x. x.now) fields.now) (values_of_line line)) }
    ensures refused { IfErr result (RefusesBehind (Deletes Usr) (map (λ x. x.now) fields.now)) }
{
    let [name] = fields else {
        return Err(FieldFault::Bad(LineFault::Fields));
    };
    let name = read_user_name(alloc, 3, name)?;
    Ok(Line::Del(Deletion {
        key: Key::Usr { name },
    }))
}

/// The deletion of a line of a kind, of the fields behind the kind.
pub fn read_deletion(alloc: Global, kind: LineKind, fields: &[&str]) -> Result<Line, FieldFault>
    ensures value { IfOk result (λ line. IsSpelled (Deletes kind) (map (λ x. x.now) fields.now) (values_of_line line)) }
    ensures refused { IfErr result (RefusesBehind (Deletes kind) (map (λ x. x.now) fields.now)) }
{
    match kind {
        LineKind::Net => net_deletion(fields),
        LineKind::Sta => sta_deletion(fields),
        LineKind::Cha => cha_deletion(fields),
        LineKind::Evt => evt_deletion(alloc, fields),
        LineKind::Rst => rst_deletion(alloc, fields),
        LineKind::Grt => grt_deletion(alloc, fields),
        LineKind::Usr => usr_deletion(alloc, fields),
        LineKind::Wdr => wdr_deletion(alloc, fields),
    }
}
