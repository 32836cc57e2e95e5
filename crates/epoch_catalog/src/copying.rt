//! Copies of lines.
ghost use Rattle.std.specs.Prelude.{◌≡◌, IfOk};
ghost use Rattle.channel_globs.specs.PatternText.{IsPatternList};
ghost use Rattle.epochs.specs.declared.line.Line.TheVariants as line;
ghost use Rattle.epochs.specs.Spellable.{IsSpellable};
ghost use Rattle.epochs.specs.Keys.{deletion_line};
ghost use Rattle.epochs.specs.Views.{values_of_line};
ghost use Rattle.epoch_catalog.specs.Globs.{AreRead};

use channel_globs::{Part, PatternList};
use epochs::{
    Attribution, ChannelEpoch, Deletion, Event, Glob, Globs, Grant, Key, Line, Magnitude,
    NetworkEpoch, Response, Restriction, Sensor, StationEpoch, User, Withdrawal,
};
use exact_time::{OutOfMemory, Text};
use std::alloc::Global;

fn copy_text(alloc: Global, text: &Text) -> Result<Text, OutOfMemory>
    ensures { IfOk result (λ copy. copy ≡ text.now) }
{
    let mut copy = Text::new(alloc);
    copy.push(text.as_str())?;
    Ok(copy)
}

fn copy_glob(alloc: Global, part: Part, glob: &Glob) -> Result<Glob, OutOfMemory>
    requires { IsPatternList part glob.now.text glob.now.list }
    ensures { IfOk result (λ copy. copy ≡ glob.now) }
{
    let text = copy_text(alloc, &glob.text)?;
    // the text was read once, so that only memory can be missing
    match PatternList::read(alloc, glob.text.as_slice(), part) {
        Ok(list) => Ok(Glob { text, list }),
        Err(_) => Err(OutOfMemory),
    }
}

// A copy of the patterns of the four codes, each list of which is that of its text.
fn copy_globs(alloc: Global, channels: &Globs) -> Result<Globs, OutOfMemory>
    requires { AreRead channels.now }
    ensures { IfOk result (λ copy. copy ≡ channels.now) }
{
    Ok(Globs {
        network: copy_glob(alloc, Part::Network, &channels.network)?,
        station: copy_glob(alloc, Part::Station, &channels.station)?,
        location: copy_glob(alloc, Part::Location, &channels.location)?,
        channel: copy_glob(alloc, Part::Channel, &channels.channel)?,
    })
}

fn copy_sensor(alloc: Global, sensor: &Sensor) -> Result<Sensor, OutOfMemory>
    ensures { IfOk result (λ copy. copy ≡ sensor.now) }
{
    Ok(Sensor {
        depth: sensor.depth,
        azimuth: sensor.azimuth,
        dip: sensor.dip,
        sensor: copy_text(alloc, &sensor.sensor)?,
    })
}

fn copy_response(alloc: Global, response: &Response) -> Result<Response, OutOfMemory>
    ensures { IfOk result (λ copy. copy ≡ response.now) }
{
    Ok(Response {
        scale: response.scale,
        scale_freq: response.scale_freq,
        scale_units: copy_text(alloc, &response.scale_units)?,
        sample_rate: response.sample_rate,
    })
}

fn copy_attribution(alloc: Global, told: &Attribution) -> Result<Attribution, OutOfMemory>
    ensures { IfOk result (λ copy. copy ≡ told.now) }
{
    Ok(Attribution {
        author: copy_text(alloc, &told.author)?,
        catalog: copy_text(alloc, &told.catalog)?,
        contributor: copy_text(alloc, &told.contributor)?,
        contributor_id: copy_text(alloc, &told.contributor_id)?,
    })
}

fn copy_magnitude(alloc: Global, magnitude: &Magnitude) -> Result<Magnitude, OutOfMemory>
    ensures { IfOk result (λ copy. copy ≡ magnitude.now) }
{
    Ok(Magnitude {
        kind: copy_text(alloc, &magnitude.kind)?,
        magnitude: magnitude.magnitude,
        author: copy_text(alloc, &magnitude.author)?,
        location: copy_text(alloc, &magnitude.location)?,
    })
}

fn copy_net(alloc: Global, net: &NetworkEpoch) -> Result<Line, OutOfMemory>
    ensures { IfOk result (λ copy. values_of_line copy ≡ values_of_line (line.Net net.now)) }
{
    Ok(Line::Net(NetworkEpoch {
        network: net.network,
        description: copy_text(alloc, &net.description)?,
        times: net.times,
    }))
}

fn copy_sta(alloc: Global, sta: &StationEpoch) -> Result<Line, OutOfMemory>
    ensures { IfOk result (λ copy. values_of_line copy ≡ values_of_line (line.Sta sta.now)) }
{
    Ok(Line::Sta(StationEpoch {
        network: sta.network,
        station: sta.station,
        position: sta.position,
        site: copy_text(alloc, &sta.site)?,
        times: sta.times,
    }))
}

fn copy_cha(alloc: Global, cha: &ChannelEpoch) -> Result<Line, OutOfMemory>
    ensures { IfOk result (λ copy. values_of_line copy ≡ values_of_line (line.Cha cha.now)) }
{
    Ok(Line::Cha(ChannelEpoch {
        name: cha.name,
        position: cha.position,
        sensor: copy_sensor(alloc, &cha.sensor)?,
        response: copy_response(alloc, &cha.response)?,
        times: cha.times,
    }))
}

fn copy_evt(alloc: Global, event: &Event) -> Result<Line, OutOfMemory>
    ensures { IfOk result (λ copy. values_of_line copy ≡ values_of_line (line.Evt event.now)) }
{
    Ok(Line::Evt(Event {
        id: copy_text(alloc, &event.id)?,
        time: event.time,
        hypocentre: event.hypocentre,
        attribution: copy_attribution(alloc, &event.attribution)?,
        magnitude: copy_magnitude(alloc, &event.magnitude)?,
    }))
}

fn copy_rst(alloc: Global, rst: &Restriction) -> Result<Line, OutOfMemory>
    ensures { IfOk result (λ copy. values_of_line copy ≡ values_of_line (line.Rst rst.now)) }
{
    Ok(Line::Rst(Restriction {
        channels: copy_globs(alloc, &rst.channels)?,
        times: rst.times,
    }))
}

fn copy_grt(alloc: Global, grt: &Grant) -> Result<Line, OutOfMemory>
    ensures { IfOk result (λ copy. values_of_line copy ≡ values_of_line (line.Grt grt.now)) }
{
    Ok(Line::Grt(Grant {
        user: copy_text(alloc, &grt.user)?,
        channels: copy_globs(alloc, &grt.channels)?,
        times: grt.times,
    }))
}

fn copy_wdr(alloc: Global, wdr: &Withdrawal) -> Result<Line, OutOfMemory>
    ensures { IfOk result (λ copy. values_of_line copy ≡ values_of_line (line.Wdr wdr.now)) }
{
    Ok(Line::Wdr(Withdrawal {
        channels: copy_globs(alloc, &wdr.channels)?,
        times: wdr.times,
        upto: wdr.upto,
    }))
}

fn copy_usr(alloc: Global, user: &User) -> Result<Line, OutOfMemory>
    ensures { IfOk result (λ copy. values_of_line copy ≡ values_of_line (line.Usr user.now)) }
{
    Ok(Line::Usr(User {
        name: copy_text(alloc, &user.name)?,
        ha1: user.ha1,
        roles: user.roles,
    }))
}

fn copy_key(alloc: Global, key: &Key) -> Result<Key, OutOfMemory>
    requires { IsSpellable (deletion_line key.now) }
    ensures { IfOk result (λ copy. copy ≡ key.now) }
{
    Ok(match key {
        Key::Net { network, start } => Key::Net {
            network: *network,
            start: *start,
        },
        Key::Sta {
            network,
            station,
            start,
        } => Key::Sta {
            network: *network,
            station: *station,
            start: *start,
        },
        Key::Cha { name, start } => Key::Cha {
            name: *name,
            start: *start,
        },
        Key::Evt { id } => Key::Evt {
            id: copy_text(alloc, id)?,
        },
        Key::Rst { channels, start } => Key::Rst {
            channels: copy_globs(alloc, channels)?,
            start: *start,
        },
        Key::Grt {
            user,
            channels,
            start,
        } => Key::Grt {
            user: copy_text(alloc, user)?,
            channels: copy_globs(alloc, channels)?,
            start: *start,
        },
        Key::Usr { name } => Key::Usr {
            name: copy_text(alloc, name)?,
        },
        Key::Wdr { channels, start } => Key::Wdr {
            channels: copy_globs(alloc, channels)?,
            start: *start,
        },
    })
}

fn copy_del(alloc: Global, deletion: &Deletion) -> Result<Line, OutOfMemory>
    ensures { IfOk result (λ copy. values_of_line copy ≡ values_of_line (line.Del deletion.now)) }
{
    Ok(Line::Del(Deletion {
        key: copy_key(alloc, &deletion.key)?,
    }))
}

/// A line with the same fields as this one, in memory of its own.
pub fn copy_line(alloc: Global, line: &Line) -> Result<Line, OutOfMemory>
    ensures { IfOk result (λ copy. values_of_line copy ≡ values_of_line line.now) }
{
    match line {
        Line::Net(net) => copy_net(alloc, net),
        Line::Sta(sta) => copy_sta(alloc, sta),
        Line::Cha(cha) => copy_cha(alloc, cha),
        Line::Evt(event) => copy_evt(alloc, event),
        Line::Rst(rst) => copy_rst(alloc, rst),
        Line::Grt(grt) => copy_grt(alloc, grt),
        Line::Usr(user) => copy_usr(alloc, user),
        Line::Wdr(wdr) => copy_wdr(alloc, wdr),
        Line::Del(deletion) => copy_del(alloc, deletion),
    }
}
