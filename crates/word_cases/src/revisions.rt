//! Steps on revision lines.
use crate::fields::{Answer, Field, NO_CALL, flag, put, put_answer, put_fields};
use crate::given::text_of;
use epochs::{
    ChannelEpoch, EpochTimes, Event, Globs, Grant, Key, Line, RevisionFault, Roles, StationEpoch,
    User, is_ha1, is_skipped, is_user_name, read_revision,
};
use exact_time::{Many, Moment, OutOfMemory, Text};
use std::alloc::Global;

fn put_station(out: &mut Text, sta: &StationEpoch) -> Result<(), OutOfMemory> {
    put_fields(
        out,
        &[
            Field::Word("STA"),
            Field::Code(&sta.network),
            Field::Code(&sta.station),
            Field::Number(sta.position.latitude),
            Field::Number(sta.position.longitude),
            Field::Number(sta.position.elevation),
            Field::Word(sta.site.as_str()),
            Field::Moment(sta.times.start),
            Field::Limit(sta.times.end),
        ],
    )
}

fn put_channel(out: &mut Text, cha: &ChannelEpoch) -> Result<(), OutOfMemory> {
    put_fields(
        out,
        &[
            Field::Word("CHA"),
            Field::Code(&cha.name.network),
            Field::Code(&cha.name.station),
            Field::Code(&cha.name.location),
            Field::Code(&cha.name.channel),
            Field::Number(cha.position.latitude),
            Field::Number(cha.position.longitude),
            Field::Number(cha.position.elevation),
            Field::Number(cha.sensor.depth),
            Field::Maybe(cha.sensor.azimuth),
            Field::Maybe(cha.sensor.dip),
            Field::Word(cha.sensor.sensor.as_str()),
            Field::Maybe(cha.response.scale),
            Field::Maybe(cha.response.scale_freq),
            Field::Word(cha.response.scale_units.as_str()),
            Field::Number(cha.response.sample_rate),
            Field::Moment(cha.times.start),
            Field::Limit(cha.times.end),
        ],
    )
}

fn put_event(out: &mut Text, evt: &Event) -> Result<(), OutOfMemory> {
    put_fields(
        out,
        &[
            Field::Word("EVT"),
            Field::Word(evt.id.as_str()),
            Field::Moment(evt.time),
            Field::Number(evt.hypocentre.latitude),
            Field::Number(evt.hypocentre.longitude),
            Field::Maybe(evt.hypocentre.depth),
            Field::Word(evt.attribution.author.as_str()),
            Field::Word(evt.attribution.catalog.as_str()),
            Field::Word(evt.attribution.contributor.as_str()),
            Field::Word(evt.attribution.contributor_id.as_str()),
            Field::Word(evt.magnitude.kind.as_str()),
            Field::Maybe(evt.magnitude.magnitude),
            Field::Word(evt.magnitude.author.as_str()),
            Field::Word(evt.magnitude.location.as_str()),
        ],
    )
}

fn put_user(out: &mut Text, user: &User) -> Result<(), OutOfMemory> {
    let Roles {
        reader,
        feed,
        operator,
        replica,
    } = user.roles;
    let roles = [
        ("reader", reader),
        ("feed", feed),
        ("operator", operator),
        ("replica", replica),
    ];
    put_fields(
        out,
        &[
            Field::Word("USR"),
            Field::Word(user.name.as_str()),
            Field::Word(text_of(&user.ha1)),
            Field::Names(&roles),
        ],
    )
}

// A first field, the patterns of channels, and times.
fn put_channels<'a>(
    out: &mut Text,
    first: &'a str,
    channels: &'a Globs,
    times: EpochTimes,
) -> Result<(), OutOfMemory> {
    put_fields(
        out,
        &[
            Field::Word(first),
            Field::Glob(&channels.network),
            Field::Glob(&channels.station),
            Field::Glob(&channels.location),
            Field::Glob(&channels.channel),
            Field::Moment(times.start),
            Field::Limit(times.end),
        ],
    )
}

fn put_grant(out: &mut Text, grant: &Grant) -> Result<(), OutOfMemory> {
    out.push("GRT|")?;
    put_channels(out, grant.user.as_str(), &grant.channels, grant.times)
}

// A first field, the patterns of channels, and a start.
fn put_channels_from<'a>(
    out: &mut Text,
    first: &'a str,
    channels: &'a Globs,
    start: Moment,
) -> Result<(), OutOfMemory> {
    put_fields(
        out,
        &[
            Field::Word(first),
            Field::Glob(&channels.network),
            Field::Glob(&channels.station),
            Field::Glob(&channels.location),
            Field::Glob(&channels.channel),
            Field::Moment(start),
        ],
    )
}

fn put_key(out: &mut Text, key: &Key) -> Result<(), OutOfMemory> {
    out.push("DEL|")?;
    match key {
        Key::Net { network, start } => put_fields(
            out,
            &[
                Field::Word("NET"),
                Field::Code(network),
                Field::Moment(*start),
            ],
        ),
        Key::Sta {
            network,
            station,
            start,
        } => put_fields(
            out,
            &[
                Field::Word("STA"),
                Field::Code(network),
                Field::Code(station),
                Field::Moment(*start),
            ],
        ),
        Key::Cha { name, start } => put_fields(
            out,
            &[
                Field::Word("CHA"),
                Field::Code(&name.network),
                Field::Code(&name.station),
                Field::Code(&name.location),
                Field::Code(&name.channel),
                Field::Moment(*start),
            ],
        ),
        Key::Evt { id } => put_fields(out, &[Field::Word("EVT"), Field::Word(id.as_str())]),
        Key::Rst { channels, start } => put_channels_from(out, "RST", channels, *start),
        Key::Grt {
            user,
            channels,
            start,
        } => {
            out.push("GRT|")?;
            put_channels_from(out, user.as_str(), channels, *start)
        }
        Key::Wdr { channels, start } => put_channels_from(out, "WDR", channels, *start),
        Key::Usr { name } => put_fields(out, &[Field::Word("USR"), Field::Word(name.as_str())]),
    }
}

fn put_line(alloc: Global, out: &mut Text, line: &Line) -> Result<(), OutOfMemory> {
    match line {
        Line::Net(net) => put_fields(
            out,
            &[
                Field::Word("NET"),
                Field::Code(&net.network),
                Field::Word(net.description.as_str()),
                Field::Moment(net.times.start),
                Field::Limit(net.times.end),
            ],
        ),
        Line::Sta(sta) => put_station(out, sta),
        Line::Cha(cha) => put_channel(out, cha),
        Line::Evt(evt) => put_event(out, evt),
        Line::Rst(rst) => put_channels(out, "RST", &rst.channels, rst.times),
        Line::Grt(grant) => put_grant(out, grant),
        Line::Wdr(wdr) => {
            put_channels(out, "WDR", &wdr.channels, wdr.times)?;
            out.push("|")?;
            put(alloc, out, wdr.upto)
        }
        Line::Usr(user) => put_user(out, user),
        Line::Del(deletion) => put_key(out, &deletion.key),
    }
}

fn put_lines(alloc: Global, out: &mut Text, lines: &[Line]) -> Result<(), OutOfMemory> {
    'lines: for line in lines {
        put_line(alloc, out, line)?;
        out.push(";")?;
    }
    Ok(())
}

fn put_revision(
    alloc: Global,
    out: &mut Text,
    read: &Result<Many<Line>, RevisionFault>,
) -> Result<(), OutOfMemory> {
    match read {
        Ok(lines) => put_lines(alloc, out, lines.as_slice()),
        Err(fault) => put(alloc, out, fault),
    }
}

fn count(read: &Result<Many<Line>, RevisionFault>) -> Answer {
    match read {
        Ok(lines) => Answer::Size(lines.len()),
        Err(_) => NO_CALL,
    }
}

/// What a step on revision lines gives.
pub fn show(alloc: Global, call: &str, given: &[u8], out: &mut Text) -> Result<(), OutOfMemory> {
    let answer = match call {
        "revision" => return put_revision(alloc, out, &read_revision(alloc, given)),
        "count" => count(&read_revision(alloc, given)),
        "user-name" => flag(is_user_name(given)),
        "ha1" => flag(is_ha1(given)),
        "skipped" => flag(is_skipped(given)),
        _ => NO_CALL,
    };
    put_answer(alloc, out, answer)
}
