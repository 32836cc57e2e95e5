//! Steps on queries.
use crate::fields::{Field, put, put_fields};
use dataselect::{DataQuery, Selection};
use exact_time::{OutOfMemory, Text};
use query_words::{
    AvailMethod, AvailQuery, EventQuery, QueryFault, StationQuery, avail_get, avail_post, data_get,
    data_post, entries_get, event_get, feed_get, read_flag, read_minimum, read_nodata,
    read_quality, read_whole, station_get, station_post,
};
use std::alloc::Global;

// How many selections there are, and the first three.
fn put_selections(
    alloc: Global,
    out: &mut Text,
    selections: &[Selection],
) -> Result<(), OutOfMemory> {
    put(alloc, out, format_args!(" {}", selections.len()))?;
    'selections: for selection in selections.iter().take(3) {
        out.push("; ")?;
        let fields = [
            Field::Patterns(&selection.network),
            Field::Patterns(&selection.station),
            Field::Patterns(&selection.location),
            Field::Patterns(&selection.channel),
            Field::Limit(selection.start),
            Field::Limit(selection.end),
        ];
        put_fields(out, &fields)?;
    }
    Ok(())
}

fn put_data(alloc: Global, out: &mut Text, query: &DataQuery) -> Result<(), OutOfMemory> {
    let choices = format_args!(
        "{:?} {} {} {:?}",
        query.quality, query.minimum, query.longest, query.nodata
    );
    put(alloc, out, choices)?;
    put_selections(alloc, out, query.selections.as_slice())
}

fn put_station(alloc: Global, out: &mut Text, query: &StationQuery) -> Result<(), OutOfMemory> {
    put(
        alloc,
        out,
        format_args!("{:?} {:?} ", query.level, query.nodata),
    )?;
    let fields = [
        Field::Limit(query.start_before),
        Field::Limit(query.start_after),
        Field::Limit(query.end_before),
        Field::Limit(query.end_after),
        Field::Maybe(query.area.latitude.least),
        Field::Maybe(query.area.latitude.most),
        Field::Maybe(query.area.longitude.least),
        Field::Maybe(query.area.longitude.most),
    ];
    put_fields(out, &fields)?;
    put_selections(alloc, out, query.selections.as_slice())
}

fn put_event(alloc: Global, out: &mut Text, query: &EventQuery) -> Result<(), OutOfMemory> {
    let choices = format_args!(
        "{:?} {:?} {} {:?} ",
        query.order, query.limit, query.offset, query.nodata
    );
    put(alloc, out, choices)?;
    let fields = [
        Field::Limit(query.start),
        Field::Limit(query.end),
        Field::Maybe(query.area.latitude.least),
        Field::Maybe(query.area.latitude.most),
        Field::Maybe(query.area.longitude.least),
        Field::Maybe(query.area.longitude.most),
        Field::Maybe(query.depth.least),
        Field::Maybe(query.depth.most),
        Field::Maybe(query.magnitude.least),
        Field::Maybe(query.magnitude.most),
        Field::Quoted(&query.magnitude_kind),
        Field::Quoted(&query.id),
        Field::Quoted(&query.catalog),
        Field::Quoted(&query.contributor),
    ];
    put_fields(out, &fields)
}

fn put_avail(alloc: Global, out: &mut Text, query: &AvailQuery) -> Result<(), OutOfMemory> {
    let choices = format_args!(
        "{} {:?} {:?} {:?} {:?} ",
        query.gaps, query.order, query.limit, query.form, query.nodata
    );
    put(alloc, out, choices)?;
    let qualities = [
        ("D", query.qualities.d),
        ("R", query.qualities.r),
        ("Q", query.qualities.q),
        ("M", query.qualities.m),
    ];
    let merges = [
        ("samplerate", query.merge_rate),
        ("quality", query.merge_quality),
        ("overlap", query.merge_overlap),
    ];
    put_fields(out, &[Field::Names(&qualities), Field::Names(&merges)])?;
    put_selections(alloc, out, query.selections.as_slice())
}

fn of_data(
    alloc: Global,
    out: &mut Text,
    read: Result<DataQuery, QueryFault>,
) -> Result<(), OutOfMemory> {
    match read {
        Ok(query) => put_data(alloc, out, &query),
        Err(fault) => put(alloc, out, fault),
    }
}

fn of_station(
    alloc: Global,
    out: &mut Text,
    read: Result<StationQuery, QueryFault>,
) -> Result<(), OutOfMemory> {
    match read {
        Ok(query) => put_station(alloc, out, &query),
        Err(fault) => put(alloc, out, fault),
    }
}

fn of_event(
    alloc: Global,
    out: &mut Text,
    read: Result<EventQuery, QueryFault>,
) -> Result<(), OutOfMemory> {
    match read {
        Ok(query) => put_event(alloc, out, &query),
        Err(fault) => put(alloc, out, fault),
    }
}

fn of_avail(
    alloc: Global,
    out: &mut Text,
    read: Result<AvailQuery, QueryFault>,
) -> Result<(), OutOfMemory> {
    match read {
        Ok(query) => put_avail(alloc, out, &query),
        Err(fault) => put(alloc, out, fault),
    }
}

fn of_number(
    alloc: Global,
    out: &mut Text,
    read: Result<u64, QueryFault>,
) -> Result<(), OutOfMemory> {
    match read {
        Ok(number) => put(alloc, out, number),
        Err(fault) => put(alloc, out, fault),
    }
}

// What a step on a single value gives.
fn put_value(alloc: Global, call: &str, given: &[u8], out: &mut Text) -> Result<(), OutOfMemory> {
    match call {
        "quality" => put(alloc, out, format_args!("{:?}", read_quality(given).ok())),
        "minimum" => put(alloc, out, format_args!("{:?}", read_minimum(given).ok())),
        "whole" => put(alloc, out, format_args!("{:?}", read_whole(given).ok())),
        "flag" => put(alloc, out, format_args!("{:?}", read_flag(given).ok())),
        "nodata" => put(alloc, out, format_args!("{:?}", read_nodata(given).ok())),
        "no-memory" => put(alloc, out, QueryFault::OutOfMemory),
        _ => out.push("no such call"),
    }
}

/// What a step on queries gives.
pub fn show(alloc: Global, call: &str, given: &[u8], out: &mut Text) -> Result<(), OutOfMemory> {
    match call {
        "data-get" => of_data(alloc, out, data_get(alloc, given)),
        "data-post" => of_data(alloc, out, data_post(alloc, given)),
        "station-get" => of_station(alloc, out, station_get(alloc, given)),
        "station-post" => of_station(alloc, out, station_post(alloc, given)),
        "event-get" => of_event(alloc, out, event_get(alloc, given)),
        "spans-get" => of_avail(alloc, out, avail_get(alloc, given, AvailMethod::Spans)),
        "spans-post" => of_avail(alloc, out, avail_post(alloc, given, AvailMethod::Spans)),
        "extent-get" => of_avail(alloc, out, avail_get(alloc, given, AvailMethod::Extent)),
        "extent-post" => of_avail(alloc, out, avail_post(alloc, given, AvailMethod::Extent)),
        "feed-get" => of_number(alloc, out, feed_get(alloc, given)),
        "entries-get" => of_number(alloc, out, entries_get(alloc, given)),
        _ => put_value(alloc, call, given, out),
    }
}
