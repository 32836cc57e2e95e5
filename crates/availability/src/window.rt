//! What a selection keeps of time spans.
ghost use Rattle.std.specs.Prelude.{◌≡◌, ◌+◌, ◌<◌, ◌^◌, ◌++◌, int_le, length, IfOk, OnOk};
ghost use Rattle.dataselect.specs.Query.{holds};
ghost use Rattle.availability.specs.Channels.{AreNamed, all_spans};
ghost use Rattle.availability.specs.Windows.{earlier_of, later_of, AreAlone, meets, from_limit, to_limit, clipped, kept_within, kept, is_other_group, wider, extents, windows_of};

use crate::channel::ChannelSpans;
use crate::span::{TimeSpan, Window};
use dataselect::Selection;
use exact_time::{Many, Moment, OutOfMemory};
use query_words::AvailMethod;
use std::alloc::Global;

/// The earlier of two moments.
pub fn earlier_of(a: Moment, b: Moment) -> Moment
    ensures { result ≡ earlier_of a b }
{
    if b.micros < a.micros { b } else { a }
}

/// The later of two moments.
pub fn later_of(a: Moment, b: Moment) -> Moment
    ensures { result ≡ later_of a b }
{
    if a.micros < b.micros { b } else { a }
}

// Whether a moment is at a window's start or after.
fn is_reached(last: Moment, start: Option<Moment>) -> bool
    ensures { result ≡ holds (λ t. int_le t.micros last.micros) start }
{
    match start {
        Some(start) => start.micros <= last.micros,
        None => true,
    }
}

// Whether a moment is at a window's end or before.
fn is_begun(first: Moment, end: Option<Moment>) -> bool
    ensures { result ≡ holds (λ t. int_le first.micros t.micros) end }
{
    match end {
        Some(end) => first.micros <= end.micros,
        None => true,
    }
}

// Whether the span meets the selection's window.
fn meets(selection: &Selection, span: &TimeSpan) -> bool
    ensures { result ≡ meets selection.now span.now }
{
    is_reached(span.last, selection.start) && is_begun(span.start, selection.end)
}

fn from_limit(limit: Option<Moment>, moment: Moment) -> Moment
    ensures { result ≡ from_limit limit moment }
{
    match limit {
        Some(limit) => later_of(moment, limit),
        None => moment,
    }
}

fn to_limit(limit: Option<Moment>, moment: Moment) -> Moment
    ensures { result ≡ to_limit limit moment }
{
    match limit {
        Some(limit) => earlier_of(moment, limit),
        None => moment,
    }
}

// A span clipped to the selection's window.
fn clipped(selection: &Selection, span: &TimeSpan) -> Window
    ensures { result ≡ clipped selection.now span.now }
{
    Window {
        group: span.group,
        earliest: from_limit(selection.start, span.start),
        latest: to_limit(selection.end, span.last),
        updated: span.updated,
        spans: 1,
        restricted: span.restricted,
    }
}

// Adds what the selection's window keeps of spans.
fn add_kept(
    windows: &mut Many<Window>,
    selection: &Selection,
    spans: &[TimeSpan],
) -> Result<(), OutOfMemory>
    ensures ok { OnOk result (windows.new ≡ windows.old ++ kept_within selection.now spans.now) }
{
    'spans: for span in spans {
        if meets(selection, span) {
            windows.push(clipped(selection, span))?;
        }
    }
    Ok(())
}

// What the selection keeps, span by span. It walks the spans of the channels that it matches alone.
fn kept(
    alloc: Global,
    selection: &Selection,
    channels: &[ChannelSpans],
) -> Result<Many<Window>, OutOfMemory>
    requires { AreNamed channels.now }
    ensures { IfOk result (λ windows. windows ≡ kept selection.now (all_spans channels.now)) }
{
    let mut windows = Many::new(alloc);
    'channels: for channel in channels {
        if selection.names(&channel.name) {
            add_kept(&mut windows, selection, channel.spans.as_slice())?;
        }
    }
    Ok(windows)
}

fn is_other_group(v: &Window, w: &Window) -> bool
    ensures { result ≡ is_other_group v.now w.now }
{
    v.group.cmp(&w.group).is_ne()
}

// What is kept of one span more of a group.
fn wider(v: &Window, w: &Window) -> Window
    requires { v.now.spans + w.now.spans < 2 ^ 64 }
    ensures { result ≡ wider v.now w.now }
{
    Window {
        group: w.group,
        earliest: earlier_of(v.earliest, w.earliest),
        latest: later_of(v.latest, w.latest),
        updated: later_of(v.updated, w.updated),
        spans: v.spans + w.spans,
        restricted: v.restricted || w.restricted,
    }
}

// An extent for each group of windows of one span each.
fn extents(alloc: Global, windows: &[Window]) -> Result<Many<Window>, OutOfMemory>
    requires { AreAlone windows.now }
    ensures { IfOk result (λ made. made ≡ extents windows.now) }
{
    let mut extents = Many::new(alloc);
    let Some((first, others)) = windows.split_first() else {
        return Ok(extents);
    };
    let mut extent = *first;
    'windows: for window in others {
        if is_other_group(&extent, window) {
            extents.push(extent)?;
            extent = *window;
        } else {
            extent = wider(&extent, window);
        }
    }
    extents.push(extent)?;
    Ok(extents)
}

/// What a selection keeps of the spans: of each by itself, or of all of one group.
pub fn windows(
    alloc: Global,
    method: AvailMethod,
    selection: &Selection,
    channels: &[ChannelSpans],
) -> Result<Many<Window>, OutOfMemory>
    requires { AreNamed channels.now }
    ensures { IfOk result (λ windows. windows ≡ windows_of method selection.now (all_spans channels.now)) }
{
    let kept = kept(alloc, selection, channels)?;
    match method {
        AvailMethod::Spans => Ok(kept),
        AvailMethod::Extent => extents(alloc, kept.as_slice()),
    }
}
