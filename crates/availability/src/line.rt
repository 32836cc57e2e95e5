//! The lines of an answer, in their order.
ghost use Rattle.std.specs.Prelude.{◌≡◌, map, IfOk, OnOk};
ghost use Rattle.list_laws.specs.InOrder.{in_order};
ghost use Rattle.availability.specs.Channels.{AreNamed, all_spans};
ghost use Rattle.availability.specs.Lines.{first_of, line_of, line_cmp, lines_of};

use crate::channel::ChannelSpans;
use crate::span::Window;
use crate::window::windows;
use channel_globs::Nslc;
use exact_time::{Moment, OutOfMemory, Ratio};
use mseed_header::Quality;
use query_parameters::AvailOrder;
use query_words::{AvailMethod, AvailQuery};
use std::alloc::Global;
use std::collections::BTreeSet;

/// A line of an answer. Its fields are in the order by which lines are put in order.
#[derive(Clone, Copy, Debug, PartialEq, Eq, PartialOrd, Ord)]
pub struct Line {
    /// What the asked order puts before the codes: 0, or the moment of the last update in microseconds, or
    /// the number of spans; below zero where the order descends.
    pub first: i128,
    pub name: Nslc,
    pub earliest: Moment,
    pub quality: Option<Quality>,
    pub rate: Option<Ratio>,
    pub latest: Moment,
    pub updated: Moment,
    pub spans: u64,
    pub restricted: bool,
}

// What an order puts before the codes.
fn first_of(order: AvailOrder, window: &Window) -> i128
    ensures { result ≡ first_of order window.now }
{
    match order {
        AvailOrder::Name => 0,
        AvailOrder::UpdatedUp => window.updated.micros as i128,
        AvailOrder::UpdatedDown => -(window.updated.micros as i128),
        AvailOrder::CountUp => window.spans as i128,
        AvailOrder::CountDown => -(window.spans as i128),
    }
}

fn line_of(order: AvailOrder, window: &Window) -> Line
    ensures { result ≡ line_of order window.now }
{
    Line {
        first: first_of(order, window),
        name: window.group.name,
        earliest: window.earliest,
        quality: window.group.quality,
        rate: window.group.rate,
        latest: window.latest,
        updated: window.updated,
        spans: window.spans,
        restricted: window.restricted,
    }
}

// Puts the lines of windows in order among others.
fn put_lines(
    lines: &mut BTreeSet<Line>,
    order: AvailOrder,
    windows: &[Window],
) -> Result<(), OutOfMemory>
    ensures { OnOk result (lines.new.keys ≡ in_order line_cmp lines.old.keys (map (line_of order) windows.now)) }
{
    'windows: for window in windows {
        lines.insert(line_of(order, window))?;
    }
    Ok(())
}

/// All lines in order, equal ones once.
pub fn lines(
    alloc: Global,
    method: AvailMethod,
    query: &AvailQuery,
    channels: &[ChannelSpans],
) -> Result<BTreeSet<Line>, OutOfMemory>
    requires { AreNamed channels.now }
    ensures { IfOk result (λ lines. lines.keys ≡ lines_of method query.now (all_spans channels.now)) }
{
    let mut lines = BTreeSet::new(alloc);
    'selections: for selection in query.selections.as_slice() {
        let windows = windows(alloc, method, selection, channels)?;
        put_lines(&mut lines, query.order, windows.as_slice())?;
    }
    Ok(lines)
}
