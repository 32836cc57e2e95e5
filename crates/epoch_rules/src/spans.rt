//! When the epochs of lines start and end, and how two of them lie.
ghost use Rattle.std.specs.Prelude.{◌≡◌, option_map};
ghost use Rattle.epochs.specs.Lines.{end_of};
ghost use Rattle.epochs.specs.Views.{values_of_line};
ghost use Rattle.epoch_rules.specs.Rules.{epoch_start, is_before_end, ends_by, overlap, contains};

use crate::key_order::key_view;
use epochs::Line;
use exact_time::Moment;

/// When a line's epoch starts, in microseconds; an event's time, and 0 where there is neither.
pub fn start(line: &Line) -> i64
    ensures { result ≡ epoch_start (values_of_line line.now) }
{
    match line {
        Line::Net(net) => net.times.start.micros,
        Line::Sta(sta) => sta.times.start.micros,
        Line::Cha(cha) => cha.times.start.micros,
        Line::Evt(event) => event.time.micros,
        Line::Rst(rst) => rst.times.start.micros,
        Line::Grt(grt) => grt.times.start.micros,
        Line::Usr(_) => 0,
        Line::Wdr(wdr) => wdr.times.start.micros,
        Line::Del(_) => key_view(line).start,
    }
}

// When an epoch ends, in microseconds.
fn micros(end: Option<Moment>) -> Option<i64>
    ensures { result ≡ option_map (λ moment. moment.micros) end }
{
    match end {
        Some(moment) => Some(moment.micros),
        None => None,
    }
}

/// When a line's epoch ends, in microseconds, if it does.
pub fn end(line: &Line) -> Option<i64>
    ensures { result ≡ end_of (values_of_line line.now).values }
{
    match line {
        Line::Net(net) => micros(net.times.end),
        Line::Sta(sta) => micros(sta.times.end),
        Line::Cha(cha) => micros(cha.times.end),
        Line::Evt(_) => None,
        Line::Rst(rst) => micros(rst.times.end),
        Line::Grt(grt) => micros(grt.times.end),
        Line::Usr(_) => None,
        Line::Wdr(wdr) => micros(wdr.times.end),
        Line::Del(_) => None,
    }
}

// Whether a moment is before an end; an absent end is after every moment.
fn is_before_end(moment: i64, end: Option<i64>) -> bool
    ensures { result ≡ is_before_end moment end }
{
    match end {
        Some(end) => moment < end,
        None => true,
    }
}

// Whether an end is no later than another.
fn ends_by(end: Option<i64>, other: Option<i64>) -> bool
    ensures { result ≡ ends_by end other }
{
    match (end, other) {
        (_, None) => true,
        (None, Some(_)) => false,
        (Some(end), Some(other)) => end <= other,
    }
}

/// Whether each of two epochs starts before the other's end.
pub fn overlap(a: &Line, b: &Line) -> bool
    ensures { result ≡ overlap (values_of_line a.now) (values_of_line b.now) }
{
    is_before_end(start(a), end(b)) && is_before_end(start(b), end(a))
}

/// Whether the first epoch starts no later and ends no earlier than the second.
pub fn contains(outer: &Line, inner: &Line) -> bool
    ensures { result ≡ contains (values_of_line outer.now) (values_of_line inner.now) }
{
    start(outer) <= start(inner) && ends_by(end(inner), end(outer))
}
