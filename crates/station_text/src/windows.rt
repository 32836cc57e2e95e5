//! The time and the place of an epoch against those that are asked for.
ghost use Rattle.std.specs.Prelude.{◌≡◌, ◌&&◌, int_le, int_lt};
ghost use Rattle.dataselect.specs.Query.{holds};
ghost use Rattle.epoch_rules.specs.Rules.{ends_by};
ghost use Rattle.station_text.specs.Windows.{ends_from, ends_before, ends_after, meets, passes_comparisons};
ghost use Rattle.line_columns.specs.Columns.{optional_micros};

use dataselect::Selection;
use exact_time::Moment;
use query_words::StationQuery;

/// An epoch: from its start up to its end, if it has one.
#[derive(Clone, Copy, Debug)]
pub struct Epoch {
    pub start: Moment,
    pub end: Option<Moment>,
}

// Whether a moment is at a limit or before it.
fn is_by(moment: Moment, limit: Option<Moment>) -> bool
    ensures { result ≡ holds (λ t. int_le moment.micros t.micros) limit }
{
    match limit {
        None => true,
        Some(limit) => moment.micros <= limit.micros,
    }
}

fn is_before(moment: Moment, limit: Option<Moment>) -> bool
    ensures { result ≡ holds (λ t. int_lt moment.micros t.micros) limit }
{
    match limit {
        None => true,
        Some(limit) => moment.micros < limit.micros,
    }
}

fn is_after(moment: Moment, limit: Option<Moment>) -> bool
    ensures { result ≡ holds (λ t. int_lt t.micros moment.micros) limit }
{
    match limit {
        None => true,
        Some(limit) => limit.micros < moment.micros,
    }
}

// Whether an end is at a limit or after it.
fn ends_from(end: Option<Moment>, limit: Option<Moment>) -> bool
    ensures { result ≡ holds (λ t. ends_from t.micros (optional_micros end)) limit }
{
    match (limit, end) {
        (Some(limit), Some(end)) => limit.micros <= end.micros,
        _ => true,
    }
}

fn ends_before(end: Option<Moment>, limit: Option<Moment>) -> bool
    ensures { result ≡ holds (λ t. ends_before t.micros (optional_micros end)) limit }
{
    match (limit, end) {
        (None, _) => true,
        (Some(limit), Some(end)) => end.micros < limit.micros,
        (Some(_), None) => false,
    }
}

fn ends_after(end: Option<Moment>, limit: Option<Moment>) -> bool
    ensures { result ≡ holds (λ t. ends_after t.micros (optional_micros end)) limit }
{
    match (limit, end) {
        (Some(limit), Some(end)) => limit.micros < end.micros,
        _ => true,
    }
}

// Whether an end is no later than another.
fn ends_by(end: Option<Moment>, other: Option<Moment>) -> bool
    ensures { result ≡ ends_by (optional_micros end) (optional_micros other) }
{
    match (end, other) {
        (_, None) => true,
        (None, Some(_)) => false,
        (Some(end), Some(other)) => end.micros <= other.micros,
    }
}

impl Epoch {
    /// Whether the epoch meets the window of a selection.
    pub fn meets(&self, selection: &Selection) -> bool
        ensures { result ≡ meets selection.now self.now.start.micros (optional_micros self.now.end) }
    {
        is_by(self.start, selection.end) && ends_from(self.end, selection.start)
    }

    /// Whether the epoch passes the four comparisons of the query.
    pub fn passes_comparisons(&self, query: &StationQuery) -> bool
        ensures { result ≡ passes_comparisons query.now self.now.start.micros (optional_micros self.now.end) }
    {
        is_before(self.start, query.start_before)
            && is_after(self.start, query.start_after)
            && ends_before(self.end, query.end_before)
            && ends_after(self.end, query.end_after)
    }

    /// Whether the epoch starts no later than another and ends no earlier.
    pub fn contains(&self, inner: &Epoch) -> bool
        ensures { result ≡ (int_le self.now.start.micros inner.now.start.micros && ends_by (optional_micros inner.now.end) (optional_micros self.now.end)) }
    {
        self.start.micros <= inner.start.micros && ends_by(inner.end, self.end)
    }
}
