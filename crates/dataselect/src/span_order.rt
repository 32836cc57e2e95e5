//! The order of rows for their spans.
ghost use Rattle.std.specs.Prelude.{◌≡◌};
ghost use Rattle.dataselect.specs.SpanOrder.{span_rank_at};

use channel_globs::Nslc;
use exact_time::{Moment, Ratio};
use mseed_header::{Quality, Row};

/// By what rows are ordered for their spans: name, quality letter, rate, start, entry, place. The place in
/// the shelf stands last, so that no two ranks of one shelf are equal.
#[derive(Clone, Copy, Debug, PartialEq, Eq, PartialOrd, Ord)]
pub struct SpanRank {
    pub name: Nslc,
    pub quality: Quality,
    pub rate: Ratio,
    pub start: Moment,
    pub entry: u64,
    pub place: u32,
    /// The row's place in the shelf.
    pub index: usize,
}

/// The rank of the row at a place of a shelf.
pub fn span_rank_of(index: usize, row: &Row) -> SpanRank
    ensures { result ≡ span_rank_at index row.now }
{
    SpanRank {
        name: row.header.name,
        quality: row.header.quality,
        rate: row.header.rate,
        start: row.header.start,
        entry: row.entry,
        place: row.place,
        index,
    }
}
