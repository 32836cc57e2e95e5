//! How rows are put in order for their spans.
ghost use Rattle.std.specs.Prelude.{◌≡◌};
ghost use Rattle.availability.specs.Ranks.{rank_at};

use crate::span::Group;
use crate::spans::group_of;
use exact_time::Moment;
use mseed_header::Row;
use query_words::AvailQuery;

/// By what rows are put in order: their groups, start, entry and place. The place in the shelf stands last, so
/// that no two ranks of one shelf are equal.
#[derive(Clone, Copy, Debug, PartialEq, Eq, PartialOrd, Ord)]
pub struct Rank {
    pub group: Group,
    pub start: Moment,
    pub entry: u64,
    pub place: u32,
    /// The row's place in the shelf.
    pub index: usize,
}

/// The rank of the row at a place of a shelf.
pub fn rank_of(query: &AvailQuery, index: usize, row: &Row) -> Rank
    ensures { result ≡ rank_at query.now index row.now }
{
    Rank {
        group: group_of(query, &row.header),
        start: row.header.start,
        entry: row.entry,
        place: row.place,
        index,
    }
}
