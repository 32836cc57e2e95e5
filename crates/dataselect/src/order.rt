//! The order of chosen rows.
ghost use Rattle.std.specs.Prelude.{◌≡◌, map, IfOk};
ghost use Rattle.dataselect.specs.Order.{rank_at};

use channel_globs::Nslc;
use exact_time::{Many, Moment, OutOfMemory};
use mseed_header::{Quality, Row};
use std::alloc::Global;
use std::collections::BTreeSet;

/// By what chosen rows are ordered: name, quality letter, start, entry, place. The place in the shelf
/// stands last, so that no two ranks of one shelf are equal.
#[derive(Clone, Copy, Debug, PartialEq, Eq, PartialOrd, Ord)]
pub struct Rank {
    pub name: Nslc,
    pub quality: Quality,
    pub start: Moment,
    pub entry: u64,
    pub place: u32,
    /// The row's place in the shelf.
    pub index: usize,
}

/// The rank of the row at a place of a shelf.
pub fn rank_of(index: usize, row: &Row) -> Rank
    ensures { result ≡ rank_at index row.now }
{
    Rank {
        name: row.header.name,
        quality: row.header.quality,
        start: row.header.start,
        entry: row.entry,
        place: row.place,
        index,
    }
}

/// The places in the shelf, in the order of the ranks.
pub fn places_of(alloc: Global, ranks: &BTreeSet<Rank>) -> Result<Many<usize>, OutOfMemory>
    ensures { IfOk result (λ places. places ≡ map (λ rank. rank.index) ranks.now.keys) }
{
    let mut places = Many::new(alloc);
    'ranks: for rank in ranks {
        places.push(rank.index)?;
    }
    Ok(places)
}
