//! Where a row stands.
ghost use Rattle.std.specs.Prelude.{◌≡◌};
ghost use Rattle.time_index.specs.Spots.{fingerprint_of, spot_at, micros_lasted};

use exact_time::{Moment, parts};
use mseed_header::{Header, Row, last};
use std::hash::{FoldHasher, Hasher};

/// Where a row of a channel stands, in the order of starts. Rows with equal bytes have one start and one
/// fingerprint, so that they stand side by side.
#[derive(Clone, Copy, Debug, PartialEq, Eq, PartialOrd, Ord)]
pub struct Spot {
    pub start: Moment,
    /// A short number of the row's bytes.
    pub fingerprint: u64,
    /// The row's place in the shelf.
    pub place: usize,
}

// A short number of a record's bytes, by which few others have to be compared with it. Its seed is fixed:
// a sender can make many records with one number, which costs time alone.
#[tactic(auto, unfolding(crate::specs::Spots::fingerprint_of))]
fn fingerprint(image: &[u8]) -> u64
    ensures { result ≡ fingerprint_of image.now }
{
    let mut hasher = FoldHasher::default();
    hasher.write(image);
    hasher.finish()
}

/// The spot of a row that has this place in the shelf.
pub fn spot_of(place: usize, row: &Row) -> Spot
    ensures { result ≡ spot_at place row.now }
{
    Spot {
        start: row.header.start,
        fingerprint: fingerprint(row.image.as_slice()),
        place,
    }
}

/// How long a record lasts from its first sample to its last, in whole microseconds, rounded up.
pub fn micros_lasted(header: &Header) -> u128
    ensures { result ≡ micros_lasted header.now }
{
    let time = last(header);
    let lead = time.k as u128 * time.rate.den as u128 * 1_000_000;
    lead.div_ceil(parts(time) as u128)
}
