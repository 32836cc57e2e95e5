//! Rows that are held already.
ghost use Rattle.std.specs.Prelude.{◌≡◌};
ghost use Rattle.std.specs.BTreeMap.{get};
ghost use Rattle.channel_globs.specs.Names.{name_cmp};
ghost use Rattle.time_index.specs.Doubles.{has_image_at, is_twin_in, is_twin};

use crate::channels::Channel;
use crate::spot::Spot;
use channel_globs::Nslc;
use mseed_header::Row;
use std::collections::{BTreeMap, BTreeSet};

// Whether the row at a place has these bytes.
fn has_image_at(rows: &[Row], place: usize, image: &[u8]) -> bool
    ensures { result ≡ has_image_at rows.now image.now place }
{
    match rows.get(place) {
        Some(row) => row.image.as_slice() == image,
        None => false,
    }
}

// Whether a row has these bytes, of those before a spot with its start and its fingerprint.
fn is_twin_in(rows: &[Row], spots: &BTreeSet<Spot>, spot: Spot, image: &[u8]) -> bool
    ensures { result ≡ is_twin_in rows.now image.now spot spots.now }
{
    let first = Spot {
        start: spot.start,
        fingerprint: spot.fingerprint,
        place: 0,
    };
    spots
        .range(&first..&spot)
        .any(|other| has_image_at(rows, other.place, image))
}

/// Whether a row of that name has these bytes, of those before a spot with its start and its fingerprint.
pub fn is_twin(
    rows: &[Row],
    channels: &BTreeMap<Nslc, Channel>,
    name: &Nslc,
    spot: Spot,
    image: &[u8],
) -> bool
    ensures { result ≡ is_twin rows.now image.now spot (get name_cmp channels.now name.now) }
{
    match channels.get(name) {
        Some(channel) => is_twin_in(rows, &channel.spots, spot, image),
        None => false,
    }
}
