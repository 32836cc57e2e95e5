//! The body of a waveform answer.
ghost use Rattle.std.specs.Prelude.{◌≡◌, ℕ, ◌+◌, ◌^◌, ◌<◌, ◌≤◌, length, IfOk, IfErr, Ok};
ghost use Rattle.std.specs.List.{AllByRecursion};
ghost use Rattle.dataselect.specs.DataBody.{answer_of, images_at, RefusesAs};

use crate::query::DataQuery;
use crate::shelf::Shelf;
use crate::sight::Sight;
use exact_time::{Bytes, Many, OutOfMemory};
use mseed_header::Row;
use std::alloc::Global;
use std::error::Error;
use std::fmt;

/// Why there is no data body, in the order of the tests.
#[derive(Clone, Copy, Debug, PartialEq, Eq)]
pub enum DataRefusal {
    /// No row is picked.
    Empty,
    /// The picked rows have this many bytes, more than the limit.
    TooLarge(u64),
    OutOfMemory,
}

impl fmt::Display for DataRefusal {
    fn fmt<W: fmt::Write>(&self, f: &mut fmt::Formatter<W>) -> fmt::Result {
        match self {
            DataRefusal::Empty => f.write_str("no data"),
            DataRefusal::TooLarge(bytes) => write!(f, "{bytes} bytes are too many"),
            DataRefusal::OutOfMemory => f.write_str("out of memory"),
        }
    }
}

impl Error for DataRefusal {}

impl From<OutOfMemory> for DataRefusal {
    ghost use Rattle.dataselect.specs.declared.answers.DataRefusal.TheVariants.{OutOfMemory as NoMemory};

    ghost from_gives = { λ _ e. e ≡ NoMemory };

    fn from(_error: OutOfMemory) -> DataRefusal {
        DataRefusal::OutOfMemory
    }
}

// How many bytes a row has.
fn size_of_row(row: &Row) -> u64
    ensures value { result ≡ length row.now.image }
    ensures bound { result ≤ 65_536 }
{
    row.image.len() as u64
}

// How many bytes the rows at these places have together.
fn total_size<S: Shelf>(shelf: &S, places: &[usize]) -> u64
    requires inside { AllByRecursion (λ i. i < length (S.rows shelf.now)) places.now }
    requires few { length places.now ≤ 2 ^ 32 }
    ensures { result ≡ length (images_at (S.rows shelf.now) places.now) }
{
    let mut total = 0;
    'places: for place in places {
        total += size_of_row(shelf.row(*place));
    }
    total
}

// The bytes of the rows at these places, one after another.
fn body<S: Shelf>(alloc: Global, shelf: &S, places: &[usize]) -> Result<Bytes, OutOfMemory>
    requires { AllByRecursion (λ i. i < length (S.rows shelf.now)) places.now }
    ensures { IfOk result (λ body. body ≡ images_at (S.rows shelf.now) places.now) }
{
    let mut body = Bytes::new(alloc);
    'places: for place in places {
        body.extend(shelf.row(*place).image.as_slice())?;
    }
    Ok(body)
}

/// The places of the picked records, whose bytes one after another are the data body: Empty where none is
/// picked, TooLarge where they have more than `max_bytes` bytes.
pub fn answer_places<S: Shelf, V: Sight>(
    shelf: &S,
    sight: &V,
    query: &DataQuery,
    max_bytes: u64,
) -> Result<Many<usize>, DataRefusal>
    ensures inside { IfOk result (λ places. AllByRecursion (λ i. i < length (S.rows shelf.now)) places) }
    ensures body { IfOk result (λ places. answer_of (V.seen sight.now) query.now max_bytes (S.rows shelf.now) ≡ Ok (images_at (S.rows shelf.now) places)) }
    ensures refused { IfErr result (RefusesAs (answer_of (V.seen sight.now) query.now max_bytes (S.rows shelf.now))) }
{
    let places = shelf.choose(sight, query)?;
    if places.is_empty() {
        return Err(DataRefusal::Empty);
    }
    let total = total_size(shelf, places.as_slice());
    if total > max_bytes {
        return Err(DataRefusal::TooLarge(total));
    }
    Ok(places)
}

/// The picked records, one after another: Empty where none is picked, TooLarge where they have more
/// than `max_bytes` bytes.
pub fn answer<S: Shelf, V: Sight>(
    alloc: Global,
    shelf: &S,
    sight: &V,
    query: &DataQuery,
    max_bytes: u64,
) -> Result<Bytes, DataRefusal>
    ensures body { IfOk result (λ body. answer_of (V.seen sight.now) query.now max_bytes (S.rows shelf.now) ≡ Ok body) }
    ensures refused { IfErr result (RefusesAs (answer_of (V.seen sight.now) query.now max_bytes (S.rows shelf.now))) }
{
    let places = answer_places(shelf, sight, query, max_bytes)?;
    Ok(body(alloc, shelf, places.as_slice())?)
}
