//! Headers and batches of records, and shelves of their rows.
ghost use Rattle.std.specs.Prelude.{◌==◌, ◌%◌, false};

use case_lines::escaped;
use channel_globs::Nslc;
use dataselect::{All, PlainShelf, Shelf, Sight, answer};
use exact_time::{Bytes, Many, Moment, OutOfMemory, cmp_sample_time};
use mseed_header::{Row, count_records, cut_records, last, next, read_header};
use query_words::data_post;
use std::alloc::Global;

// 2024-02-01T00:00:00
const MIDNIGHT: i64 = 1_706_745_600_000_000;

/// What a record's header says: the codes, the quality, the start in microseconds behind 2024-02-01, the number of samples, the
/// rate, the length and the byte order; or why it is refused.
pub fn header_of(alloc: Global, record: &[u8]) -> Result<String, OutOfMemory> {
    let header = match read_header(record) {
        Ok(header) => header,
        Err(fault) => return Ok(format!(in alloc; "{fault:?}")?),
    };
    let network = escaped(alloc, header.name.network.as_slice())?;
    let station = escaped(alloc, header.name.station.as_slice())?;
    let location = escaped(alloc, header.name.location.as_slice())?;
    let channel = escaped(alloc, header.name.channel.as_slice())?;
    let quality = header.quality;
    let start = header.start.micros.saturating_sub(MIDNIGHT);
    let samples = header.samples;
    let (num, den) = (header.rate.num, header.rate.den);
    let length = header.length;
    let order = if header.little { "little" } else { "big" };
    Ok(format!(in alloc;
        "{network}.{station}.{location}.{channel} {quality:?} {start} {samples} at {num}/{den} {length} {order}"
    )?)
}

/// How the last sample of a record, or the one that would be next, stands to a time in microseconds behind 2024-02-01.
pub fn sample_at(
    alloc: Global,
    which: &str,
    micros: &str,
    record: &[u8],
) -> Result<String, OutOfMemory> {
    let Ok(header) = read_header(record) else {
        return Ok(String::from_str(alloc, "no record")?);
    };
    let micros: i64 = micros.parse().unwrap_or(0);
    let moment = Moment {
        micros: MIDNIGHT.saturating_add(micros),
    };
    let time = if which == "last" {
        last(&header)
    } else {
        next(&header)
    };
    let order = cmp_sample_time(time, moment);
    Ok(format!(in alloc; "{order:?}")?)
}

/// How many records stand in the bytes, or where one is refused and why.
pub fn count_of(alloc: Global, batch: &[u8]) -> Result<String, OutOfMemory> {
    match count_records(batch) {
        Ok(count) => Ok(format!(in alloc; "{count}")?),
        Err((at, fault)) => Ok(format!(in alloc; "at {at}: {fault:?}")?),
    }
}

// The rows of a batch of entry 7 at 5 microseconds past 1970; none where a record is refused.
fn cut(alloc: Global, batch: &[u8]) -> Result<Many<Row>, OutOfMemory> {
    if batch.len() > 1_000_000 {
        return Ok(Many::new(alloc));
    }
    match cut_records(alloc, batch, 7, Moment { micros: 5 }) {
        Ok(rows) => Ok(rows),
        Err(_) => Ok(Many::new(alloc)),
    }
}

/// Of each row of a batch its entry, place and moment, its start in microseconds behind 2024-02-01, and whether its image is that
/// part of the batch; or why the batch is refused.
pub fn rows_of(alloc: Global, batch: &[u8]) -> Result<String, OutOfMemory> {
    let mut text = String::new(alloc);
    if batch.len() > 1_000_000 {
        return Ok(text);
    }
    if let Err(fault) = cut_records(alloc, batch, 7, Moment { micros: 5 }) {
        return Ok(format!(in alloc; "{fault:?}")?);
    }
    let rows = cut(alloc, batch)?;
    let mut rest = batch;
    'rows: for row in rows.as_slice() {
        let (entry, place, moment) = (row.entry, row.place, row.moment.micros);
        let start = row.header.start.micros.saturating_sub(MIDNIGHT);
        let image = row.image.as_slice();
        let is_part = rest.starts_with(image);
        rest = rest.get(image.len()..).unwrap_or(&[]);
        let between = if text.is_empty() { "" } else { "; " };
        write!(text, "{between}{entry} {place} {moment} {start} {is_part}")?;
    }
    Ok(text)
}

// Sees the rows with an even place.
struct Even;

impl Sight for Even {
    ghost seen = { λ _ row. (row.place % 2) == 0 };

    ghost touched = { λ _ _. false };

    fn sees(&self, row: &Row) -> bool {
        row.place % 2 == 0
    }

    fn restricted(&self, _row: &Row) -> bool {
        false
    }

    fn whole(&self, _name: &Nslc) -> bool {
        false
    }
}

// Puts the rows of a batch on a shelf, and says what became of each.
fn fill<S: Shelf>(
    alloc: Global,
    shelf: &mut S,
    batch: &[u8],
    text: &mut String,
) -> Result<(), OutOfMemory> {
    'rows: for row in cut(alloc, batch)?.into_vec() {
        if shelf.len() < 1000 {
            let inserted = shelf.insert(row)?;
            write!(text, "{inserted:?} ")?;
        }
    }
    Ok(())
}

/// What becomes of each row of a batch on a new shelf, and how many are there then.
pub fn inserted(alloc: Global, batch: &[u8]) -> Result<String, OutOfMemory> {
    let mut text = String::new(alloc);
    let mut shelf = PlainShelf::new(alloc);
    fill(alloc, &mut shelf, batch, &mut text)?;
    let count = shelf.len();
    write!(text, "{count}")?;
    Ok(text)
}

// The places of the rows of a shelf that a query chooses.
fn places<V: Sight>(
    alloc: Global,
    shelf: &PlainShelf,
    sight: &V,
    query: &[u8],
) -> Result<String, OutOfMemory> {
    let Ok(query) = data_post(alloc, query) else {
        return Ok(String::from_str(alloc, "no query")?);
    };
    let mut text = String::new(alloc);
    let places = shelf.choose(sight, &query)?;
    'places: for place in places.as_slice() {
        let between = if text.is_empty() { "" } else { " " };
        write!(text, "{between}{place}")?;
    }
    Ok(text)
}

/// The places that a query's lines choose, of all rows of a batch, or of those with an even place.
pub fn chosen(
    alloc: Global,
    sight: &str,
    query: &[u8],
    batch: &[u8],
) -> Result<String, OutOfMemory> {
    let mut told = String::new(alloc);
    let mut shelf = PlainShelf::new(alloc);
    fill(alloc, &mut shelf, batch, &mut told)?;
    if sight == "even" {
        places(alloc, &shelf, &Even, query)
    } else {
        places(alloc, &shelf, &All, query)
    }
}

/// The records of a batch that a query's lines choose, at most so many bytes of them, or why there are none.
pub fn answered(
    alloc: Global,
    limit: &str,
    query: &[u8],
    batch: &[u8],
) -> Result<Bytes, OutOfMemory> {
    let mut told = String::new(alloc);
    let mut shelf = PlainShelf::new(alloc);
    fill(alloc, &mut shelf, batch, &mut told)?;
    let mut body = Bytes::new(alloc);
    let Ok(query) = data_post(alloc, query) else {
        return Ok(body);
    };
    match answer(alloc, &shelf, &All, &query, limit.parse().unwrap_or(0)) {
        Ok(body) => Ok(body),
        Err(refusal) => {
            body.extend(format!(in alloc; "{refusal:?}")?.as_bytes())?;
            Ok(body)
        }
    }
}
