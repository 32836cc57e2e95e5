//! Two shelves of the same rows, a plain one and one with an index: they answer alike.
ghost use Rattle.std.specs.Prelude.{◌==◌, ◌%◌, false};

use crate::names::{number, told, word};
use crate::queries::selection_of;
use channel_globs::{Code, Nslc};
use dataselect::{All, DataQuery, Inserted, PlainShelf, Shelf, Sight, Span};
use exact_time::{Bytes, Many, Moment, OutOfMemory, SampleTime, cmp_sample_time};
use mseed_header::{Row, cut_records};
use std::alloc::Global;
use time_index::IndexedShelf;

/// The two shelves.
#[derive(Drop)]
pub struct Shelves {
    pub plain: PlainShelf,
    pub indexed: IndexedShelf,
}

impl Shelves {
    pub fn new(alloc: Global) -> Shelves {
        Shelves {
            plain: PlainShelf::new(alloc),
            indexed: IndexedShelf::new(alloc),
        }
    }
}

// Sees the rows with an even place.
struct Even;

impl Sight for Even {
    ghost seen = { λ _ row. (row.place % 2) == 0 };

    ghost touched = { λ _ _. false };

    fn sees(&self, row: &Row) -> bool {
        row.place % 2 == 0
    }

    fn restricted(&self, _row: &Row) -> bool {
        false
    }

    fn whole(&self, _name: &Nslc) -> bool {
        false
    }
}

type Shown = Result<String, OutOfMemory>;

// What both shelves say: once where it is the same.
pub fn both(alloc: Global, plain: Shown, indexed: Shown) -> Shown {
    let plain = plain?;
    let indexed = indexed?;
    if plain.as_str() == indexed.as_str() {
        return Ok(plain);
    }
    Ok(format!(in alloc; "{plain} / {indexed}")?)
}

// That both say the same, or what they say.
fn alike(alloc: Global, plain: Shown, indexed: Shown) -> Shown {
    let plain = plain?;
    let indexed = indexed?;
    Ok(if plain.as_str() == indexed.as_str() {
        String::from_str(alloc, "alike")?
    } else {
        format!(in alloc; "{plain} / {indexed}")?
    })
}

// The rows of a batch, of an entry that came 5 microseconds after the start of 1970.
fn rows(alloc: Global, words: &[Bytes]) -> Result<Many<Row>, OutOfMemory> {
    let batch = word(words, 2);
    if batch.len() > 1_000_000 {
        return Ok(Many::new(alloc));
    }
    match cut_records(alloc, batch, number(words, 1), Moment { micros: 5 }) {
        Ok(rows) => Ok(rows),
        Err(_) => Ok(Many::new(alloc)),
    }
}

// Puts rows in one after another, and says what became of each.
fn insert<S: Shelf>(alloc: Global, shelf: &mut S, rows: Many<Row>) -> Shown {
    let mut shown = String::new(alloc);
    'rows: for row in rows.into_vec() {
        if shelf.len() < 10_000 {
            let done = match shelf.insert(row)? {
                Inserted::New => "+",
                Inserted::Duplicate => "=",
            };
            shown.push_str(done)?;
        }
    }
    Ok(shown)
}

// Puts rows in together, and says how many there are then.
fn insert_all<S: Shelf>(alloc: Global, shelf: &mut S, rows: Many<Row>) -> Shown {
    if shelf.len() < 1000 && rows.len() < 1000 {
        shelf.insert_all(rows)?;
    }
    Ok(format!(in alloc; "{}", shelf.len())?)
}

// The bytes of each row.
fn images<S: Shelf>(alloc: Global, shelf: &S) -> Shown {
    let mut shown = String::new(alloc);
    'rows: for n in 0..shelf.len() {
        write!(shown, "{:?}", shelf.row(n).image.as_slice())?;
    }
    Ok(shown)
}

// The places that a shelf chooses.
fn choose<S: Shelf, V: Sight>(alloc: Global, shelf: &S, sight: &V, query: &DataQuery) -> Shown {
    let places = shelf.choose(sight, query)?;
    Ok(format!(in alloc; "{:?}", places.as_slice())?)
}

// The places that a shelf chooses for each query.
fn choose_each<S: Shelf, V: Sight>(
    alloc: Global,
    shelf: &S,
    sight: &V,
    queries: &[DataQuery],
) -> Shown {
    let mut shown = String::new(alloc);
    'queries: for query in queries {
        shown.push_str(choose(alloc, shelf, sight, query)?.as_str())?;
    }
    Ok(shown)
}

// What both shelves choose for the last query.
pub fn choose_both<V: Sight>(
    alloc: Global,
    shelves: &Shelves,
    sight: &V,
    queries: &[DataQuery],
) -> Shown {
    match queries.last() {
        Some(query) => both(
            alloc,
            choose(alloc, &shelves.plain, sight, query),
            choose(alloc, &shelves.indexed, sight, query),
        ),
        None => told(alloc, "no query"),
    }
}

// Whether both shelves choose alike for each query.
fn choose_alike<V: Sight>(
    alloc: Global,
    shelves: &Shelves,
    sight: &V,
    queries: &[DataQuery],
) -> Shown {
    alike(
        alloc,
        choose_each(alloc, &shelves.plain, sight, queries),
        choose_each(alloc, &shelves.indexed, sight, queries),
    )
}

// The four codes of a name, which the words from the second on are.
pub fn name_of(words: &[Bytes]) -> Option<Nslc> {
    Some(Nslc {
        network: Code::of(word(words, 1))?,
        station: Code::of(word(words, 2))?,
        location: Code::of(word(words, 3))?,
        channel: Code::of(word(words, 4))?,
    })
}

// The names that four lists match.
fn names<S: Shelf>(alloc: Global, shelf: &S, words: &[Bytes]) -> Shown {
    let mut shown = String::new(alloc);
    if let Some(selection) = selection_of(alloc, words.get(1..).unwrap_or(&[])) {
        'names: for name in shelf.names(&selection)?.as_slice() {
            'codes: for code in [name.network, name.station, name.location, name.channel] {
                shown.push_str(str::from_utf8(code.as_slice()).unwrap_or("?"))?;
                shown.push_str(".")?;
            }
            shown.push_str(" ")?;
        }
    }
    Ok(shown)
}

// The time of a sample rounded down to a microsecond, and a `+` where it is later.
fn put_time(shown: &mut String, time: SampleTime) -> Result<(), OutOfMemory> {
    let floor = time.floor();
    let sign = if cmp_sample_time(time, floor).is_eq() {
        ""
    } else {
        "+"
    };
    write!(shown, " {}{sign}", floor.micros)?;
    Ok(())
}

// What a span has in common, its start and its rows; and its ends and the moment of its last entry, where they are asked for.
fn put_span(shown: &mut String, span: &Span, ends: bool) -> Result<(), OutOfMemory> {
    let (rate, start) = (span.rate, span.start.micros);
    write!(
        shown,
        "{:?} {}/{} {start} {}",
        span.quality, rate.num, rate.den, span.rows
    )?;
    if ends {
        put_time(shown, span.next)?;
        put_time(shown, span.last)?;
        write!(shown, " {}", span.updated.micros)?;
    }
    shown.push_str(";")?;
    Ok(())
}

// The spans of a name, their ends with them where these are asked for.
fn spans<S: Shelf>(alloc: Global, shelf: &S, words: &[Bytes], ends: bool) -> Shown {
    let mut shown = String::new(alloc);
    if let Some(name) = name_of(words) {
        'spans: for span in shelf.merged_spans(&name)?.as_slice() {
            put_span(&mut shown, span, ends)?;
        }
    }
    Ok(shown)
}

// How many spans a name has.
fn span_count<S: Shelf>(alloc: Global, shelf: &S, words: &[Bytes]) -> Shown {
    let count = match name_of(words) {
        Some(name) => shelf.merged_spans(&name)?.len(),
        None => 0,
    };
    Ok(format!(in alloc; "{count}")?)
}

// The spans of a name as they stand in memory.
fn exact_spans<S: Shelf>(alloc: Global, shelf: &S, words: &[Bytes]) -> Shown {
    let mut shown = String::new(alloc);
    if let Some(name) = name_of(words) {
        for span in shelf.merged_spans(&name)?.as_slice() {
            write!(shown, "{span:?}")?;
        }
    }
    Ok(shown)
}

/// What a step gives.
pub fn given(
    alloc: Global,
    shelves: &mut Shelves,
    queries: &[DataQuery],
    words: &[Bytes],
) -> Shown {
    let Shelves { plain, indexed } = shelves;
    match word(words, 0) {
        b"new" => {
            *shelves = Shelves::new(alloc);
            told(alloc, "ok")
        }
        b"insert" => both(
            alloc,
            insert(alloc, plain, rows(alloc, words)?),
            insert(alloc, indexed, rows(alloc, words)?),
        ),
        b"batch" => both(
            alloc,
            insert_all(alloc, plain, rows(alloc, words)?),
            insert_all(alloc, indexed, rows(alloc, words)?),
        ),
        b"count" => Ok(format!(in alloc; "{} {}", plain.len(), indexed.len())?),
        b"rows" => alike(alloc, images(alloc, plain), images(alloc, indexed)),
        b"names" => both(
            alloc,
            names(alloc, plain, words),
            names(alloc, indexed, words),
        ),
        b"spans" => both(
            alloc,
            spans(alloc, plain, words, false),
            spans(alloc, indexed, words, false),
        ),
        b"ends" => both(
            alloc,
            spans(alloc, plain, words, true),
            spans(alloc, indexed, words, true),
        ),
        b"span-count" => both(
            alloc,
            span_count(alloc, plain, words),
            span_count(alloc, indexed, words),
        ),
        b"same-spans" => alike(
            alloc,
            exact_spans(alloc, plain, words),
            exact_spans(alloc, indexed, words),
        ),
        b"choose" => choose_both(alloc, shelves, &All, queries),
        b"all" => choose_alike(alloc, shelves, &All, queries),
        b"even" => choose_alike(alloc, shelves, &Even, queries),
        _ => told(alloc, "no such call"),
    }
}
