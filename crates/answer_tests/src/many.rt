//! A hundred thousand rows of one channel.
ghost use Rattle.std.specs.Prelude.{◌+◌, ◌<◌, ◌≤◌, length};

use channel_globs::{GlobFault, Part, PatternList};
use dataselect::{All, DataQuery, Inserted, Nodata, Selection, Shelf};
use exact_time::{Many, Moment, OutOfMemory};
use mseed_header::cut_records;
use sample_data::anmo_record;
use std::alloc::Global;
use std::test::Fail;
use time_index::TimeIndex;

const ROWS: u32 = 100_000;

// 2024-02-01T00:00:00, in seconds since 1970.
const FIRST_SECOND: i64 = 1_706_745_600;

// The record with these bytes from an offset on.
fn changed(mut record: [u8; 512], at: usize, bytes: &[u8]) -> [u8; 512]
    requires { at + length bytes.now ≤ 512 }
{
    record[at..at + bytes.len()].copy_from_slice(bytes);
    record
}

// The last six digits of a number.
fn six_digits(number: u32) -> [u8; 6] {
    let mut digits = [b'0'; 6];
    let mut rest = number;
    for i in 0..6 {
        digits[5 - i] = b'0' + (rest % 10) as u8;
        rest /= 10;
    }
    digits
}

// The start of the row of that number, of which each starts five seconds after the one before it: year,
// day of the year, hour, minute and second of a header's time.
fn btime_bytes(number: u32) -> [u8; 10]
    requires { number < 100000 }
{
    let seconds = number * 5;
    let day = (32 + seconds / 86_400) as u16;
    let [high, low] = day.to_be_bytes();
    let hour = (seconds / 3600 % 24) as u8;
    let minute = (seconds / 60 % 60) as u8;
    let second = (seconds % 60) as u8;
    [0x07, 0xe8, high, low, hour, minute, second, 0, 0, 0]
}

// The row of that number.
fn record_of(number: u32) -> [u8; 512]
    requires { number < 100000 }
{
    let numbered = changed(anmo_record(), 0, &six_digits(number + 1));
    changed(numbered, 20, &btime_bytes(number))
}

// Puts the row of a number in, and says whether it is new.
fn is_put(alloc: Global, shelf: &mut TimeIndex, number: u32) -> bool
    requires { number < 100000 }
{
    let moment = Moment { micros: 5 };
    let Ok(mut rows) = cut_records(alloc, &record_of(number), number as u64, moment) else {
        return false;
    };
    match rows.pop() {
        Some(row) if shelf.len() < ROWS as usize => shelf.insert(row) == Ok(Inserted::New),
        _ => false,
    }
}

fn list(alloc: Global, text: &str, part: Part) -> Result<PatternList, GlobFault> {
    PatternList::read(alloc, text.as_bytes(), part)
}

// The rows of the channel.
fn selection(alloc: Global) -> Result<Selection, GlobFault> {
    Ok(Selection {
        network: list(alloc, "IU", Part::Network)?,
        station: list(alloc, "ANMO", Part::Station)?,
        location: list(alloc, "00", Part::Location)?,
        channel: list(alloc, "BHZ", Part::Channel)?,
        start: None,
        end: None,
    })
}

// Whether the row of a number is the one that is found a second behind its start.
fn is_found(shelf: &TimeIndex, query: &mut DataQuery, number: u32) -> bool {
    let Some(mut asked) = query.selections.pop() else {
        return false;
    };
    let second = FIRST_SECOND + number as i64 * 5 + 1;
    let moment = Some(Moment {
        micros: second * 1_000_000,
    });
    asked.start = moment;
    asked.end = moment;
    if query.selections.push(asked).is_err() {
        return false;
    }
    match shelf.choose(&All, query) {
        Ok(places) => places.as_slice() == [number as usize].as_slice(),
        Err(OutOfMemory) => false,
    }
}

#[test]
fn finds_each_of_many_rows(rt: HostRuntime) -> Result<(), Fail> {
    let mut query = DataQuery {
        selections: Many::new(rt.alloc()),
        quality: None,
        minimum: 0,
        longest: false,
        nodata: Nodata::Quiet,
    };
    query.selections.push(selection(rt.alloc())?)?;
    let mut shelf = TimeIndex::new(rt.alloc());
    for number in 0..ROWS {
        assert!(rt; is_put(rt.alloc(), &mut shelf, number), "{number}");
    }
    assert_eq!(rt; shelf.len(), 100_000);
    for number in 0..ROWS {
        assert!(rt; is_found(&shelf, &mut query, number), "{number}");
    }
    Ok(())
}
