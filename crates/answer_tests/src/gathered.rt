//! Answers for windows that adjoin, put together.
ghost use Rattle.std.specs.Prelude.{◌≡◌, ◌≤◌, IfOk};
ghost use Rattle.split_fetch.specs.Windows.{Adjoin, IsWindow, IsNext, windows_of};

use exact_time::{Bytes, Many, Moment, OutOfMemory};
use mseed_header::{CutFault, Row, cut_records};
use sample_data::anmo_record;
use split_fetch::{GatherFault, Window, WindowAnswer, gather, gather_owned};
use std::alloc::Global;
use std::test::Fail;

/// Five seconds of the channel from a second of 2024-02-01 on, as the record of that number.
pub fn record(number: u8, second: u8) -> [u8; 512]
    requires { number ≤ 9 }
{
    let mut record = anmo_record();
    record[5] = b'0' + number;
    record[26] = second;
    record
}

/// The bytes of records, one after another.
pub fn end_to_end(alloc: Global, records: &[[u8; 512]]) -> Result<Bytes, OutOfMemory> {
    let mut bytes = Bytes::new(alloc);
    'records: for record in records {
        bytes.extend(record)?;
    }
    Ok(bytes)
}

// The rows of a few records.
fn rows_of(alloc: Global, records: &[u8]) -> Result<Many<Row>, CutFault> {
    if records.len() > 4096 {
        return Err(CutFault::OutOfMemory);
    }
    cut_records(alloc, records, 5, Moment { micros: 5 })
}

// What was answered for the window from one microsecond since 1970 to another. Whether its records lie in it isn't asked.
fn answer(
    alloc: Global,
    start: i64,
    end: i64,
    front: u64,
    records: &[[u8; 512]],
) -> Result<WindowAnswer, CutFault>
    ensures { IfOk result (λ answer. answer.window ≡ record { start = record { micros = start }; end = record { micros = end } }) }
{
    let bytes = end_to_end(alloc, records)?;
    let rows = rows_of(alloc, bytes.as_slice())?;
    Ok(WindowAnswer {
        window: Window {
            start: Moment { micros: start },
            end: Moment { micros: end },
        },
        front,
        rows,
    })
}

// Three answers for windows that adjoin.
fn three(
    alloc: Global,
    first: WindowAnswer,
    second: WindowAnswer,
    third: WindowAnswer,
) -> Result<Many<WindowAnswer>, OutOfMemory>
    requires first { IsWindow first.window }
    requires second { IsWindow second.window }
    requires third { IsWindow third.window }
    requires then { IsNext first.window second.window }
    requires last { IsNext second.window third.window }
    ensures { IfOk result (λ answers. Adjoin (windows_of answers)) }
{
    let mut answers = Many::new(alloc);
    answers.push(first)?;
    answers.push(second)?;
    answers.push(third)?;
    Ok(answers)
}

// Whether these bytes are these records.
fn are(alloc: Global, bytes: &Bytes, records: &[[u8; 512]]) -> Result<bool, OutOfMemory> {
    Ok(bytes.as_slice() == end_to_end(alloc, records)?.as_slice())
}

#[test]
fn gathers_what_spans_windows_once(rt: HostRuntime) -> Result<(), Fail> {
    let alloc = rt.alloc();
    let early = record(1, 0);
    let late = record(2, 5);
    let first = answer(alloc, 0, 999_999, 4, &[early])?;
    let second = answer(alloc, 1_000_000, 1_999_999, 4, &[early])?;
    let third = answer(alloc, 2_000_000, 9_999_999, 4, &[early, late])?;
    let answers = three(alloc, first, second, third)?;
    let lent = gather(alloc, &answers)?;
    let owned = gather_owned(alloc, answers)?;
    assert!(rt; are(alloc, &lent, &[early, late])?);
    assert!(rt; are(alloc, &owned, &[early, late])?);
    Ok(())
}

// A window of fifteen seconds whose halves were answered with 1,024 bytes each: the record of the middle is in both.
#[test]
fn makes_three_records_of_two_halves(rt: HostRuntime) -> Result<(), Fail> {
    let alloc = rt.alloc();
    let records = [record(1, 0), record(2, 5), record(3, 10)];
    let first = answer(alloc, 0, 7_500_000, 4, &records[..2])?;
    let second = answer(alloc, 7_500_001, 15_000_000, 4, &records[1..])?;
    let third = answer(alloc, 15_000_001, 15_000_001, 4, &[])?;
    let bytes = gather_owned(alloc, three(alloc, first, second, third)?)?;
    assert_eq!(rt; bytes.len(), 1536);
    assert!(rt; are(alloc, &bytes, &records)?);
    Ok(())
}

#[test]
fn keeps_ties_as_they_came(rt: HostRuntime) -> Result<(), Fail> {
    let alloc = rt.alloc();
    let one = record(1, 0);
    let two = record(2, 0);
    let later = record(3, 9);
    let first = answer(alloc, 3, 3, 4, &[later, two])?;
    let second = answer(alloc, 4, 4, 4, &[two, one])?;
    let third = answer(alloc, 5, 9, 4, &[])?;
    let answers = three(alloc, first, second, third)?;
    let lent = gather(alloc, &answers)?;
    let owned = gather_owned(alloc, answers)?;
    assert!(rt; are(alloc, &lent, &[two, one, later])?);
    assert!(rt; are(alloc, &owned, &[two, one, later])?);
    Ok(())
}

#[test]
fn tells_the_first_move(rt: HostRuntime) -> Result<(), Fail> {
    let alloc = rt.alloc();
    let first = answer(alloc, 3, 3, 4, &[])?;
    let second = answer(alloc, 4, 4, 5, &[])?;
    let third = answer(alloc, 5, 9, 6, &[])?;
    let answers = three(alloc, first, second, third)?;
    assert_eq!(rt;
        gather(alloc, &answers).err(),
        Some(GatherFault::Moved(4, 5))
    );
    Ok(())
}
