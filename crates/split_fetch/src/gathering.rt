//! The records of the answers for windows that adjoin, put together.
ghost use Rattle.std.specs.Prelude.{◌≡◌, ◌≤◌, ◌^◌, [], false, length, MatchResult};
ghost use Rattle.split_fetch.specs.Everything.{AsksAll};
ghost use Rattle.split_fetch.specs.Gathering.{EntriesRise, IsNumbered, AreBytes, RefusesRows, IsGathered, GatherRefuses};
ghost use Rattle.split_fetch.specs.Windows.{Adjoin, windows_of};

use crate::answer::WindowAnswer;
use crate::everything::everything;
use crate::fault::GatherFault;
use crate::fronts::first_move;
use crate::numbering::arrived;
use dataselect::{All, DataQuery, DataRefusal, Shelf, answer};
use exact_time::{Bytes, Many};
use mseed_header::Row;
use std::alloc::Global;
use time_index::TimeIndex;

// The records of the rows without doubles, in order, by a shelf that is empty and a query for every record.
fn gather_on<S: Shelf + Drop>(
    alloc: Global,
    shelf: S,
    everything: &DataQuery,
    rows: Many<Row>,
) -> Result<Bytes, GatherFault>
    requires empty { S.rows shelf ≡ [] }
    requires few { length rows ≤ 2 ^ 32 }
    requires rising { EntriesRise rows }
    requires all { AsksAll everything.now }
    requires minimum { everything.now.minimum ≡ 0 }
    requires longest { everything.now.longest ≡ false }
    ensures { MatchResult result (AreBytes rows) (RefusesRows rows) }
{
    let mut shelf = shelf;
    shelf.insert_all(rows)?;
    match answer(alloc, &shelf, &All, everything, 268_435_456) {
        Ok(bytes) => Ok(bytes),
        Err(DataRefusal::Empty) => Ok(Bytes::new(alloc)),
        Err(DataRefusal::TooLarge(bytes)) => Err(GatherFault::TooLarge(bytes)),
        Err(DataRefusal::OutOfMemory) => Err(GatherFault::OutOfMemory),
    }
}

/// The records of the rows without doubles, in order. More rows than a shelf can hold are want of memory.
#[tactic(auto, using(crate::proofs::EveryRecord::asks_all))]
pub(crate) fn gather_rows(alloc: Global, rows: Many<Row>) -> Result<Bytes, GatherFault>
    requires { IsNumbered rows }
    ensures { MatchResult result (AreBytes rows) (RefusesRows rows) }
{
    if rows.len() > 4_294_967_296 {
        return Err(GatherFault::OutOfMemory);
    }
    let everything = everything(alloc)?;
    gather_on(alloc, TimeIndex::new(alloc), &everything, rows)
}

/// The records of all answers without doubles, by name, quality letter and start; where these are equal, in the order
/// of their first arrival. No records are no bytes.
///
/// The windows adjoin. Where the fronts of two neighbours differ the fault is `Moved`, whatever else holds; else, where
/// the records have more than 268,435,456 bytes, it is `TooLarge`. More than 2^32 records with their doubles are want of
/// memory. Costs the records times their logarithm, and copies each record that is kept once, into the answer.
#[tactic(auto, using(crate::proofs::Carried::gathered_of))]
pub fn gather_owned(alloc: Global, answers: Many<WindowAnswer>) -> Result<Bytes, GatherFault>
    requires adjoining { Adjoin (windows_of answers) }
    ensures { MatchResult result (IsGathered answers) (GatherRefuses answers) }
{
    if let Some((a, b)) = first_move(answers.as_slice()) {
        return Err(GatherFault::Moved(a, b));
    }
    let rows = arrived(alloc, answers)?;
    gather_rows(alloc, rows)
}
