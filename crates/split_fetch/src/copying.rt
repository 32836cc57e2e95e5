//! The records of answers that are used again, copied and put together.
ghost use Rattle.std.specs.Prelude.{◌≡◌, ◌++◌, IfOk, OnOk, MatchResult};
ghost use Rattle.split_fetch.specs.Gathering.{records_of, IsNumbered, arrived, IsGathered, GatherRefuses};
ghost use Rattle.split_fetch.specs.Windows.{Adjoin, windows_of};

use crate::answer::WindowAnswer;
use crate::fault::GatherFault;
use crate::fronts::first_move;
use crate::gathering::gather_rows;
use exact_time::{Bytes, Many, OutOfMemory};
use mseed_header::Row;
use std::alloc::Global;

// A copy of the row as one of another entry.
fn copy_as(alloc: Global, row: &Row, entry: u64) -> Result<Row, OutOfMemory>
    ensures image { IfOk result (λ copy. copy.image ≡ row.now.image) }
    ensures entry { IfOk result (λ copy. copy.entry ≡ entry) }
{
    let image = row.image.copy(alloc)?;
    Ok(Row::with(row.header, image, entry, row.place, row.moment))
}

// Puts copies of rows at the end, each numbered by its place.
fn add_copies(all: &mut Many<Row>, alloc: Global, rows: &[Row]) -> Result<(), OutOfMemory>
    requires { IsNumbered all.old }
    ensures records { OnOk result (records_of all.new ≡ records_of all.old ++ records_of rows.now) }
    ensures numbered { OnOk result (IsNumbered all.new) }
{
    'rows: for row in rows {
        let entry = all.len() as u64;
        let copy = copy_as(alloc, row, entry)?;
        all.push(copy)?;
    }
    Ok(())
}

// Copies of the rows of the answers in order, numbered by their places.
fn copied(alloc: Global, answers: &[WindowAnswer]) -> Result<Many<Row>, OutOfMemory>
    ensures records { IfOk result (λ rows. records_of rows ≡ records_of (arrived answers.now)) }
    ensures numbered { IfOk result IsNumbered }
{
    let mut all = Many::new(alloc);
    'answers: for answer in answers {
        add_copies(&mut all, alloc, answer.rows.as_slice())?;
    }
    Ok(all)
}

/// As [`crate::gather_owned`], of answers that are used again: each record is copied once more on its way, but where its
/// bytes are shared.
#[tactic(auto, using(crate::proofs::Carried::gathered_of))]
pub fn gather(alloc: Global, answers: &Many<WindowAnswer>) -> Result<Bytes, GatherFault>
    requires adjoining { Adjoin (windows_of answers.now) }
    ensures { MatchResult result (IsGathered answers.now) (GatherRefuses answers.now) }
{
    if let Some((a, b)) = first_move(answers.as_slice()) {
        return Err(GatherFault::Moved(a, b));
    }
    let rows = copied(alloc, answers.as_slice())?;
    gather_rows(alloc, rows)
}
