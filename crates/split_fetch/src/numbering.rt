//! The rows of all answers in order, numbered anew by their places.
ghost use Rattle.std.specs.Prelude.{◌≡◌, ◌++◌, IfOk, OnOk};
ghost use Rattle.split_fetch.specs.Gathering.{records_of, IsNumbered, arrived};

use crate::answer::WindowAnswer;
use exact_time::{Many, OutOfMemory};
use mseed_header::Row;
use std::alloc::Global;

// The row as one of another entry.
fn renumbered(row: Row, entry: u64) -> Row
    ensures image { result.image ≡ row.image }
    ensures entry { result.entry ≡ entry }
{
    let mut row = row;
    row.entry = entry;
    row
}

// Puts rows at the end, each numbered by its place.
fn add_rows(all: &mut Many<Row>, rows: Many<Row>) -> Result<(), OutOfMemory>
    requires { IsNumbered all.old }
    ensures records { OnOk result (records_of all.new ≡ records_of all.old ++ records_of rows) }
    ensures numbered { OnOk result (IsNumbered all.new) }
{
    'rows: for row in rows.into_vec() {
        let entry = all.len() as u64;
        all.push(renumbered(row, entry))?;
    }
    Ok(())
}

/// The rows of the answers in order, numbered by their places.
pub fn arrived(alloc: Global, answers: Many<WindowAnswer>) -> Result<Many<Row>, OutOfMemory>
    ensures records { IfOk result (λ rows. records_of rows ≡ records_of (arrived answers)) }
    ensures numbered { IfOk result IsNumbered }
{
    let mut all = Many::new(alloc);
    'answers: for answer in answers.into_vec() {
        add_rows(&mut all, answer.rows)?;
    }
    Ok(all)
}
