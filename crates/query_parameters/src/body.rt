//! The lines of a body.
ghost use Rattle.std.specs.Prelude.{IfOk, IfErr};
ghost use Rattle.query_parameters.specs.BodyWords.{HasBody, RefusesLines};
ghost use Rattle.query_parameters.specs.Rows.{names_of};

use crate::fault::QueryFault;
use crate::front::read_front;
use crate::lines::{body_lines, front_len, line_count};
use crate::rows::ParameterName;
use crate::selections::read_selections;
use crate::words::ParameterValue;
use dataselect::Selection;
use exact_time::Many;
use std::alloc::Global;

// How many parameter lines a body may have.
const MOST_PARAMETERS: usize = 1000;

// How many selection lines a body may have.
const MOST_SELECTIONS: usize = 10_000;

/// What a body says: a word for each name of its table, and its selections.
#[derive(Drop)]
pub struct BodyWords {
    pub words: Vec<Option<ParameterValue>>,
    pub selections: Many<Selection>,
}

/// Reads the lines of a body by a table of names: parameter lines, and then selection lines. The first
/// wrong line decides. That no line selects is no fault here.
pub fn read_body(
    alloc: Global,
    options: &[ParameterName],
    body: &[u8],
) -> Result<BodyWords, QueryFault>
    ensures read { IfOk result (λ b. HasBody (names_of options.now) body.now b.words.items b.selections) }
    ensures refused { IfErr result (RefusesLines (names_of options.now) body.now) }
{
    if line_count(body) > MOST_PARAMETERS + MOST_SELECTIONS {
        return Err(QueryFault::TooMany);
    }
    let lines = body_lines(alloc, body)?;
    let front = front_len(&lines);
    if front > MOST_PARAMETERS || lines.len() - front > MOST_SELECTIONS {
        return Err(QueryFault::TooMany);
    }
    let words = read_front(alloc, options, &lines[..front])?;
    let selections = read_selections(alloc, &lines[front..])?;
    Ok(BodyWords { words, selections })
}
