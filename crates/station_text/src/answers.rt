//! The text that a query for stations is answered with.
ghost use Rattle.std.specs.Prelude.{◌≡◌, IfOk, IfErr, Ok};
ghost use Rattle.line_columns.specs.Answers.{RefusesTextAs};
ghost use Rattle.station_text.specs.Answers.{text_answer_of};

use crate::found::asked_lines;
use crate::lines::answer_text;
use epoch_catalog::Catalog;
use exact_time::{Text, TextRefusal};
use query_words::StationQuery;
use std::alloc::Global;

/// The text that a query is answered with (FDSN Web Service Specifications 1.2, station, format=text): a
/// header line, and a line for each live epoch of the asked level that is asked for, in the order of codes
/// and start. Columns are separated by `|`, and a line ends with a line feed. Empty where no line is asked
/// for; TooLarge where more lines are than `max_lines`, the header line not counted.
pub fn answer(
    alloc: Global,
    catalog: &Catalog,
    query: &StationQuery,
    max_lines: u64,
) -> Result<Text, TextRefusal>
    ensures text { IfOk result (λ text. text_answer_of query.now max_lines catalog.now ≡ Ok text) }
    ensures refused { IfErr result (RefusesTextAs (text_answer_of query.now max_lines catalog.now)) }
{
    let asked = asked_lines(alloc, catalog, query)?;
    if asked.is_empty() {
        return Err(TextRefusal::Empty);
    }
    let lines = asked.len() as u64;
    if lines > max_lines {
        return Err(TextRefusal::TooLarge(lines));
    }
    Ok(answer_text(alloc, catalog, query.level, asked.as_slice())?)
}
