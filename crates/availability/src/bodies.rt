//! The text that a query for availability is answered with.
ghost use Rattle.std.specs.Prelude.{◌≡◌, IfOk, IfErr, Ok};
ghost use Rattle.line_columns.specs.Answers.{RefusesTextAs};
ghost use Rattle.query_words.specs.declared.avail.AvailMethod.TheVariants.{Spans, Extent};
ghost use Rattle.availability.specs.Spans.{spans_of};
ghost use Rattle.availability.specs.Texts.{answer_of};

use crate::channels::channels;
use crate::texts::body;
use dataselect::{Shelf, Sight};
use exact_time::{Text, TextRefusal};
use query_words::{AvailMethod, AvailQuery};
use std::alloc::Global;

/// The time spans that are asked for (fdsnws-availability 1.0, query), in text or as selection lines: spans of
/// the rows that are seen and have a quality that is asked for, kept and clipped by each selection, in the
/// order asked for, each line once and at most `limit`. Empty where there is no line; TooLarge where there are
/// more lines than `max_lines`, the header line not counted.
pub fn spans_body<S: Shelf, V: Sight>(
    alloc: Global,
    shelf: &S,
    sight: &V,
    query: &AvailQuery,
    max_lines: u64,
) -> Result<Text, TextRefusal>
    ensures text { IfOk result (λ text. answer_of Spans query.now max_lines (spans_of (V.seen sight.now) (V.touched sight.now) query.now (S.rows shelf.now)) ≡ Ok text) }
    ensures refused { IfErr result (RefusesTextAs (answer_of Spans query.now max_lines (spans_of (V.seen sight.now) (V.touched sight.now) query.now (S.rows shelf.now)))) }
{
    let channels = channels(alloc, shelf, sight, query)?;
    body(
        alloc,
        AvailMethod::Spans,
        query,
        channels.as_slice(),
        max_lines,
    )
}

/// The extents that are asked for (fdsnws-availability 1.0, extent): as [`spans_body`], with one line for what
/// each selection keeps of a channel, quality and rate, of those that aren't merged.
pub fn extent_body<S: Shelf, V: Sight>(
    alloc: Global,
    shelf: &S,
    sight: &V,
    query: &AvailQuery,
    max_lines: u64,
) -> Result<Text, TextRefusal>
    ensures text { IfOk result (λ text. answer_of Extent query.now max_lines (spans_of (V.seen sight.now) (V.touched sight.now) query.now (S.rows shelf.now)) ≡ Ok text) }
    ensures refused { IfErr result (RefusesTextAs (answer_of Extent query.now max_lines (spans_of (V.seen sight.now) (V.touched sight.now) query.now (S.rows shelf.now)))) }
{
    let channels = channels(alloc, shelf, sight, query)?;
    body(
        alloc,
        AvailMethod::Extent,
        query,
        channels.as_slice(),
        max_lines,
    )
}
