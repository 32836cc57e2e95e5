//! What a shelf of rows is, however it is kept.
ghost use Rattle.std.specs.Prelude.{◌≡◌, ℕ, ◌+◌, ◌^◌, ◌<◌, ◌≤◌, List, length, map, IfOk, OnOk, OnErr, Some};
ghost use Rattle.std.specs.List.{slice_get};
ghost use Rattle.mseed_header.specs.declared.row.Row.{Row};
ghost use Rattle.dataselect.specs.HeldNames.{names_of};
ghost use Rattle.dataselect.specs.MergedSpans.{value_of, merged_spans_of};
ghost use Rattle.dataselect.specs.Picked.{picked_places};
ghost use Rattle.dataselect.specs.Places.{places_named};
ghost use Rattle.dataselect.specs.Rows.{inserted_as, with_row, with_rows};

use crate::query::{DataQuery, Selection};
use crate::sight::Sight;
use crate::span::Span;
use channel_globs::Nslc;
use exact_time::{Many, OutOfMemory};
use mseed_header::Row;

/// What became of a row that was inserted.
#[derive(Clone, Copy, Debug, PartialEq, Eq)]
pub enum Inserted {
    /// The row was put at the end.
    New,
    /// An earlier row has the same bytes; nothing changed.
    Duplicate,
}

/// Rows without doubles, at most 2^32 of them.
pub trait Shelf {
    /// The rows in order of insertion.
    ghost rows: { Self → List Row };

    /// How many rows there are.
    fn len(&self) -> usize
        ensures { result ≡ length (rows self.now) };

    /// The row at a place, counted from 0.
    fn row(&self, i: usize) -> &Row
        requires { i < length (rows self.now) }
        ensures { slice_get (rows self.now) i ≡ Some result.now };

    /// Puts a row at the end, unless an earlier row has its bytes.
    fn insert(&mut self, row: Row) -> Result<Inserted, OutOfMemory>
        requires { length (rows self.old) < 2 ^ 32 }
        ensures answer { IfOk result (λ answer. answer ≡ inserted_as (rows self.old) row) }
        ensures ok { OnOk result (rows self.new ≡ with_row (rows self.old) row) }
        ensures err { OnErr result (rows self.new ≡ rows self.old) };

    /// Puts rows at the end in order, each unless an earlier row has its bytes: all of them, or none where
    /// memory runs out.
    fn insert_all(&mut self, more: Many<Row>) -> Result<(), OutOfMemory>
        requires { length (rows self.old) + length more ≤ 2 ^ 32 }
        ensures ok { OnOk result (rows self.new ≡ with_rows (rows self.old) more) }
        ensures err { OnErr result (rows self.new ≡ rows self.old) };

    /// The places of the picked rows, in order: the chosen rows of the segments that the query asks for.
    fn choose<V: Sight>(&self, sight: &V, query: &DataQuery) -> Result<Many<usize>, OutOfMemory>
        ensures { IfOk result (λ places. places ≡ picked_places (V.seen sight.now) query.now (rows self.now)) };

    /// The names of rows that the selection's four codes match, ascending, each once. Its window counts for
    /// nothing.
    fn names(&self, selection: &Selection) -> Result<Many<Nslc>, OutOfMemory>
        ensures { IfOk result (λ names. names ≡ names_of selection.now (rows self.now)) };

    /// The places of the rows of a name, ascending.
    fn places_named(&self, name: &Nslc) -> Result<Many<usize>, OutOfMemory>
        ensures { IfOk result (λ places. places ≡ places_named name.now (rows self.now)) };

    /// The spans of all rows of a name, each quality and rate by itself, in order of quality letter, rate and
    /// start. A row joins where it starts up to half a sample period behind what an earlier one reaches.
    fn merged_spans(&self, name: &Nslc) -> Result<Many<Span>, OutOfMemory>
        ensures { IfOk result (λ spans. map value_of spans ≡ merged_spans_of name.now (rows self.now)) };

    /// No shelf holds more rows.
    ghost few: { (shelf : Self) → length (rows shelf) ≤ 2 ^ 32 };
}
