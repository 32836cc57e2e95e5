//! What clients ask of availability.
ghost use Rattle.std.specs.Prelude.{◌≡◌, ◌+◌, ◌≤◌, length};
ghost use Rattle.query_words.specs.AvailOptions.{option_count, gaps_word, AreAvailWords, IsAvailMade};

use dataselect::{Nodata, Selection};
use exact_time::Many;
use query_parameters::{
    AvailForm, AvailOrder, Merges, ParameterValue, QualitySet, avail_form_in, avail_order_in,
    merges_in, minimum_in, nodata_in, qualities_in, whole_in,
};

/// A method of availability (fdsnws-availability 1.0): the spans of records, or the extents that these have.
#[derive(Clone, Copy, Debug, PartialEq, Eq)]
pub enum AvailMethod {
    /// `query`.
    Spans,
    /// `extent`.
    Extent,
}

/// A query for spans or extents (fdsnws-availability 1.0).
#[derive(Debug, Drop)]
pub struct AvailQuery {
    pub selections: Many<Selection>,
    pub qualities: QualitySet,
    /// Whether records of several rates make one span.
    pub merge_rate: bool,
    /// Whether records of several qualities do.
    pub merge_quality: bool,
    /// Whether records that overlap do.
    pub merge_overlap: bool,
    /// How many microseconds may be missing within a span.
    pub gaps: u64,
    pub order: AvailOrder,
    /// How many lines at most, from 1.
    pub limit: Option<u64>,
    pub form: AvailForm,
    /// What to say where there is nothing.
    pub nodata: Nodata,
}

/// The options of a query for spans or extents.
#[derive(Clone, Copy, Debug)]
pub struct AvailChoices {
    pub nodata: Nodata,
    pub qualities: QualitySet,
    pub merges: Merges,
    pub order: AvailOrder,
    pub limit: Option<u64>,
    pub form: AvailForm,
    pub gaps: u64,
}

// The gaps of the last option, which extents don't have.
fn gaps_in(method: AvailMethod, words: &[Option<ParameterValue>], place: usize) -> u64
    requires { place + option_count method ≤ length words.now + 8 }
    ensures { result ≡ gaps_word method words.now place }
{
    match method {
        AvailMethod::Spans => minimum_in(&words[place]),
        AvailMethod::Extent => 0,
    }
}

/// The options of the words from that place on.
pub fn avail_choices_in(
    method: AvailMethod,
    words: &[Option<ParameterValue>],
    first: usize,
) -> AvailChoices
    requires { first + option_count method ≤ length words.now }
    ensures { AreAvailWords method words.now first result }
{
    AvailChoices {
        nodata: nodata_in(&words[first]),
        qualities: qualities_in(&words[first + 1]),
        merges: merges_in(&words[first + 2]),
        order: avail_order_in(&words[first + 3]),
        limit: whole_in(&words[first + 4]),
        form: avail_form_in(&words[first + 5]),
        gaps: gaps_in(method, words, first + 8),
    }
}

/// The query of some selections, with these options.
pub fn avail_query_of(selections: Many<Selection>, choices: AvailChoices) -> AvailQuery
    ensures { IsAvailMade selections choices result }
{
    AvailQuery {
        selections,
        qualities: choices.qualities,
        merge_rate: choices.merges.rate,
        merge_quality: choices.merges.quality,
        merge_overlap: choices.merges.overlap,
        gaps: choices.gaps,
        order: choices.order,
        limit: choices.limit,
        form: choices.form,
        nodata: choices.nodata,
    }
}
