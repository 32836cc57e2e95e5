//! The query for spans or extents of a query string, and of a body.
ghost use Rattle.std.specs.Prelude.{◌⊎◌, ◌≤◌, [], length, IfOk, IfErr, IsErrOf};
ghost use Rattle.list_laws.specs.Only.{IsOnly};
ghost use Rattle.query_parameters.specs.BodyWords.{HasBody, RefusesLines};
ghost use Rattle.query_parameters.specs.Parameters.{pairs_of, parameters_of};
ghost use Rattle.query_parameters.specs.Words.{HasReadParameters, RefusesParameters};
ghost use Rattle.query_words.specs.AvailGet.{IsAvailGet, IsAvailGetFault, RefusesAvailGet};
ghost use Rattle.query_words.specs.AvailPost.{IsAvailPost, IsAvailPostFault, RefusesAvailPost};
ghost use Rattle.query_words.specs.AvailTables.{avail_names, avail_options};

use crate::avail::{AvailMethod, AvailQuery, avail_choices_in, avail_query_of};
use crate::tables::{CODES, END, OPTIONS, START, extent_names, spans_names};
use exact_time::Many;
use query_parameters::{
    BodyWords, ParameterValue, QueryFault, has_too_many, is_backwards, limit_in, read_body,
    read_words, selection_in,
};
use std::alloc::Global;

// The words of a query string by the names of the method.
fn avail_words(
    alloc: Global,
    query: &[u8],
    method: AvailMethod,
) -> Result<Vec<Option<ParameterValue>>, QueryFault>
    requires { length (pairs_of query.now) ≤ 1000 }
    ensures words { IfOk result (λ v. HasReadParameters (avail_names method) (parameters_of query.now) (parameters_of query.now) [] v.items) }
    ensures refused { IfErr result (RefusesParameters (avail_names method) (parameters_of query.now)) }
{
    match method {
        AvailMethod::Spans => read_words(alloc, &spans_names(), query),
        AvailMethod::Extent => read_words(alloc, &extent_names(), query),
    }
}

// The words and the selections of a body by the options of the method.
fn avail_body(alloc: Global, body: &[u8], method: AvailMethod) -> Result<BodyWords, QueryFault>
    ensures read { IfOk result (λ b. HasBody (avail_options method) body.now b.words.items b.selections) }
    ensures refused { IfErr result (RefusesLines (avail_options method) body.now) }
{
    match method {
        AvailMethod::Spans => read_body(alloc, &spans_names()[OPTIONS..], body),
        AvailMethod::Extent => read_body(alloc, &extent_names()[OPTIONS..], body),
    }
}

/// The query for spans or extents that a query string spells (fdsnws-availability 1.0). Names are compared
/// without regard to case, and a name and its alias are one name. The first wrong parameter decides; a
/// start after the end comes last.
pub fn avail_get(alloc: Global, query: &[u8], method: AvailMethod) -> Result<AvailQuery, QueryFault>
    ensures query { IfOk result (IsAvailGet method query.now) }
    ensures refused { IfErr result (RefusesAvailGet method query.now) }
    ensures exact { IsErrOf result QueryFault.OutOfMemory
        ⊎ IsOnly (IsAvailGet method query.now) (IsAvailGetFault method query.now) result }
{
    if has_too_many(query) {
        return Err(QueryFault::TooMany);
    }
    let mut words = avail_words(alloc, query, method)?;
    let start = limit_in(&words[START]);
    let end = limit_in(&words[END]);
    if is_backwards(start, end) {
        return Err(QueryFault::Order);
    }
    let choices = avail_choices_in(method, &words, OPTIONS);
    let selection = selection_in(alloc, &mut words, CODES, start, end)?;
    let mut selections = Many::new(alloc);
    selections.push(selection)?;
    Ok(avail_query_of(selections, choices))
}

/// The query for spans or extents that a body spells (fdsnws-availability 1.0, POST). The first wrong line
/// decides; that no line selects comes last.
pub fn avail_post(alloc: Global, body: &[u8], method: AvailMethod) -> Result<AvailQuery, QueryFault>
    ensures query { IfOk result (IsAvailPost method body.now) }
    ensures refused { IfErr result (RefusesAvailPost method body.now) }
    ensures exact { IsErrOf result QueryFault.OutOfMemory
        ⊎ IsOnly (IsAvailPost method body.now) (IsAvailPostFault method body.now) result }
{
    let read = avail_body(alloc, body, method)?;
    if read.selections.is_empty() {
        return Err(QueryFault::NoLine);
    }
    let choices = avail_choices_in(method, &read.words, 0);
    Ok(avail_query_of(read.selections, choices))
}
