//! The query of a query string.
ghost use Rattle.std.specs.Prelude.{◌≡◌, ◌↔◌, ◌⊎◌, ◌+◌, ◌<◌, ◌≤◌, length, IsTrue, IfOk, IfErr, IsErrOf};
ghost use Rattle.list_laws.specs.Only.{IsOnly};
ghost use Rattle.form_urlencoded.specs.Form.{raw_pairs};
ghost use Rattle.query_words.specs.DataGet.{IsDataGet, IsGetFault, RefusesGet};

use crate::asked::{options_in, query_of};
use crate::tables::{CODES, END, OPTIONS, START, data_names};
use dataselect::DataQuery;
use exact_time::Many;
use query_parameters::{
    QueryFault, has_too_many, is_backwards, limit_in, read_words, selection_in,
};
use std::alloc::Global;

/// The query that a query string spells (FDSN Web Service Specifications 1.2, dataselect). Names are
/// compared without regard to case, and a name and its alias are one name. The first wrong parameter
/// decides; a start after the end comes last.
pub fn data_get(alloc: Global, query: &[u8]) -> Result<DataQuery, QueryFault>
    ensures query { IfOk result (IsDataGet query.now) }
    ensures refused { IfErr result (RefusesGet query.now) }
    ensures exact { IsErrOf result QueryFault.OutOfMemory
        ⊎ IsOnly (IsDataGet query.now) (IsGetFault query.now) result }
{
    if has_too_many(query) {
        return Err(QueryFault::TooMany);
    }
    let mut words = read_words(alloc, &data_names(), query)?;
    let start = limit_in(&words[START]);
    let end = limit_in(&words[END]);
    if is_backwards(start, end) {
        return Err(QueryFault::Order);
    }
    let options = options_in(&words, OPTIONS);
    let selection = selection_in(alloc, &mut words, CODES, start, end)?;
    let mut selections = Many::new(alloc);
    selections.push(selection)?;
    Ok(query_of(selections, options))
}
