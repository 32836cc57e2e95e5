//! The query of a body.
ghost use Rattle.std.specs.Prelude.{◌≡◌, ◌⊎◌, IfOk, IfErr, IsErrOf};
ghost use Rattle.list_laws.specs.Only.{IsOnly};
ghost use Rattle.query_words.specs.DataPost.{IsDataPost, IsPostFault, RefusesPost};

use crate::asked::{options_in, query_of};
use crate::tables::{OPTIONS, data_names};
use dataselect::DataQuery;
use query_parameters::{QueryFault, read_body};
use std::alloc::Global;

/// The query that a body spells (FDSN Web Service Specifications 1.2, dataselect, POST). The first
/// wrong line decides; that no line selects comes last.
pub fn data_post(alloc: Global, body: &[u8]) -> Result<DataQuery, QueryFault>
    ensures query { IfOk result (IsDataPost body.now) }
    ensures refused { IfErr result (RefusesPost body.now) }
    ensures exact { IsErrOf result QueryFault.OutOfMemory
        ⊎ IsOnly (IsDataPost body.now) (IsPostFault body.now) result }
{
    let read = read_body(alloc, &data_names()[OPTIONS..], body)?;
    if read.selections.is_empty() {
        return Err(QueryFault::NoLine);
    }
    let options = options_in(&read.words, 0);
    Ok(query_of(read.selections, options))
}
