//! The query for events of a query string.
ghost use Rattle.std.specs.Prelude.{◌⊎◌, IfOk, IfErr, IsErrOf};
ghost use Rattle.list_laws.specs.Only.{IsOnly};
ghost use Rattle.query_words.specs.EventGet.{IsEventGet, IsEventGetFault, RefusesEventGet};

use crate::event::{EventQuery, event_query_in, is_event_in_order};
use crate::tables::event_names;
use query_parameters::{QueryFault, has_too_many, read_words};
use std::alloc::Global;

/// The query for events that a query string spells (FDSN Web Service Specifications 1.2, event). Names are
/// compared without regard to case, and a name and its alias are one name; texts are compared exactly. The
/// first wrong parameter decides; a least limit above its greatest comes last.
pub fn event_get(alloc: Global, query: &[u8]) -> Result<EventQuery, QueryFault>
    ensures query { IfOk result (IsEventGet query.now) }
    ensures refused { IfErr result (RefusesEventGet query.now) }
    ensures exact { IsErrOf result QueryFault.OutOfMemory
        ⊎ IsOnly (IsEventGet query.now) (IsEventGetFault query.now) result }
{
    if has_too_many(query) {
        return Err(QueryFault::TooMany);
    }
    let mut words = read_words(alloc, &event_names(), query)?;
    let asked = event_query_in(&mut words);
    if !is_event_in_order(&asked) {
        return Err(QueryFault::Order);
    }
    Ok(asked)
}
