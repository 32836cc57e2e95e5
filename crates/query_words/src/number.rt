//! The number of an entry that a query string names.
ghost use Rattle.std.specs.Prelude.{◌⊎◌, IfOk, IfErr, IsErrOf};
ghost use Rattle.list_laws.specs.Only.{IsOnly};
ghost use Rattle.query_words.specs.NumberGet.{IsNumberGet, IsNumberGetFault, RefusesNumberGet, seq, from};

use crate::tables::number_names;
use query_parameters::{QueryFault, has_too_many, read_words, whole_in};
use std::alloc::Global;

// The number that a query string gives under the one name of its method.
fn number_get(alloc: Global, name: &'static str, query: &[u8]) -> Result<u64, QueryFault>
    ensures number { IfOk result (IsNumberGet name.now query.now) }
    ensures refused { IfErr result (RefusesNumberGet name.now query.now) }
    ensures exact { IsErrOf result QueryFault.OutOfMemory
        ⊎ IsOnly (IsNumberGet name.now query.now) (IsNumberGetFault name.now query.now) result }
{
    if has_too_many(query) {
        return Err(QueryFault::TooMany);
    }
    let words = read_words(alloc, &number_names(name), query)?;
    let Some(number) = whole_in(&words[0]) else {
        return Err(QueryFault::Value(0));
    };
    Ok(number)
}

/// The number of a command that a query string gives to the feed: its one parameter `seq`, from 1 to 10^18.
/// The first wrong parameter decides; that `seq` is absent is `Value(0)`, which comes last.
pub fn feed_get(alloc: Global, query: &[u8]) -> Result<u64, QueryFault>
    ensures number { IfOk result (IsNumberGet seq query.now) }
    ensures refused { IfErr result (RefusesNumberGet seq query.now) }
    ensures exact { IsErrOf result QueryFault.OutOfMemory
        ⊎ IsOnly (IsNumberGet seq query.now) (IsNumberGetFault seq query.now) result }
{
    number_get(alloc, "seq", query)
}

/// The number of the first entry that a query string asks for: its one parameter `from`, from 1 to 10^18.
/// The first wrong parameter decides; that `from` is absent is `Value(0)`, which comes last.
pub fn entries_get(alloc: Global, query: &[u8]) -> Result<u64, QueryFault>
    ensures number { IfOk result (IsNumberGet from query.now) }
    ensures refused { IfErr result (RefusesNumberGet from query.now) }
    ensures exact { IsErrOf result QueryFault.OutOfMemory
        ⊎ IsOnly (IsNumberGet from query.now) (IsNumberGetFault from query.now) result }
{
    number_get(alloc, "from", query)
}
