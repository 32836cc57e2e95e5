//! Names in order.
ghost use Rattle.std.specs.Prelude.{◌≡◌, IfOk};

use channel_globs::Nslc;
use exact_time::{Many, OutOfMemory};
use std::alloc::Global;
use std::collections::BTreeSet;

/// The names in a list, in their order.
pub fn list_names(alloc: Global, names: &BTreeSet<Nslc>) -> Result<Many<Nslc>, OutOfMemory>
    ensures { IfOk result (λ list. list ≡ names.now.keys) }
{
    let mut list = Many::new(alloc);
    'names: for name in names {
        list.push(*name)?;
    }
    Ok(list)
}
