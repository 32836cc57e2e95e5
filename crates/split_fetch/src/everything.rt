//! The query for every record.
ghost use Rattle.std.specs.Prelude.{◌≡◌, ◌∷◌, [], IfOk};
ghost use Rattle.channel_globs.specs.PatternText.{IsPatternList};
ghost use Rattle.split_fetch.specs.Everything.{everything};

use channel_globs::{GlobFault, Part, PatternList};
use dataselect::{DataQuery, Nodata, Selection};
use exact_time::{Many, OutOfMemory};
use std::alloc::Global;

// The list of one pattern.
fn pattern(alloc: Global, text: &[u8], part: Part) -> Result<PatternList, OutOfMemory>
    requires { IsPatternList part text.now (text.now ∷ []) }
    ensures { IfOk result (λ list. list ≡ text.now ∷ []) }
{
    match PatternList::read(alloc, text, part) {
        Ok(list) => Ok(list),
        Err(GlobFault::OutOfMemory) => Err(OutOfMemory),
        Err(_) => unreachable!(),
    }
}

// All channels at all times.
fn all_channels(alloc: Global) -> Result<Selection, OutOfMemory>
    ensures { IfOk result (λ s. everything.selections ≡ s ∷ []) }
{
    Ok(Selection {
        network: pattern(alloc, b"*", Part::Network)?,
        station: pattern(alloc, b"*", Part::Station)?,
        location: pattern(alloc, b"*", Part::Location)?,
        channel: pattern(alloc, b"*", Part::Channel)?,
        start: None,
        end: None,
    })
}

/// The query for every record: four times `*`, and no window.
pub fn everything(alloc: Global) -> Result<DataQuery, OutOfMemory>
    ensures { IfOk result (λ query. query ≡ everything) }
{
    let mut selections = Many::new(alloc);
    selections.push(all_channels(alloc)?)?;
    Ok(DataQuery {
        selections,
        quality: None,
        minimum: 0,
        longest: false,
        nodata: Nodata::Quiet,
    })
}
