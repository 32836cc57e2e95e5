//! The spans that are kept, channel by channel.
ghost use Rattle.std.specs.Prelude.{◌≡◌, ◌++◌, ◌∷◌, [], false, List, Some, None, OnOk, OnErr};
ghost use Rattle.std.specs.BTreeMap.{get};
ghost use Rattle.std.specs.List.{list_any};
ghost use Rattle.list_laws.specs.Mending.{AreSpread};
ghost use Rattle.channel_globs.specs.Names.{name_cmp};
ghost use Rattle.mseed_header.specs.declared.row.Row.{Row};
ghost use Rattle.dataselect.specs.MergedSpans.{has_name};
ghost use Rattle.time_index.specs.declared.kind.Kind.{Kind};
ghost use Rattle.time_index.specs.Kept.{from, upto, Kinds, spans_at, AllKept, IsKnown};

use crate::kept::{Kept, kept_of};
use crate::kind::Kind;
use crate::kinds::{add_span, kind_of};
use channel_globs::Nslc;
use exact_time::{Moment, OutOfMemory};
use mseed_header::Row;
use std::alloc::Global;
use std::collections::BTreeMap;

// Adds a channel with one row.
fn begin(
    alloc: Global,
    channels: &mut BTreeMap<Nslc, BTreeMap<Kind, BTreeMap<Moment, Kept>>>,
    row: &Row,
) -> Result<(), OutOfMemory>
    requires absent { get name_cmp channels.old row.now.header.name ≡ None }
    ensures ok { OnOk result ((rows : List Row) → AllKept rows channels.old → list_any (has_name row.now.header.name) rows ≡ false → AllKept (rows ++ row.now ∷ []) channels.new) }
    ensures err { OnErr result (channels.new.entries ≡ channels.old.entries) }
{
    let mut kinds = BTreeMap::new(alloc);
    add_span(
        alloc,
        &mut kinds,
        kind_of(row),
        row.header.start,
        kept_of(row),
    )?;
    channels.insert(row.header.name, kinds)?;
    Ok(())
}

/// Adds a row to the kept spans of its channel. Where none are kept, it is the channel's first.
pub fn add_row(
    alloc: Global,
    channels: &mut BTreeMap<Nslc, BTreeMap<Kind, BTreeMap<Moment, Kept>>>,
    row: &Row,
) -> Result<(), OutOfMemory>
    requires spread { (kinds : Kinds) → get name_cmp channels.old row.now.header.name ≡ Some kinds → (q : Kind) → AreSpread from upto (spans_at kinds q) }
    ensures ok { OnOk result ((rows : List Row) → AllKept rows channels.old → IsKnown rows channels.old row.now.header.name → AllKept (rows ++ row.now ∷ []) channels.new) }
    ensures err { OnErr result ((rows : List Row) → AllKept rows channels.old → AllKept rows channels.new) }
{
    if let Some(kinds) = channels.get_mut(&row.header.name) {
        add_span(alloc, kinds, kind_of(row), row.header.start, kept_of(row))?;
        return Ok(());
    }
    begin(alloc, channels, row)
}
