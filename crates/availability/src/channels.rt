//! The spans of the channels that are asked for.
ghost use Rattle.std.specs.Prelude.{◌≡◌, ◌++◌, map, IfOk, OnOk};
ghost use Rattle.std.specs.List.{flat_map};
ghost use Rattle.list_laws.specs.InOrder.{in_order};
ghost use Rattle.channel_globs.specs.Names.{name_cmp};
ghost use Rattle.dataselect.specs.MergedSpans.{value_of, merged_spans_of};
ghost use Rattle.availability.specs.Channels.{spans_named, names_asked, all_spans, AreNamed, has_all, merges_as_shelves, time_span_of};
ghost use Rattle.availability.specs.Spans.{spans_of};

use crate::channel::ChannelSpans;
use crate::rows::rows_named;
use crate::span::{Group, TimeSpan};
use crate::spans::add_spans_of;
use channel_globs::Nslc;
use dataselect::{Selection, Shelf, Sight, Span};
use exact_time::{Many, OutOfMemory};
use query_parameters::QualitySet;
use query_words::AvailQuery;
use std::alloc::Global;
use std::collections::BTreeSet;

fn has_all(set: QualitySet) -> bool
    ensures { result ≡ has_all set }
{
    set.d && set.m && set.q && set.r
}

// Whether rows are joined as a shelf joins them, and all qualities are asked for.
fn merges_as_shelves(query: &AvailQuery) -> bool
    ensures { result ≡ merges_as_shelves query.now }
{
    query.merge_overlap
        && !query.merge_quality
        && !query.merge_rate
        && query.gaps == 0
        && has_all(query.qualities)
}

// A shelf's span as a time span that no restriction touches.
fn time_span(span: &Span) -> TimeSpan
    ensures { result ≡ time_span_of (value_of span.now) }
{
    TimeSpan {
        group: Group {
            name: span.name,
            quality: Some(span.quality),
            rate: Some(span.rate),
        },
        start: span.start,
        last: span.last.floor(),
        updated: span.updated,
        restricted: false,
    }
}

// A shelf's spans as time spans that no restriction touches.
fn time_spans(alloc: Global, merged: &[Span]) -> Result<Many<TimeSpan>, OutOfMemory>
    ensures { IfOk result (λ spans. spans ≡ map (λ s. time_span_of (value_of s)) merged.now) }
{
    let mut spans = Many::new(alloc);
    'spans: for span in merged {
        spans.push(time_span(span))?;
    }
    Ok(spans)
}

// The spans that the shelf tells of a name.
fn spans_told<S: Shelf>(
    alloc: Global,
    shelf: &S,
    name: &Nslc,
) -> Result<Many<TimeSpan>, OutOfMemory>
    ensures { IfOk result (λ spans. spans ≡ map time_span_of (merged_spans_of name.now (S.rows shelf.now))) }
{
    let merged = shelf.merged_spans(name)?;
    time_spans(alloc, merged.as_slice())
}

// The spans of the rows of a name, made of the rows.
fn spans_made<S: Shelf, V: Sight>(
    alloc: Global,
    shelf: &S,
    sight: &V,
    query: &AvailQuery,
    name: &Nslc,
) -> Result<Many<TimeSpan>, OutOfMemory>
    ensures { IfOk result (λ spans. spans ≡ spans_named (V.seen sight.now) (V.touched sight.now) query.now (S.rows shelf.now) name.now) }
{
    let rows = rows_named(alloc, shelf, sight, query, name)?;
    let mut spans = Many::new(alloc);
    add_spans_of(&mut spans, sight, query, rows.as_slice())?;
    Ok(spans)
}

// The spans of the rows of a name. Where the sight sees all of them, and they are joined as a shelf joins them,
// the shelf has their spans.
fn spans_of_name<S: Shelf, V: Sight>(
    alloc: Global,
    shelf: &S,
    sight: &V,
    query: &AvailQuery,
    name: &Nslc,
) -> Result<Many<TimeSpan>, OutOfMemory>
    ensures { IfOk result (λ spans. spans ≡ spans_named (V.seen sight.now) (V.touched sight.now) query.now (S.rows shelf.now) name.now) }
{
    let merges = merges_as_shelves(query);
    let whole = sight.whole(name);
    if merges && whole {
        spans_told(alloc, shelf, name)
    } else {
        spans_made(alloc, shelf, sight, query, name)
    }
}

// Puts names in order among others.
fn put_names(names: &mut BTreeSet<Nslc>, more: &[Nslc]) -> Result<(), OutOfMemory>
    ensures { OnOk result (names.new.keys ≡ in_order name_cmp names.old.keys more.now) }
{
    'names: for name in more {
        names.insert(*name)?;
    }
    Ok(())
}

// The names of rows that some selection matches.
fn names_asked<S: Shelf>(
    alloc: Global,
    shelf: &S,
    selections: &[Selection],
) -> Result<BTreeSet<Nslc>, OutOfMemory>
    ensures { IfOk result (λ names. names.keys ≡ names_asked selections.now (S.rows shelf.now)) }
{
    let mut names = BTreeSet::new(alloc);
    'selections: for selection in selections {
        let more = shelf.names(selection)?;
        put_names(&mut names, more.as_slice())?;
    }
    Ok(names)
}

// Adds the spans of the rows of a name.
fn add_channel<S: Shelf, V: Sight>(
    channels: &mut Many<ChannelSpans>,
    alloc: Global,
    shelf: &S,
    sight: &V,
    query: &AvailQuery,
    name: &Nslc,
) -> Result<(), OutOfMemory>
    requires named { AreNamed channels.old }
    ensures named { OnOk result (AreNamed channels.new) }
    ensures spans { OnOk result (all_spans channels.new ≡ all_spans channels.old ++ spans_named (V.seen sight.now) (V.touched sight.now) query.now (S.rows shelf.now) name.now) }
{
    let spans = spans_of_name(alloc, shelf, sight, query, name)?;
    channels.push(ChannelSpans { name: *name, spans })?;
    Ok(())
}

// The spans of the rows of these names.
fn channels_of<S: Shelf, V: Sight>(
    alloc: Global,
    shelf: &S,
    sight: &V,
    query: &AvailQuery,
    names: &BTreeSet<Nslc>,
) -> Result<Many<ChannelSpans>, OutOfMemory>
    ensures named { IfOk result (λ channels. AreNamed channels) }
    ensures spans { IfOk result (λ channels. all_spans channels ≡ flat_map (spans_named (V.seen sight.now) (V.touched sight.now) query.now (S.rows shelf.now)) names.now.keys) }
{
    let mut channels = Many::new(alloc);
    'names: for name in names {
        add_channel(&mut channels, alloc, shelf, sight, query, name)?;
    }
    Ok(channels)
}

/// The spans of the rows that are asked for, channel by channel: no row of another channel is read.
pub fn channels<S: Shelf, V: Sight>(
    alloc: Global,
    shelf: &S,
    sight: &V,
    query: &AvailQuery,
) -> Result<Many<ChannelSpans>, OutOfMemory>
    ensures named { IfOk result (λ channels. AreNamed channels) }
    ensures spans { IfOk result (λ channels. all_spans channels ≡ spans_of (V.seen sight.now) (V.touched sight.now) query.now (S.rows shelf.now)) }
{
    let names = names_asked(alloc, shelf, query.selections.as_slice())?;
    channels_of(alloc, shelf, sight, query, &names)
}
