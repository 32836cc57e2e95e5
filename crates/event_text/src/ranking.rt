//! The order of events.
ghost use Rattle.std.specs.Prelude.{◌≡◌, Some, [], refl, map, IfOk, filter};
ghost use Rattle.epochs.specs.Views.{values_of_line};
ghost use Rattle.epoch_rules.specs.KeyOrder.{or_zero};
ghost use Rattle.list_laws.specs.InOrder.{in_order};
ghost use Rattle.event_text.specs.Events.{is_event_asked, event_of};
ghost use Rattle.epochs.specs.declared.line.Line.TheVariants.{Evt};
ghost use Rattle.line_columns.specs.Columns.{optional_millionths};
ghost use Rattle.event_text.specs.Orders.{event_cmp, ordered_events};
ghost use Rattle.event_text.specs.Ranks.{IsRank, line_at, line_of_rank, is_apart, measure_of, rank_cmp, is_same_rank, ranks_equal, ranks_total};
ghost use Rattle.std.specs.Cmp.{partial_equiv_from_equiv, partial_order_from_total};

use crate::asked::asked_event;
use crate::rank::Rank;
use epoch_catalog::{Catalog, Family};
use epochs::{Event, Line};
use exact_time::{Decimal, Many, OutOfMemory};
use query_words::{EventOrder, EventQuery};
use std::alloc::Global;
use std::cmp::Ordering;
use std::collections::BTreeSet;

impl<'a> PartialEq for Rank<'a> {
    ghost eq = { is_same_rank };

    ghost laws = { partial_equiv_from_equiv ranks_equal };

    fn eq(&self, other: &Self) -> bool {
        self.cmp(other).is_eq()
    }
}

impl<'a> Eq for Rank<'a> {
    ghost laws = { ranks_equal };
}

impl<'a> PartialOrd for Rank<'a> {
    ghost partial_cmp = { λ a b. Some (rank_cmp a b) };

    ghost laws = { partial_order_from_total ranks_total };

    fn partial_cmp(&self, other: &Self) -> Option<Ordering> {
        Some(self.cmp(other))
    }
}

impl<'a> Ord for Rank<'a> {
    ghost cmp = { rank_cmp };

    ghost total = { ranks_total };

    ghost matches_partial_cmp = { λ a b. refl };

    ghost matches_eq = { λ a b. refl };

    fn cmp(&self, other: &Self) -> Ordering {
        self.apart.cmp(&other.apart).then(
            self.measure
                .cmp(&other.measure)
                .then(self.event.id.as_slice().cmp(other.event.id.as_slice())),
        )
    }
}

// A magnitude in millionths; 0 where there is none.
fn millionths(magnitude: Option<Decimal>) -> i128
    ensures { result ≡ or_zero (optional_millionths magnitude) }
{
    match magnitude {
        None => 0,
        Some(magnitude) => magnitude.millionths,
    }
}

// Whether an event stands in the second part of an order.
fn is_apart(order: EventOrder, event: &Event) -> bool
    ensures { result ≡ is_apart order (event_of (values_of_line (Evt event.now))) }
{
    match order {
        EventOrder::MagnitudeDown => event.magnitude.magnitude.is_none(),
        EventOrder::MagnitudeUp => event.magnitude.magnitude.is_some(),
        _ => false,
    }
}

fn measure_of(order: EventOrder, event: &Event) -> i128
    ensures { result ≡ measure_of order (event_of (values_of_line (Evt event.now))) }
{
    match order {
        EventOrder::TimeDown => -(event.time.micros as i128),
        EventOrder::TimeUp => event.time.micros as i128,
        EventOrder::MagnitudeDown => -millionths(event.magnitude.magnitude),
        EventOrder::MagnitudeUp => millionths(event.magnitude.magnitude),
    }
}

fn rank_of<'a>(order: EventOrder, event: &'a Event) -> Rank<'a>
    ensures rank { IsRank order result }
    ensures event { line_at result.event ≡ values_of_line (Evt event.now) }
{
    Rank {
        apart: is_apart(order, event),
        measure: measure_of(order, event),
        event,
    }
}

// The ranks of the events that are asked for.
fn ranks_in<'a>(
    alloc: Global,
    lines: &'a [Line],
    query: &EventQuery,
) -> Result<BTreeSet<Rank<'a>>, OutOfMemory>
    ensures { IfOk result (λ ranks. map line_of_rank ranks.keys ≡ in_order (event_cmp query.now.order) [] (filter (is_event_asked query.now) (map values_of_line lines.now))) }
{
    let mut ranks = BTreeSet::new(alloc);
    'lines: for line in lines {
        if let Some(event) = asked_event(query, line) {
            ranks.insert(rank_of(query.order, event))?;
        }
    }
    Ok(ranks)
}

// The events of some ranks.
fn events_of<'a>(alloc: Global, ranks: &BTreeSet<Rank<'a>>) -> Result<Many<&'a Event>, OutOfMemory>
    ensures { IfOk result (λ events. map line_at events ≡ map line_of_rank ranks.now.keys) }
{
    let mut events = Many::new(alloc);
    'ranks: for rank in ranks {
        events.push(rank.event)?;
    }
    Ok(events)
}

/// The events that are asked for, in the order that is.
pub fn ordered_events<'a>(
    alloc: Global,
    catalog: &'a Catalog,
    query: &EventQuery,
) -> Result<Many<&'a Event>, OutOfMemory>
    ensures { IfOk result (λ events. map line_at events ≡ ordered_events query.now catalog.now) }
{
    let ranks = ranks_in(alloc, catalog.family(&Family::Events), query)?;
    events_of(alloc, &ranks)
}
