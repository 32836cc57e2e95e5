//! What the definition of the answers says of their events.
ghost use Rattle.std.specs.Prelude.{◌≡◌, ◌↔◌, List, true};
ghost use Rattle.std.specs.List.{Contains};
ghost use Rattle.std.specs.List.Sorted.{IsStrictlySortedBy};
ghost use Rattle.epochs.specs.Lines.{LineValues};
ghost use Rattle.epoch_rules.specs.Catalog.{IsCatalog};
ghost use Rattle.query_words.specs.declared.event.EventQuery.{EventQuery};
ghost use Rattle.event_text.specs.Events.{is_event_asked};
ghost use Rattle.event_text.specs.Orders.{event_cmp, ordered_events};

/// Before offset and limit the events of an answer stand strictly in the order that is asked for, and a live
/// line of a catalog is among them exactly where it is asked for.
pub fn events_are_in_the_order_asked_for()
    ensures { (live : List LineValues) (q : EventQuery) → IsCatalog live
        → IsStrictlySortedBy (event_cmp q.order) (ordered_events q live)
        × ((e : LineValues) → Contains (ordered_events q live) e ↔ (Contains live e × (is_event_asked q e ≡ true))) }
{}
