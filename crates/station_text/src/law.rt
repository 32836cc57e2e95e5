//! What the definition of the answers says of their lines.
ghost use Rattle.std.specs.Prelude.{List};
ghost use Rattle.std.specs.List.Sorted.{IsStrictlySortedBy};
ghost use Rattle.epochs.specs.Lines.{LineValues};
ghost use Rattle.query_words.specs.declared.station.StationQuery.{StationQuery};
ghost use Rattle.epoch_rules.specs.Catalog.{IsCatalog};
ghost use Rattle.epoch_rules.specs.KeyOrder.{line_cmp};
ghost use Rattle.station_text.specs.Asked.{asked_lines};

/// The lines that are asked for of a catalog are strictly in the order of their keys: since they are of one
/// kind, of their codes, and then of their starts.
pub fn answers_are_in_order()
    ensures { (live : List LineValues) (q : StationQuery) → IsCatalog live → IsStrictlySortedBy line_cmp (asked_lines live q) }
{}
