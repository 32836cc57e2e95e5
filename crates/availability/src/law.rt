//! What the definition of the answers says of their lines.
ghost use Rattle.std.specs.Prelude.{◌≡◌, List};
ghost use Rattle.std.specs.Cmp.{IsTotalOrder};
ghost use Rattle.std.specs.List.Sorted.{IsStrictlySortedBy};
ghost use Rattle.std.specs.declared.cmp.Ordering.TheVariants.{Equal};
ghost use Rattle.query_words.specs.declared.avail.AvailMethod.{AvailMethod};
ghost use Rattle.query_words.specs.declared.avail.AvailQuery.{AvailQuery};
ghost use Rattle.availability.specs.Lines.{line_cmp, lines_of};
ghost use Rattle.availability.specs.declared.line.Line.{Line};
ghost use Rattle.availability.specs.declared.span.TimeSpan.{TimeSpan};

/// The order of lines is total, lines that it leaves equal are the same, and the lines of an answer are
/// strictly in it.
pub fn lines_are_in_order()
    ensures total { IsTotalOrder line_cmp }
    ensures ties { (a b : Line) → line_cmp a b ≡ Equal → a ≡ b }
    ensures sorted { (method : AvailMethod) (query : AvailQuery) (spans : List TimeSpan) → IsStrictlySortedBy line_cmp (lines_of method query spans) }
{}
