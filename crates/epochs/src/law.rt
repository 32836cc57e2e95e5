//! What the definitions of revisions say of every text.
ghost use Rattle.std.specs.Prelude.{List, Result};
ghost use Rattle.list_laws.specs.Only.{IsOnly};
ghost use Rattle.epochs.specs.Kinds.{Text, FieldKind};
ghost use Rattle.epochs.specs.Fields.{Value, IsField};
ghost use Rattle.epochs.specs.Lines.{LineValues, IsLine};
ghost use Rattle.epochs.specs.Spellable.{IsValueOf, IsSpellable};
ghost use Rattle.epochs.specs.Revisions.{IsRevision, IsRevisionFault};
ghost use Rattle.epochs.specs.declared.fault.RevisionFault.{RevisionFault};

/// A field of a kind can have exactly the values that some text spells, and what a line spells is
/// of such values, whose end is after its start.
pub fn a_field_can_have_what_some_text_spells()
    ensures spelled { (kind : FieldKind) (text : Text) (value : Value) → IsField kind text value → IsValueOf kind value }
    ensures spells { (kind : FieldKind) (value : Value) → IsValueOf kind value → (text : Text) × IsField kind text value }
    ensures lines { (text : Text) (e : LineValues) → IsLine text e → IsSpellable e }
{}

/// Every body spells the lines of exactly one revision, or has exactly one fault.
pub fn a_body_is_one_revision_or_one_fault()
    ensures { (body : Text) → (answer : Result (List LineValues) RevisionFault) × IsOnly (IsRevision body) (IsRevisionFault body) answer }
{}
