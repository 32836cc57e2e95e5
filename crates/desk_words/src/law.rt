//! What answers don't depend on.
ghost use Rattle.std.specs.Prelude.{◌≡◌, ℕ, true, false, List, length, nat_lt, Option, Ok};
ghost use Rattle.epochs.specs.Kinds.{Text};
ghost use Rattle.archive_entry.specs.declared.entry.Entry.{Entry};
ghost use Rattle.entry_bodies.specs.Bodies.{entries_body};
ghost use Rattle.archive_state.specs.History.{live_of};
ghost use Rattle.desk_words.specs.Outcomes.{asker_of, asks_entries, body_told, may_copy, outcome_from, outcome_of};
ghost use Rattle.desk_words.specs.Setting.{Setting};
ghost use Rattle.desk_words.specs.Visible.{visible};
ghost use Rattle.desk_words.specs.declared.asking.Outcome.TheVariants.{NoRole};
ghost use Rattle.desk_words.specs.declared.asking.Question.{Question};
ghost use Rattle.desk_words.specs.declared.asking.Wanted.TheVariants.{Entries};

/// Of two histories of one length, over which a question comes from the same user or is denied alike, and in which the
/// same is visible to that user, the outcome is the same, unless the question asks for entries.
pub fn what_is_hidden_changes_nothing()
    ensures { (h g : List Entry) (q : Question) (s : Setting) → asks_entries q.wanted ≡ false → length h ≡ length g
        → asker_of h q s ≡ asker_of g q s → ((user : Option Text) → asker_of h q s ≡ Ok user → visible h user ≡ visible g user)
        → outcome_of h q s ≡ outcome_of g q s }
{}

/// Who asks for entries, and is neither behind nor denied, is given those of the whole history where there is a user who
/// has the role replica, and else is told that it lacks the role.
pub fn entries_are_for_replicas()
    ensures given { (h : List Entry) (q : Question) (s : Setting) (user : Option Text) (from : ℕ) → q.wanted ≡ Entries from
        → nat_lt (length h) q.least ≡ false → asker_of h q s ≡ Ok user → may_copy (live_of h) user ≡ true
        → outcome_of h q s ≡ outcome_from body_told (entries_body h from s.limits.max_bytes) }
    ensures refused { (h : List Entry) (q : Question) (s : Setting) (user : Option Text) (from : ℕ) → q.wanted ≡ Entries from
        → nat_lt (length h) q.least ≡ false → asker_of h q s ≡ Ok user → may_copy (live_of h) user ≡ false
        → outcome_of h q s ≡ NoRole }
{}
