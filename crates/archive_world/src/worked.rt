//! The table of events, line by line.
ghost use Rattle.std.specs.Prelude.{◌≡◌, ℕ, true, false, Bool, List, ◌∷◌, [], Some, None};
ghost use Rattle.archive_entry.specs.declared.entry.Entry.{Entry};
ghost use Rattle.archive_state.specs.Lawful.{IsLawful};
ghost use Rattle.archive_world.specs.World.{World, Allowed, run};
ghost use Rattle.archive_world.specs.World.Event.{begins, commits, publishes, reads, learns, replies, acknowledges, fails, crashes, recovers};
ghost use Rattle.archive_world.specs.Worked.{empty, holding, committed, published, halted, crashed};

/// For each event, from an empty archive: a list in which it happens, and what is there then.
pub fn each_event_does_its_part()
    ensures begins { (e : Entry) → run empty (begins e ∷ []) ≡ holding e }
    ensures commits { (e : Entry) → run empty (begins e ∷ commits ∷ []) ≡ committed e }
    ensures publishes { (e : Entry) → run empty (begins e ∷ commits ∷ publishes ∷ []) ≡ published e }
    ensures reads { (e : Entry) → (run (published e) (reads 1 1 ∷ [])).seen 1 ≡ 1 }
    ensures learns { (e : Entry) → (run (published e) (learns 2 ∷ [])).seen 2 ≡ 1 }
    ensures learns_alone { (e : Entry) → (run (published e) (learns 2 ∷ [])).seen 1 ≡ 0 }
    ensures replies { (e : Entry) → (run (published e) (reads 1 1 ∷ replies 1 1 ∷ [])).shown ≡ 1 }
    ensures acknowledges { (e : Entry) → (run (published e) (learns 2 ∷ acknowledges 2 1 ∷ [])).acknowledged ≡ (1, e) ∷ [] }
    ensures fails { (e : Entry) → run empty (begins e ∷ fails ∷ []) ≡ halted e }
    ensures crashes_with { (e : Entry) → (run (halted e) (crashes true ∷ [])).journal ≡ e ∷ [] }
    ensures crashes_without { (e : Entry) → (run (halted e) (crashes false ∷ [])).journal ≡ [] }
    ensures recovers { (e : Entry) → run (crashed e) (recovers ∷ []) ≡ published e }
    // All of them may happen so.
    ensures allowed { (e : Entry) → IsLawful (e ∷ []) → Allowed empty (begins e ∷ commits ∷ publishes ∷ reads 1 1 ∷ replies 1 1 ∷ learns 2 ∷ acknowledges 2 1 ∷ crashes false ∷ recovers ∷ []) }
    ensures stops { (e : Entry) → IsLawful (e ∷ []) → Allowed empty (begins e ∷ fails ∷ crashes true ∷ recovers ∷ []) }
{}

/// For each event but a crash, which may always come: where it may not happen.
pub fn no_event_comes_too_early()
    ensures begins_with_one_in_hand { (e d : Entry) → Allowed (holding e) (begins d ∷ []) → ⊥ }
    ensures begins_before_it_is_published { (e d : Entry) → Allowed (committed e) (begins d ∷ []) → ⊥ }
    ensures begins_behind_a_fault { (e d : Entry) → Allowed (run (halted e) (commits ∷ [])) (begins d ∷ []) → ⊥ }
    ensures commits_nothing { Allowed empty (commits ∷ []) → ⊥ }
    ensures commits_behind_a_fault { (e : Entry) → Allowed (halted e) (commits ∷ []) → ⊥ }
    ensures publishes_while_down { (e : Entry) → Allowed (crashed e) (publishes ∷ []) → ⊥ }
    ensures reads_what_is_not_published { (e : Entry) → Allowed (committed e) (reads 1 1 ∷ []) → ⊥ }
    ensures reads_less_than_before { (e : Entry) → Allowed (published e) (reads 1 1 ∷ reads 1 0 ∷ []) → ⊥ }
    ensures learns_while_down { (e : Entry) → Allowed (crashed e) (learns 1 ∷ []) → ⊥ }
    ensures replies_over_what_it_has_not_seen { (e : Entry) → Allowed (published e) (replies 1 1 ∷ []) → ⊥ }
    ensures acknowledges_what_it_has_not_seen { (e : Entry) → Allowed (published e) (acknowledges 1 1 ∷ []) → ⊥ }
    ensures acknowledges_no_number { (e : Entry) → Allowed (published e) (learns 1 ∷ acknowledges 1 0 ∷ []) → ⊥ }
    ensures fails_while_down { (e : Entry) → Allowed (crashed e) (fails ∷ []) → ⊥ }
    ensures recovers_while_up { Allowed empty (recovers ∷ []) → ⊥ }
{}
