//! What holds of every body.
ghost use Rattle.std.specs.Prelude.{◌≡◌, ◌≤◌, ◌-◌, ℕ, List, drop, length, take, Ok};
ghost use Rattle.std.specs.List.{AllByRecursion};
ghost use Rattle.archive_entry.specs.Spelling.{IsEntry};
ghost use Rattle.archive_entry.specs.declared.entry.Entry.{Entry};
ghost use Rattle.entry_bodies.specs.Bodies.{IsBody, entries_body};
ghost use Rattle.entry_bodies.specs.Laws.{OneBody};

/// A body is one list of entries at most, or has one first bad piece.
pub fn a_body_is_one_list_or_has_one_fault()
    ensures { OneBody }
{}

/// The body of a history from the entry of a number on is a body of some entries of it that follow one another from that
/// one, at least one; by the law before, of no others. It has at most so many bytes.
pub fn what_is_sent_reads_back()
    ensures { (h : List Entry) (from most : ℕ) (bytes : List ℕ) → AllByRecursion IsEntry h → entries_body h from most ≡ Ok bytes
        → (n : ℕ) × (1 ≤ n) × IsBody bytes (take n (drop (from - 1) h)) × (length bytes ≤ most) }
{}
