//! What holds of every verdict and of every lawful history.
ghost use Rattle.std.specs.Prelude.{◌≡◌, ◌≤◌, ◌+◌, ◌++◌, ◌&&◌, ◌∷◌, [], ℕ, List, Some, length, map, take, true, false, ◌↔◌, Contains, if◌then◌else◌};
ghost use Rattle.std.specs.List.{slice_get, list_all, list_any};
ghost use Rattle.std.specs.Str.{bytes_eq};
ghost use Rattle.mseed_header.specs.Octets.{AreOctets};
ghost use Rattle.epochs.specs.Fields.{is_ha1, is_user_name};
ghost use Rattle.epochs.specs.declared.kinds.LineKind.TheVariants.{Wdr};
ghost use Rattle.epochs.specs.declared.line.Line.{Line};
ghost use Rattle.epochs.specs.Kinds.{Text};
ghost use Rattle.epochs.specs.Views.{values_of_line};
ghost use Rattle.epoch_rules.specs.Rules.{is_line_of};
ghost use Rattle.mseed_header.specs.declared.row.Row.{Row};
ghost use Rattle.archive_entry.specs.Spelling.{IsEntry};
ghost use Rattle.archive_entry.specs.declared.entry.Entry.{Entry};
ghost use Rattle.archive_state.specs.HeldLaw.{IsHeld, StandAmong};
ghost use Rattle.archive_state.specs.History.{arrived_of, held_of, live_of, may_post};
ghost use Rattle.archive_state.specs.Lawful.{founding_entry, is_accept, is_lawful, is_next};
ghost use Rattle.archive_state.specs.Sendings.{Sending, can_be_sent, after_all};
ghost use Rattle.archive_state.specs.States.{CanAbsorb};
ghost use Rattle.archive_state.specs.VerdictLaw.{Says};
ghost use Rattle.archive_state.specs.Verdicts.{Command, command_of, entry_of, is_kind, judged_of};
ghost use Rattle.archive_state.specs.declared.limits.Limits.{Limits};
ghost use Rattle.archive_state.specs.declared.verdict.Verdict.{Verdict};
ghost use Rattle.archive_state.specs.declared.verdict.Verdict.TheVariants.{Accept, OtherBody, Repeat, Role};

/// An accepted command gets the number behind the last one.
pub fn an_accepted_command_gets_the_next_number()
    ensures { (h : List Entry) (limits : Limits) (c : Command) (n : ℕ) → judged_of h limits c ≡ Accept n → n ≡ length h + 1 }
{}

/// A history with one entry more is lawful exactly where the history is and the entry is the next one. So a history
/// is lawful exactly where each entry is the next one of those before it.
pub fn a_history_goes_on_with_its_next_entry()
    ensures more { (h : List Entry) (e : Entry) → is_lawful (h ++ e ∷ []) ≡ (is_lawful h && is_next h e) }
    ensures each { (h : List Entry) → (is_lawful h ≡ true) ↔ ((n : ℕ) (e : Entry) → slice_get h n ≡ Some e → is_next (take n h) e ≡ true) }
{}

/// The command of each entry of a lawful history, posted again by an author who may still post it, is answered by
/// that entry's number, whatever came after it; so is every command of that author and sequence number, as the same
/// or as another one, and of an author who may no longer post it none adds anything. Of an author and a sequence
/// number there is one entry.
pub fn a_command_acts_once()
    ensures again { (h : List Entry) (limits : Limits) (n : ℕ) (e : Entry) → is_lawful h ≡ true → slice_get h n ≡ Some e → 1 ≤ e.seq
        → may_post (live_of h) e.author e.kind ≡ true → judged_of h limits (command_of e) ≡ Repeat e.number }
    ensures known { (h : List Entry) (limits : Limits) (c : Command) (n : ℕ) (e : Entry) → is_lawful h ≡ true → slice_get h n ≡ Some e → 1 ≤ e.seq
        → e.author ≡ c.author → e.seq ≡ c.seq
        → judged_of h limits c ≡ (if may_post (live_of h) c.author c.kind
        then (if is_kind e.kind c.kind && bytes_eq e.body c.body then Repeat e.number else OtherBody e.number) else Role) }
    ensures once { (h : List Entry) (i j : ℕ) (e d : Entry) → is_lawful h ≡ true → slice_get h i ≡ Some e → slice_get h j ≡ Some d → 1 ≤ e.seq
        → e.author ≡ d.author → e.seq ≡ d.seq → i ≡ j }
{}

/// Whatever commands are posted one after another, each as often as one likes, a lawful history stays lawful and begins
/// as it was.
pub fn commands_keep_a_history_lawful()
    ensures lawful { (limits : Limits) (h : List Entry) (sent : List Sending) → is_lawful h ≡ true → list_all can_be_sent sent ≡ true
        → is_lawful (after_all limits h sent) ≡ true }
    ensures begins { (limits : Limits) (h : List Entry) (sent : List Sending) → (more : List Entry) × (after_all limits h sent ≡ h ++ more) }
{}

/// The next entry of a lawful history can be taken in by a state of that history.
pub fn the_next_entry_can_be_absorbed()
    ensures { (h : List Entry) (e : Entry) → is_lawful h ≡ true → is_next h e ≡ true → CanAbsorb h e }
{}

/// The founding entry of an operator comes first in a history.
pub fn a_founding_entry_comes_first()
    ensures { (name ha1 : Text) → is_user_name name ≡ true → is_ha1 ha1 ≡ true → is_next [] (founding_entry name ha1) ≡ true }
{}

/// The next entry of a lawful history has a spelling: its numbers and its moment fit, its author has a user's name, and
/// its body has from 1 to 1,048,576 bytes and reads by its kind. So has the entry of an accepted command.
pub fn the_next_entry_has_a_spelling()
    ensures next { (h : List Entry) (e : Entry) → is_lawful h ≡ true → is_next h e ≡ true → IsEntry e }
    ensures accepted { (h : List Entry) (limits : Limits) (s : Sending) → is_lawful h ≡ true → can_be_sent s ≡ true
        → is_accept (judged_of h limits s.command) ≡ true → IsEntry (entry_of h s.command s.moment) }
{}

/// Each verdict says what its name says, in the words of the subject: of the author's role and entries, of the records
/// and the lines of the body, and of the limits; and no other verdict says what holds.
pub fn verdicts_in_the_subjects_words()
    ensures says { (h : List Entry) (limits : Limits) (c : Command) → AreOctets c.body → Says h limits c (judged_of h limits c) }
    ensures only { (h : List Entry) (limits : Limits) (c : Command) → AreOctets c.body → (v : Verdict) → Says h limits c v → judged_of h limits c ≡ v }
{}

/// A row is held exactly where it has arrived and each live withdrawal spares it: some code isn't matched, its start is
/// later than the row's first sample, its end is earlier than the row's last sample, or the row's entry is a later one
/// than the last that it reaches.
pub fn held_in_the_subjects_words()
    ensures { (h : List Entry) (lines : List Line) (row : Row) → map values_of_line lines ≡ live_of h → Contains (held_of h) row ↔ IsHeld h lines row }
{}

/// The rows that are held are some of those that have arrived, as they arrived and in the same order. Where no live line
/// is a withdrawal, they are all of them.
pub fn held_rows_have_arrived()
    ensures order { (h : List Entry) → StandAmong (held_of h) (arrived_of h) }
    ensures all { (h : List Entry) → list_any (is_line_of Wdr) (live_of h) ≡ false → held_of h ≡ arrived_of h }
{}
