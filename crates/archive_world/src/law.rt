//! What holds of every world and every list of its events.
ghost use Rattle.std.specs.Prelude.{◌≡◌, ◌↔◌, ℕ, true, false, List, ◌++◌, Option, Result};
ghost use Rattle.std.specs.List.{AllByRecursion, list_all};
ghost use mathlib.Core.List.{IsPrefix};
ghost use Rattle.disk_model.specs.View.{WhereTold, is_told};
ghost use Rattle.archive_entry.specs.declared.entry.Entry.{Entry};
ghost use Rattle.archive_log.specs.Histories.{IsHistoryOf};
ghost use Rattle.archive_post.specs.Leaving.{LeavesLeft, left_of};
ghost use Rattle.archive_post.specs.Waiting.{are_both, committed};
ghost use Rattle.desk_words.specs.declared.asking.Submitted.{Submitted};
ghost use Rattle.desk_words.specs.declared.asking.SubmitFault.{SubmitFault};
ghost use Rattle.archive_world.specs.Held.{Held, held, Callers, with_callers, is_held, GoesBy, IsLeftOf, IsOpened, LeavesHeld};
ghost use Rattle.archive_world.specs.Submitting.{IsMade};
ghost use Rattle.archive_world.specs.World.{World, Event, Starts, May, Allowed, after, run, IsWorld, StandsAt, StandOnce, shown_in};

use disk_model::Disk;

/// Wherever an archive starts and whatever happens, crashes and recoveries included: the journal at the end begins with
/// all entries that were shown at any place, has each entry that was acknowledged at its number, and no two entries have
/// the same author and sequence number.
pub fn one_history()
    ensures shown { (w : World) (es fs : List Event) → Starts w → Allowed w (es ++ fs) → IsPrefix (shown_in (run w es)) (run w (es ++ fs)).journal }
    ensures acknowledged { (w : World) (es fs : List Event) → Starts w → Allowed w (es ++ fs)
        → AllByRecursion (StandsAt (run w (es ++ fs)).journal) (run w es).acknowledged }
    ensures once { (w : World) (es : List Event) → Starts w → Allowed w es → StandOnce (run w es).journal }
    ensures kept { (w : World) (es : List Event) → Starts w → Allowed w es → IsWorld (run w es) }
{}

/// Each event keeps what a world is, and leaves what the journal begins with.
pub fn each_event_keeps_the_history()
    ensures world { (w : World) (e : Event) → IsWorld w → May w e → IsWorld (after w e) }
    ensures grows { (w : World) (e : Event) → IsPrefix w.journal (after w e).journal }
{}

/// One call after another, each with the lock, is one: its events are those of the first, and then those of the second.
pub fn calls_follow_each_other<D: Disk>()
    ensures { (before mid now : D) (old new newer : Held) (es fs : List Event) → is_told (D.view mid) ≡ is_told (D.view before)
        → GoesBy (D.view before) (D.view mid) old new es → GoesBy (D.view mid) (D.view now) new newer fs → GoesBy (D.view before) (D.view now) old newer (es ++ fs) }
{}

/// Of a file that a crash may leave: the one history with which it opens is that of the world after the crash.
pub fn what_a_crash_leaves_opens()
    ensures { (w : World) (file : List ℕ) (h : List Entry) → IsWorld w → IsLeftOf w file → IsHistoryOf file h → IsOpened w h }
{}

/// What lies under the lock says what a crash leaves: a journal of what was seen; or of this and the entry that waits; or
/// of this with or without the entry in hand. So what the rows of a session and of a service say of crashes follows from
/// the events of their calls.
pub fn what_lies_under_the_lock_is_left<D: Disk>()
    ensures { (disk : D) (seen shown : List Entry) (waiting hand : Option Entry) → are_both waiting hand ≡ false
        → LeavesHeld (D.view disk) (held (committed seen waiting) shown hand) ↔ WhereTold (D.view disk) (LeavesLeft (D.view disk).may_leave seen (left_of waiting hand)) }
{}

/// What happens under the lock takes no notice of what callers have. So what callers do in between, which changes only
/// that, hinders nothing of it. What a submit makes happen is all of this kind.
pub fn what_happens_under_the_lock_ignores_callers()
    ensures may { (w : World) (c : Callers) (e : Event) → is_held e ≡ true → May w e → May (with_callers w c) e }
    ensures after { (w : World) (c : Callers) (e : Event) → is_held e ≡ true → after (with_callers w c) e ≡ with_callers (after w e) c }
    ensures submit { (h : Held) (posted : Option Entry) (r : Result Submitted SubmitFault) (events : List Event) → IsMade h posted r events → list_all is_held events ≡ true }
{}
