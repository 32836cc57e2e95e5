//! What holds of every run.
ghost use Rattle.std.specs.Prelude.{◌≡◌, List, ◌++◌};
ghost use Rattle.std.specs.List.{AllByRecursion};
ghost use mathlib.Core.List.{IsPrefix};
ghost use Rattle.archive_world.specs.World.{World, Event, Starts, Allowed, run, IsWorld, StandsAt, StandOnce, shown_in};

/// Wherever an archive starts and whatever happens, crashes and recoveries included: the journal at the end begins with
/// all entries that were shown at any place, has each entry that was acknowledged at its number, and no two entries have
/// the same author and sequence number. What the calls of this crate make happen is told by such events.
pub fn one_history()
    ensures shown { (w : World) (es fs : List Event) → Starts w → Allowed w (es ++ fs) → IsPrefix (shown_in (run w es)) (run w (es ++ fs)).journal }
    ensures acknowledged { (w : World) (es fs : List Event) → Starts w → Allowed w (es ++ fs)
        → AllByRecursion (StandsAt (run w (es ++ fs)).journal) (run w es).acknowledged }
    ensures once { (w : World) (es : List Event) → Starts w → Allowed w es → StandOnce (run w es).journal }
    ensures kept { (w : World) (es : List Event) → Starts w → Allowed w es → IsWorld (run w es) }
{
    archive_world::one_history()
}
