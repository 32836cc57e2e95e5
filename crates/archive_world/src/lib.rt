//! One history: an archive as a machine over events.
//!
//! A [world](../specs/World.antt) is what there is of an archive at one moment: its journal, what is being committed,
//! what is published, what callers have seen, what was shown and what was acknowledged. An event may happen or not, and
//! changes it; crashes and recoveries are events. What the crates above use is the law, [`one_history`]: whatever
//! happens, the journal begins with all that was ever shown, and holds each acknowledged entry once. What calls do is
//! told by events: under the lock by `GoesBy` of `specs/Held.antt` (with `Makes` of `specs/Submitting.antt` for a
//! submit), to a caller by `Reads` and `Learns`, at a start by `Opens`.
//!
//! The definition is that of FDSN's services nowhere: it is the one which the promises on crashes rest on.
#![tactic(auto)]

mod law;
mod worked;

pub use law::{
    calls_follow_each_other, each_event_keeps_the_history, one_history, what_a_crash_leaves_opens,
    what_happens_under_the_lock_ignores_callers, what_lies_under_the_lock_is_left,
};
pub use worked::{each_event_does_its_part, no_event_comes_too_early};
