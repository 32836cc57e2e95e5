//! Laws of the definitions: functions without body, each of which is proved to meet its law.
ghost use Rattle.streams.specs.Laws.{TakesGoOn, PutsGoOn, GoOnTogether};

/// What is told of a stream goes on over each call and so over any calls: its count of faults never falls
/// and rises where it fails, and what it no longer tells of what was written is never told again.
pub fn what_is_told_goes_on()
    ensures takes { TakesGoOn }
    ensures puts { PutsGoOn }
    ensures together { GoOnTogether }
{}
