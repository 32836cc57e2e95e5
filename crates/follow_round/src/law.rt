//! Laws of the definitions: functions without body, each of which is proved to meet its law.
ghost use Rattle.follow_round.specs.Laws.{OneHeard};

/// What a replica hears on a link, and what it asks there, is a function of the bytes that came.
pub fn a_link_is_heard_in_one_way()
    ensures { OneHeard }
{}
