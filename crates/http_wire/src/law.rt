//! Laws of the definitions: functions without body, each of which is proved to meet its law.
ghost use Rattle.http_wire.specs.Laws.{SomeFront, OneFront, RequestInHand, OneRequestInFront, RequestOfAll, EndOfAll, CutOfAll, TargetOfAll, SameRequestHoweverCut, SameEndHoweverCut, NoEndForARequest, NoCutForARequest, NoCutForAnEnd};

/// A stream begins with a front that says something, and with one front, which says one thing.
pub fn a_stream_begins_with_one_front()
    ensures some { SomeFront }
    ensures one { OneFront }
{}

/// Where a whole request is in hand, a whole item is, and nothing is taken for it.
pub fn a_request_in_hand_is_a_whole_item()
    ensures { RequestInHand }
{}

/// Bytes begin with one request at most, and what follows it is one.
pub fn bytes_begin_with_one_request()
    ensures { OneRequestInFront }
{}

/// Over a link that tells what it has left, each answer speaks of all that was held and left.
pub fn answers_speak_of_all_bytes()
    ensures request { RequestOfAll }
    ensures end { EndOfAll }
    ensures cut { CutOfAll }
{}

/// The test of a target on its front is the test on the stream.
pub fn a_front_holds_its_target()
    ensures { TargetOfAll }
{}

/// Two readings of the same bytes in other pieces give the same request, or stop for the same reason.
pub fn pieces_do_not_matter()
    ensures request { SameRequestHoweverCut }
    ensures end { SameEndHoweverCut }
    ensures no_end { NoEndForARequest }
    ensures no_cut { NoCutForARequest }
    ensures cut_or_end { NoCutForAnEnd }
{}
