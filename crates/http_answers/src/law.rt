//! Laws of the definitions: functions without body, each of which is proved to meet its law.
ghost use Rattle.http_answers.specs.Hearing.{OneHearing, ReplyIsHeard, EndIsHeard};
ghost use Rattle.http_answers.specs.Laws.{ReadsBack, ReadsAsNoOther, NeverRefused, NoneWhateverFollows};
ghost use Rattle.http_answers.specs.Requests.{RequestReadsBack, RequestReadsAsNoOther};

/// What is heard of a peer is a function of the bytes that came and of whether the link failed: a reading answers what is heard in
/// them, and one answer at most is.
pub fn one_hearing()
    ensures one { OneHearing }
    ensures reply { ReplyIsHeard }
    ensures end { EndIsHeard }
{}

/// What was written as a reply reads back as its status, its front, its nonce and its body, and as nothing else.
pub fn what_was_written_reads_back()
    ensures back { ReadsBack }
    ensures only { ReadsAsNoOther }
    ensures never { NeverRefused }
{}

/// Where a reply is refused for its head, more bytes wouldn't have helped.
pub fn bytes_begin_with_no_head()
    ensures { NoneWhateverFollows }
{}

/// What is written as a request is read by `http_wire` as that request, and as nothing else.
pub fn a_request_reads_back()
    ensures back { RequestReadsBack }
    ensures only { RequestReadsAsNoOther }
{}
