//! Laws of the definitions: functions without body, each of which is proved to meet its law.
ghost use Rattle.http_replies.specs.Laws.{EveryReplyReadsBack, NoReplyReadsAsAnother};

/// The head of a reply, whatever follows it, is one head of `httparse`'s grammar, with the status, the
/// phrase and the fields as they were meant, and no other.
pub fn a_reply_reads_back()
    ensures same { EveryReplyReadsBack }
    ensures only { NoReplyReadsAsAnother }
{}
