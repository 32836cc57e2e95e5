//! What is heard of a data centre, and how asking ends.
use crate::answer::WindowAnswer;
use exact_time::Many;
use mseed_header::Row;

/// What was heard of a data centre on one link.
#[derive(Debug, Drop)]
pub enum Heard {
    /// The link failed, or its input ended before a whole reply.
    Lost,
    /// A status that is neither 200 nor 204 nor 413.
    Peer(u16),
    /// No reply, or one that can't be read.
    BadReply,
    /// Status 413: the window has too much for one answer.
    TooMuch,
    /// The records of the window, over an archive of so many entries.
    Got(u64, Many<Row>),
}

/// How asking ends, where links last.
#[derive(Debug, Drop)]
pub enum Outcome {
    /// All windows were answered, with one front.
    Done(Many<WindowAnswer>),
    /// The last round ended at a lost link.
    Lost,
    /// The last round's answers have these fronts in neighbours.
    Moved(u64, u64),
    /// A round had as many requests as one may have.
    Requests,
    /// A status that is no answer.
    Peer(u16),
    /// No reply, or one that can't be read.
    BadReply,
}
