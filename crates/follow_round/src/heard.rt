//! What is heard of a primary.
use exact_time::Bytes;

/// What was heard of a primary on one link.
#[derive(Debug, Drop)]
pub enum Heard {
    /// Status 200 behind credentials, with a body of entries.
    Brought(Bytes),
    /// Status 204 behind credentials: it has no entry more.
    CaughtUp,
    /// The first reply has another status than 401, or the second one another than 200 and 204.
    Peer(u16),
    /// No reply, or one that can't be read, or a body of more than 67,108,864 bytes, or a challenge without a nonce.
    BadReply,
    /// The link failed, or its input ended before a reply did.
    Lost,
}
