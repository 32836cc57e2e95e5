//! A reply at any rate.
ghost use Rattle.std.specs.Prelude.{◌≡◌, ◌≤◌, length, true, None};
ghost use Rattle.exact_time.specs.Clock.{is_clock_moment};
ghost use Rattle.desk_words.specs.Setting.{Setting, setting};
ghost use Rattle.http_replies.specs.Replies.{IsSendable};
ghost use Rattle.http_wire.specs.Heads.{HeadView};
ghost use Rattle.centre_session.specs.Items.{asked, refused, memory_reply};
ghost use Rattle.centre_session.specs.Turns.{TurnStep};

use archive_state::Limits;
use centre_desk::{head_reply, reply};
use desk_words::Desk;
use exact_time::{Bytes, Moment, OutOfMemory};
use http_digest::Secret;
use http_replies::{BodyKind, Reply};
use http_wire::{HeadFault, Request, Turn};
use std::alloc::Global;
use std::sync::Wait;

/// The reply where memory ran out. It takes no memory.
pub(crate) fn memory_reply(alloc: Global, front: u64, close: bool, head_only: bool) -> Reply
    ensures reply { result ≡ memory_reply front close head_only }
    ensures sendable { IsSendable result }
{
    Reply {
        status: 500,
        kind: BodyKind::Plain,
        challenge: None,
        allow: None,
        front,
        body: Bytes::new(alloc),
        close,
        head_only,
    }
}

/// The turn of a request without an entry.
pub(crate) fn turn_without_entry(front: u64, moment: Moment, short: bool) -> Turn
    ensures { result ≡ record { front = front; moment = moment; entry = None; short = short } }
{
    Turn {
        front,
        moment,
        entry: None,
        short,
    }
}

/// The reply to a request at a moment, and its turn; a short one where memory runs out.
pub(crate) fn request_turn<R: Wait, K: Desk>(
    rt: &R,
    alloc: Global,
    desk: &mut K,
    request: &Request,
    moment: Moment,
    secret: &Secret,
    limits: &Limits,
) -> (Reply, Turn)
    requires body { length request.now.body ≤ 1_048_576 }
    requires clock { is_clock_moment moment ≡ true }
    ensures step { (head : HeadView) → TurnStep (K.stand desk.old) (K.stand desk.new) (setting secret.now limits.now) (asked head request.now) moment result.1 result.0 }
    ensures sendable { IsSendable result.0 }
{
    match reply(rt, alloc, desk, request, moment, secret, limits) {
        Ok(told) => told,
        Err(OutOfMemory) => {
            let front = desk.front();
            let head_only = request.method.as_slice() == b"HEAD".as_slice();
            let reply = memory_reply(alloc, front, request.close, head_only);
            (reply, turn_without_entry(front, moment, true))
        }
    }
}

/// The reply to a head that is refused, and its turn.
pub(crate) fn refusal_turn<K: Desk>(
    alloc: Global,
    desk: &mut K,
    fault: HeadFault,
    moment: Moment,
) -> (Reply, Turn)
    ensures step { (s : Setting) → TurnStep (K.stand desk.old) (K.stand desk.new) s (refused fault) moment result.1 result.0 }
    ensures sendable { IsSendable result.0 }
{
    let front = desk.front();
    match head_reply(alloc, fault, front) {
        Ok(reply) => (reply, turn_without_entry(front, moment, false)),
        Err(OutOfMemory) => {
            let reply = memory_reply(alloc, front, true, false);
            (reply, turn_without_entry(front, moment, true))
        }
    }
}
