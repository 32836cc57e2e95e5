//! What a session does with one item.
ghost use Rattle.std.specs.Prelude.{◌≡◌, ◌≤◌, ◌<◌, ◌∷◌, [], ◌++◌, length, true};
ghost use Rattle.desk_words.specs.Setting.{Setting, setting};
ghost use Rattle.http_wire.specs.Heads.{HeadView};
ghost use Rattle.centre_session.specs.Items.{asked, refused};
ghost use Rattle.centre_session.specs.Session.{scene};
ghost use Rattle.centre_session.specs.Steps.{EndRow, ItemRow, ShortRow};

use crate::clock::Clock;
use crate::ending::SessionEnd;
use crate::trail::Trail;
use crate::turns::{memory_reply, refusal_turn, request_turn, turn_without_entry};
use archive_state::Limits;
use desk_words::Desk;
use http_digest::Secret;
use http_replies::{LinkFault, write_reply};
use http_wire::{HeadFault, Link, ReadEnd, Request};
use std::alloc::Global;
use std::sync::Wait;

/// Replies to a request, and records its turn.
pub(crate) fn serve_request<R: Wait, K: Desk, L: Link, C: Clock>(
    rt: &R,
    alloc: Global,
    desk: &mut K,
    link: &mut L,
    clock: &mut C,
    secret: &Secret,
    limits: &Limits,
    trail: &mut Trail,
    request: &Request,
) -> Result<(), LinkFault>
    requires body { length request.now.body ≤ 1_048_576 }
    requires room { length trail.old < 1000 }
    ensures row { (head : HeadView) → ItemRow
        (scene (K.stand desk.old) (L.view link.old) (C.given clock.old))
        (scene (K.stand desk.new) (L.view link.new) (C.given clock.new))
        (setting secret.now limits.now) (asked head request.now) trail.old trail.new result }
{
    let moment = clock.now();
    let (reply, turn) = request_turn(rt, alloc, desk, request, moment, secret, limits);
    trail.push(turn);
    write_reply(link, &reply)
}

/// Refuses a head, and records its turn.
fn refuse_head<K: Desk, L: Link, C: Clock>(
    alloc: Global,
    desk: &mut K,
    link: &mut L,
    clock: &mut C,
    trail: &mut Trail,
    fault: HeadFault,
) -> Result<(), LinkFault>
    requires room { length trail.old < 1000 }
    ensures row { (s : Setting) → ItemRow
        (scene (K.stand desk.old) (L.view link.old) (C.given clock.old))
        (scene (K.stand desk.new) (L.view link.new) (C.given clock.new))
        s (refused fault) trail.old trail.new result }
{
    let moment = clock.now();
    let (reply, turn) = refusal_turn(alloc, desk, fault, moment);
    trail.push(turn);
    write_reply(link, &reply)
}

/// Tells that memory ran out while a request was read, and records that as a short turn.
pub(crate) fn run_out<K: Desk, L: Link, C: Clock>(
    alloc: Global,
    desk: &K,
    link: &mut L,
    clock: &mut C,
    trail: &mut Trail,
) -> Result<(), LinkFault>
    requires room { length trail.old < 1000 }
    ensures row { ShortRow
        (scene (K.stand desk.now) (L.view link.old) (C.given clock.old))
        (scene (K.stand desk.now) (L.view link.new) (C.given clock.new))
        trail.old trail.new result }
{
    let moment = clock.now();
    let front = desk.front();
    let reply = memory_reply(alloc, front, true, false);
    trail.push(turn_without_entry(front, moment, true));
    write_reply(link, &reply)
}

/// Ends a session where no request was read.
pub(crate) fn end_session<K: Desk, L: Link, C: Clock>(
    alloc: Global,
    desk: &mut K,
    link: &mut L,
    clock: &mut C,
    trail: &mut Trail,
    end: ReadEnd,
) -> SessionEnd
    requires room { length trail.old < 1000 }
    ensures row { EndRow
        (scene (K.stand desk.old) (L.view link.old) (C.given clock.old))
        (scene (K.stand desk.new) (L.view link.new) (C.given clock.new))
        trail.old trail.new end result }
{
    match end {
        ReadEnd::End => SessionEnd::Closed,
        ReadEnd::Cut => SessionEnd::Cut,
        ReadEnd::LinkFault => SessionEnd::LinkFault,
        ReadEnd::OutOfMemory => {
            let _written = run_out(alloc, desk, link, clock, trail);
            SessionEnd::Memory
        }
        ReadEnd::Head(fault) => match refuse_head(alloc, desk, link, clock, trail, fault) {
            Ok(()) => SessionEnd::Closed,
            Err(_) => SessionEnd::LinkFault,
        },
    }
}
