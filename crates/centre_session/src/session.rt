//! A session.
ghost use Rattle.std.specs.Prelude.{◌≡◌, ◌||◌};
ghost use Rattle.desk_words.specs.Setting.{setting};
ghost use Rattle.centre_session.specs.Session.{scene, SessionRow};

use crate::clock::Clock;
use crate::ending::SessionEnd;
use crate::serving::{end_session, run_out, serve_request};
use crate::trail::{LIMIT, Trail};
use archive_state::Limits;
use desk_words::Desk;
use http_digest::Secret;
use http_wire::{Inbox, Link, Request, read_request};
use std::alloc::Global;
use std::sync::Wait;

// How many bytes a body may have.
const MAX_BODY: u64 = 1_048_576;

// The request, which closes where it is the last one too.
fn closing_if(request: Request, last: bool) -> Request
    ensures same { (result.method ≡ request.method) × (result.target ≡ request.target) × (result.headers ≡ request.headers) × (result.body ≡ request.body) }
    ensures close { result.close ≡ (request.close || last) }
{
    let mut request = request;
    request.close = request.close || last;
    request
}

/// Serves the requests of a link until the session ends, one reply after another, each over what the desk then sees, and
/// records their turns. It clears the trail first.
///
/// The session ends where the input does, behind a request that closes or is the thousandth, behind a head that is refused,
/// and where the link fails or memory runs out while a request is read.
pub fn serve_session<R: Wait, K: Desk, L: Link, C: Clock>(
    rt: &R,
    alloc: Global,
    desk: &mut K,
    link: &mut L,
    clock: &mut C,
    secret: &Secret,
    limits: &Limits,
    trail: &mut Trail,
) -> SessionEnd
    ensures { SessionRow
        (scene (K.stand desk.old) (L.view link.old) (C.given clock.old))
        (scene (K.stand desk.new) (L.view link.new) (C.given clock.new))
        (setting secret.now limits.now) trail.new result }
{
    trail.clear();
    let Ok(mut inbox) = Inbox::new(alloc) else {
        let _written = run_out(alloc, desk, link, clock, trail);
        return SessionEnd::Memory;
    };
    'items: while trail.len() < LIMIT {
        let request = match read_request(alloc, link, &mut inbox, MAX_BODY) {
            Ok(request) => request,
            Err(end) => return end_session(alloc, desk, link, clock, trail, end),
        };
        let request = closing_if(request, trail.len() + 1 == LIMIT);
        match serve_request(
            rt, alloc, desk, link, clock, secret, limits, trail, &request,
        ) {
            Err(_) => return SessionEnd::LinkFault,
            Ok(()) => {
                if request.close {
                    return SessionEnd::Closed;
                }
            }
        }
    }
    SessionEnd::Closed
}
