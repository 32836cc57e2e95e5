//! A session on each link of a port.
ghost use Rattle.std.specs.Prelude.{◌≡◌, OnOk, OnErr};
ghost use Rattle.exact_time.specs.Causes.{Rose};
ghost use Rattle.desk_words.specs.Setting.{setting};
ghost use Rattle.link_ports.specs.Ports.{IsSpent};
ghost use Rattle.centre_port.specs.Visits.{port_scene, ServesPort};

use archive_state::Limits;
use centre_session::{Clock, Trail, serve_session};
use desk_words::Desk;
use exact_time::Failed;
use http_digest::Secret;
use link_ports::Port;
use std::alloc::Global;
use std::sync::Wait;

/// Serves a session on each link that the port gives, and gives the link back with the session's turns, until the port is
/// closed or fails. A fault of a link ends its session alone. The trail is that of the last session then.
///
/// # Errors
///
/// Where the port failed, which its count of faults shows.
pub fn serve_port<R: Wait, K: Desk, P: Port, C: Clock>(
    rt: &R,
    alloc: Global,
    desk: &mut K,
    port: &mut P,
    clock: &mut C,
    secret: &Secret,
    limits: &Limits,
    trail: &mut Trail,
) -> Result<(), Failed>
    ensures serves { ServesPort
        (port_scene (K.stand desk.old) (P.view port.old) (C.given clock.old))
        (port_scene (K.stand desk.new) (P.view port.new) (C.given clock.new))
        (setting secret.now limits.now) }
    ensures ok { OnOk result (IsSpent (P.view port.new).left) }
    ensures err { OnErr result (Rose (P.view port.old).faults (P.view port.new).faults) }
{
    'links: for _ in rt.forever() {
        let mut link = match port.accept() {
            Ok(Some(link)) => link,
            Ok(None) => return Ok(()),
            Err(Failed) => return Err(Failed),
        };
        let _end = serve_session(rt, alloc, desk, &mut link, clock, secret, limits, trail);
        port.give_back(link, trail.as_slice());
    }
    unreachable!()
}
