//! Reads the next request of a link.
ghost use Rattle.std.specs.Prelude.{◌≡◌, ◌≤◌, IfOk, IfErr, Err};
ghost use Rattle.exact_time.specs.Causes.{Rose};
ghost use Rattle.http_wire.specs.HeadReading.{head_view};
ghost use Rattle.http_wire.specs.Requests.{TellsHead, GivesRequest, HoldsItem, StopsSo, stop_of, told_stop, EndsSo};
ghost use Rattle.http_wire.specs.Taking.{Stays};

use crate::asking::closes;
use crate::ending::{ReadEnd, Stop, StreamEnd};
use crate::fields::{body_length, copied};
use crate::front::read_front;
use crate::head::Head;
use crate::inbox::Inbox;
use crate::judging::judged;
use crate::request::Request;
use crate::taking::{TakeStop, fill};
use crate::writing::send_interim;
use exact_time::{Bytes, OutOfMemory};
use std::alloc::Global;
use streams::Link;

// How many bytes may pass before a block has ended, the blank ones in front counted.
const FRONT_LIMIT: usize = 16_384;

fn stopped(stop: TakeStop) -> Stop
    ensures { result ≡ stop_of stop }
{
    match stop {
        TakeStop::LinkFault => Stop::LinkFault,
        TakeStop::OutOfMemory => Stop::OutOfMemory,
    }
}

// The request that a head and a body are.
fn request_of(alloc: Global, head: Head, body: Bytes) -> Result<Request, OutOfMemory>
    ensures tells { IfOk result (λ request. TellsHead request (head_view head)) }
    ensures body { IfOk result (λ request. request.body ≡ body) }
{
    let close = closes(alloc, &head)?;
    let Head {
        method,
        target,
        minor: _,
        fields,
    } = head;
    Ok(Request {
        method,
        target,
        headers: fields,
        body,
        close,
    })
}

// The next request of what is held and of what the link gives.
fn read_item<L: Link>(
    alloc: Global,
    link: &mut L,
    held: &mut Inbox,
    most: u64,
) -> Result<Request, Stop>
    ensures request { IfOk result (GivesRequest most (L.view link.old).left (L.view link.new).left held.old held.new (L.view link.old).written (L.view link.new).written) }
    ensures stops { IfErr result (StopsSo most (L.view link.old).left (L.view link.new).left held.old (L.view link.old).written (L.view link.new).written) }
    ensures waits { HoldsItem most held.old → Stays (L.view link.old).left (L.view link.new).left }
    ensures fault { result ≡ Err Stop.LinkFault → Rose (L.view link.old).faults (L.view link.new).faults }
    ensures later { (L.view link.old).faults ≤ (L.view link.new).faults }
{
    let front = match read_front(link, held, FRONT_LIMIT) {
        Ok(front) => front,
        Err(stop) => return Err(stopped(stop)),
    };
    let head = match judged(alloc, most, &held.as_slice()[..front.size], front.kind) {
        Ok(head) => head,
        Err(stop) => return Err(stop),
    };
    if send_interim(link, &head).is_err() {
        return Err(Stop::LinkFault);
    }
    let more = body_length(head.fields.as_slice()) as usize;
    let size = front.size + more;
    match fill(link, held, size) {
        Ok(true) => {}
        Ok(false) => return Err(Stop::BodyCut),
        Err(stop) => return Err(stopped(stop)),
    }
    let Ok(body) = copied(alloc, &held.as_slice()[front.size..size]) else {
        return Err(Stop::OutOfMemory);
    };
    let Ok(request) = request_of(alloc, head, body) else {
        return Err(Stop::OutOfMemory);
    };
    held.drop_front(size);
    Ok(request)
}

fn told_stop(stop: Stop) -> ReadEnd
    ensures { result ≡ told_stop stop }
{
    match stop {
        Stop::Ended(StreamEnd::End) => ReadEnd::End,
        Stop::Ended(StreamEnd::Cut) => ReadEnd::Cut,
        Stop::Ended(StreamEnd::Head(fault)) => ReadEnd::Head(fault),
        Stop::BodyCut => ReadEnd::Cut,
        Stop::LinkFault => ReadEnd::LinkFault,
        Stop::OutOfMemory => ReadEnd::OutOfMemory,
    }
}

/// The next request of the inbox and of what the link gives, whatever the pieces, with a body of
/// `max_body` bytes at most. What came behind it is held.
///
/// CR and LF before a request are skipped. A head is what `httparse` reads by its default settings. An
/// HTTP/1.1 request that expects it is sent the interim reply before its body is taken; nothing else is
/// written. Where a whole item is in hand nothing is taken. After any Err the inbox isn't to be used again.
pub fn read_request<L: Link>(
    alloc: Global,
    link: &mut L,
    inbox: &mut Inbox,
    max_body: u64,
) -> Result<Request, ReadEnd>
    ensures request { IfOk result (GivesRequest max_body (L.view link.old).left (L.view link.new).left inbox.old inbox.new (L.view link.old).written (L.view link.new).written) }
    ensures ends { IfErr result (EndsSo max_body (L.view link.old).left (L.view link.new).left inbox.old (L.view link.old).written (L.view link.new).written) }
    ensures waits { HoldsItem max_body inbox.old → Stays (L.view link.old).left (L.view link.new).left }
    ensures fault { result ≡ Err ReadEnd.LinkFault → Rose (L.view link.old).faults (L.view link.new).faults }
    ensures later { (L.view link.old).faults ≤ (L.view link.new).faults }
{
    match read_item(alloc, link, inbox, max_body) {
        Ok(request) => Ok(request),
        Err(stop) => Err(told_stop(stop)),
    }
}
