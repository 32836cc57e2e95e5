//! Reads the next reply of a link.
ghost use Rattle.std.specs.Prelude.{◌≡◌, ◌<◌, ◌^◌, IfOk, IfErr, IfSome, OnOk, Err, MatchBool, length};
ghost use Rattle.std.specs.Io.KnownBytes.{IsAtEnd};
ghost use Rattle.http_wire.specs.Taking.{TookMore};
ghost use Rattle.streams.specs.Effects.{OnlyTakes};
ghost use Rattle.http_answers.specs.Reading.{HasHead, StopsInHead, GivesReply, EndsSo, end_of};

use crate::got::{Got, GotEnd};
use crate::parsing::{Head, HeadRead, parse};
use http_wire::{Inbox, TakeStop, fill};
use std::alloc::Global;
use streams::Link;

// How many bytes the head of a reply may have.
const HEAD_LIMIT: usize = 16_384;

fn stopped(stop: TakeStop) -> GotEnd
    ensures { result ≡ end_of stop }
{
    match stop {
        TakeStop::LinkFault => GotEnd::LinkFault,
        TakeStop::OutOfMemory => GotEnd::OutOfMemory,
    }
}

// Takes pieces until one has the end of a line, or a head has no more room. False is the end of the input.
fn take_line<L: Link>(link: &mut L, held: &mut Inbox) -> Result<bool, TakeStop>
    ensures took { OnOk result (TookMore (L.view link.old).left (L.view link.new).left held.old held.new) }
    ensures more { IfOk result (λ more. MatchBool more (length held.old < length held.new) (Unit {0})) }
    ensures end { IfOk result (λ more. MatchBool more (Unit {0}) (IsAtEnd (L.view link.new).left)) }
    ensures takes { OnlyTakes (L.view link.old) (L.view link.new) (result ≡ Err TakeStop.LinkFault) }
{
    'pieces: loop {
        let count = held.len();
        if !held.take_piece(link)? {
            return Ok(false);
        }
        if held.len() >= HEAD_LIMIT || held.as_slice()[count..].contains(&b'\n') {
            return Ok(true);
        }
    }
}

// Takes from the link until what is held begins with the head of a reply.
fn read_head<L: Link>(alloc: Global, link: &mut L, held: &mut Inbox) -> Result<Head, GotEnd>
    ensures took { OnOk result (TookMore (L.view link.old).left (L.view link.new).left held.old held.new) }
    ensures head { IfOk result (HasHead held.new) }
    ensures stops { IfErr result (StopsInHead (L.view link.old).left (L.view link.new).left held.old) }
    ensures bound { IfOk result (λ head. IfSome head.more (λ n. n < 10 ^ 18)) }
    ensures takes { OnlyTakes (L.view link.old) (L.view link.new) (result ≡ Err GotEnd.LinkFault) }
{
    let mut ended = false;
    'lines: loop {
        match parse(alloc, held.as_slice())? {
            HeadRead::Whole(head) => {
                return if head.size <= HEAD_LIMIT {
                    Ok(head)
                } else {
                    Err(GotEnd::BadReply)
                };
            }
            HeadRead::Crowded | HeadRead::Never => return Err(GotEnd::BadReply),
            HeadRead::Short => {}
        }
        if held.len() >= HEAD_LIMIT {
            return Err(GotEnd::BadReply);
        }
        if ended {
            return Err(GotEnd::Cut);
        }
        match take_line(link, held) {
            Ok(more) => ended = !more,
            Err(stop) => return Err(stopped(stop)),
        }
    }
}

/// The next reply of the inbox and of what the link gives, whatever the pieces, with a body of `max_body` bytes at most.
/// What came behind it is held. Nothing is written. After any Err the inbox isn't to be used again.
///
/// A head is what `httparse` reads by its default settings (RFC 9112, section 4), with empty lines in front; an interim reply
/// (1xx) and a body that comes in chunks are `BadReply`, since they don't say how long the body is. A reply to HEAD isn't read
/// here. No room is made for a body before it comes, and it is handed on without a copy.
pub fn read_reply<L: Link>(
    alloc: Global,
    link: &mut L,
    inbox: &mut Inbox,
    max_body: u64,
) -> Result<Got, GotEnd>
    ensures reply { IfOk result (GivesReply max_body (L.view link.old).left (L.view link.new).left inbox.old inbox.new) }
    ensures ends { IfErr result (EndsSo max_body (L.view link.old).left (L.view link.new).left inbox.old) }
    ensures takes { OnlyTakes (L.view link.old) (L.view link.new) (result ≡ Err GotEnd.LinkFault) }
{
    let head = read_head(alloc, link, inbox)?;
    let Some(more) = head.more else {
        return Err(GotEnd::BadReply);
    };
    if more > max_body {
        return Err(GotEnd::TooLong(more));
    }
    let count = more as usize;
    match fill(link, inbox, head.size + count) {
        Ok(true) => {}
        Ok(false) => return Err(GotEnd::Cut),
        Err(stop) => return Err(stopped(stop)),
    }
    inbox.drop_front(head.size);
    let Ok(body) = inbox.take_front(alloc, count) else {
        return Err(GotEnd::OutOfMemory);
    };
    Ok(Got {
        status: head.status,
        front: head.front,
        nonce: head.nonce,
        body,
    })
}
