//! What is heard of a primary on one link.
ghost use Rattle.std.specs.Prelude.{◌≡◌, ℕ, List, true, IfOk, OnErr};
ghost use Rattle.epochs.specs.Fields.{is_user_name};
ghost use Rattle.streams.specs.Effects.{WritesPart};
ghost use Rattle.http_answers.specs.Requests.{request_bytes};
ghost use Rattle.http_answers.specs.Hearing.{answered};
ghost use Rattle.follow_round.specs.Hearing.{HeardOn, WrotePart, second_says};
ghost use Rattle.follow_round.specs.Steps.{Exchanged, HeardBehind, ended_so};

use crate::asking::{first_asked, second_asked};
use crate::heard::Heard;
use exact_time::{OutOfMemory, Text};
use http_answers::{Asked, Got, GotEnd, read_reply, write_request};
use http_replies::LinkFault;
use http_wire::Inbox;
use std::alloc::Global;
use streams::Link;

// The most bytes of a reply's body.
const MOST_BODY: u64 = 67_108_864;

// Writes a request and reads its reply.
fn exchange<L: Link>(
    alloc: Global,
    link: &mut L,
    inbox: &mut Inbox,
    asked: &Asked,
) -> Result<Got, GotEnd>
    ensures { Exchanged (request_bytes asked.now) (L.view link.old) (L.view link.new) inbox.old inbox.new result }
{
    match write_request(link, asked) {
        Ok(()) => {}
        Err(LinkFault) => return Err(GotEnd::LinkFault),
    }
    read_reply(alloc, link, inbox, MOST_BODY)
}

// What is heard where no reply came.
fn ended(why: GotEnd) -> Result<Heard, OutOfMemory>
    ensures { result ≡ ended_so why }
{
    match why {
        GotEnd::BadReply | GotEnd::TooLong(_) => Ok(Heard::BadReply),
        GotEnd::Cut | GotEnd::LinkFault => Ok(Heard::Lost),
        GotEnd::OutOfMemory => Err(OutOfMemory),
    }
}

// What the second reply says.
fn said(got: Got) -> Heard
    ensures { (rest : List ℕ) → result ≡ second_says (answered got rest) }
{
    match got.status {
        200 => Heard::Brought(got.body),
        204 => Heard::CaughtUp,
        status => Heard::Peer(status),
    }
}

// Asks with credentials, and answers what is heard.
fn hear_second<L: Link>(
    alloc: Global,
    link: &mut L,
    inbox: &mut Inbox,
    asked: &Asked,
) -> Result<Heard, OutOfMemory>
    ensures heard { IfOk result (HeardBehind (request_bytes asked.now) (L.view link.old) (L.view link.new) inbox.old) }
    ensures short { OnErr result (WritesPart (L.view link.old).written (L.view link.new).written (request_bytes asked.now)) }
{
    match exchange(alloc, link, inbox, asked) {
        Ok(got) => Ok(said(got)),
        Err(why) => ended(why),
    }
}

/// Asks for the entries from that number on, first without credentials and then with the nonce of the challenge, and answers what
/// is heard. Nothing is heard only for want of memory.
pub(crate) fn hear<L: Link>(
    alloc: Global,
    link: &mut L,
    user: &Text,
    ha1: &[u8; 32],
    wanted: u64,
) -> Result<Heard, OutOfMemory>
    requires { is_user_name user.now ≡ true }
    ensures heard { IfOk result (HeardOn user.now ha1.now wanted (L.view link.old) (L.view link.new)) }
    ensures short { OnErr result (WrotePart user.now ha1.now wanted (L.view link.old) (L.view link.new)) }
{
    let first = first_asked(alloc, wanted)?;
    let mut inbox = Inbox::new(alloc)?;
    let got = match exchange(alloc, link, &mut inbox, &first) {
        Ok(got) => got,
        Err(why) => return ended(why),
    };
    let Got { status, nonce, .. } = got;
    if status != 401 {
        return Ok(Heard::Peer(status));
    }
    let Some(nonce) = nonce else {
        return Ok(Heard::BadReply);
    };
    let second = second_asked(alloc, user, ha1, wanted, &nonce)?;
    hear_second(alloc, link, &mut inbox, &second)
}
