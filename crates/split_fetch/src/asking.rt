//! Asks for a window on one link.
ghost use Rattle.std.specs.Prelude.{◌≡◌, ◌<◌, ◌^◌, ℕ, List, true, length, IfOk};
ghost use Rattle.http_wire.specs.FieldPairs.{as_pair};
ghost use Rattle.http_wire.specs.Heads.{is_lower_token, is_value};
ghost use Rattle.http_answers.specs.Hearing.{answered};
ghost use Rattle.http_answers.specs.Requests.{request_bytes};
ghost use Rattle.split_fetch.specs.Peers.{window_request, HasRecords, IsSaid, HeardOn};
ghost use Rattle.split_fetch.specs.Targets.{AreLists, CanBeAsked};

use crate::asked::Codes;
use crate::heard::Heard;
use crate::target::target_of;
use crate::window::Window;
use exact_time::{Bytes, Many, Moment, OutOfMemory};
use http_answers::{Asked, Got, GotEnd, read_reply, write_request};
use http_replies::LinkFault;
use http_wire::{Field, Inbox};
use mseed_header::{CutFault, cut_body};
use std::alloc::Global;
use streams::Link;

// The most bytes of a reply's body.
const MOST_BODY: u64 = 67_108_864;

fn bytes_of(alloc: Global, text: &[u8]) -> Result<Bytes, OutOfMemory>
    ensures { IfOk result (λ bytes. bytes ≡ text.now) }
{
    let mut bytes = Bytes::new(alloc);
    bytes.extend(text)?;
    Ok(bytes)
}

fn field_of(alloc: Global, name: &[u8], value: &[u8]) -> Result<Field, OutOfMemory>
    requires name { is_lower_token name.now ≡ true }
    requires value { is_value value.now ≡ true }
    ensures { IfOk result (λ field. as_pair field ≡ (name.now, value.now)) }
{
    Ok(Field {
        name: bytes_of(alloc, name)?,
        value: bytes_of(alloc, value)?,
    })
}

// The request for a window.
fn asked_for(alloc: Global, codes: &Codes, window: &Window) -> Result<Asked, OutOfMemory>
    requires lists { AreLists codes.now }
    requires window { CanBeAsked window.now }
    ensures { IfOk result (λ asked. request_bytes asked ≡ window_request codes.now window.now) }
{
    let mut fields = Many::new(alloc);
    fields.push(field_of(alloc, b"host", b"localhost")?)?;
    fields.push(field_of(alloc, b"connection", b"close")?)?;
    Ok(Asked {
        method: bytes_of(alloc, b"GET")?,
        target: target_of(alloc, codes, window)?,
        fields,
    })
}

// The records of an answer over so many entries.
fn records_said(alloc: Global, front: u64, body: Bytes) -> Result<Heard, OutOfMemory>
    requires { length body < 2 ^ 32 }
    ensures { IfOk result (HasRecords front body) }
{
    let body = body.share()?;
    match cut_body(alloc, &body, 0, Moment { micros: 0 }) {
        Ok(rows) => Ok(Heard::Got(front, rows)),
        Err(CutFault::Bad { .. }) => Ok(Heard::BadReply),
        Err(CutFault::OutOfMemory) => Err(OutOfMemory),
    }
}

// What a reply says.
fn said(alloc: Global, got: Got) -> Result<Heard, OutOfMemory>
    requires { length got.body < 2 ^ 32 }
    ensures { IfOk result (λ heard. (rest : List ℕ) → IsSaid (answered got rest) heard) }
{
    if got.status == 200 || got.status == 204 {
        return match got.front {
            Some(front) => records_said(alloc, front, got.body),
            None => Ok(Heard::BadReply),
        };
    }
    if got.status == 413 {
        return Ok(Heard::TooMuch);
    }
    Ok(Heard::Peer(got.status))
}

/// Asks for a window on a link, and answers what is heard. Nothing is heard only for want of memory.
pub(crate) fn ask<L: Link>(
    alloc: Global,
    link: &mut L,
    codes: &Codes,
    window: &Window,
) -> Result<Heard, OutOfMemory>
    requires lists { AreLists codes.now }
    requires window { CanBeAsked window.now }
    ensures { IfOk result (HeardOn codes.now window.now (L.view link.old) (L.view link.new)) }
{
    let asked = asked_for(alloc, codes, window)?;
    let mut inbox = Inbox::new(alloc)?;
    match write_request(link, &asked) {
        Ok(()) => {}
        Err(LinkFault) => return Ok(Heard::Lost),
    }
    match read_reply(alloc, link, &mut inbox, MOST_BODY) {
        Ok(got) => said(alloc, got),
        Err(GotEnd::BadReply) => Ok(Heard::BadReply),
        Err(GotEnd::TooLong(_)) => Ok(Heard::BadReply),
        Err(GotEnd::Cut) => Ok(Heard::Lost),
        Err(GotEnd::LinkFault) => Ok(Heard::Lost),
        Err(GotEnd::OutOfMemory) => Err(OutOfMemory),
    }
}
