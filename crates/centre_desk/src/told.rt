//! What a request is told.
ghost use Rattle.std.specs.Prelude.{◌≡◌, IfOk, None};
ghost use Rattle.centre_desk.specs.Answering.{said_as};
ghost use Rattle.centre_desk.specs.Faults.{fault_body};
ghost use Rattle.http_replies.specs.Replies.{IsSendable};
ghost use Rattle.centre_desk.specs.Told.{challenge_at, challenge_for, allow_for, reply_from, head_reply};

use crate::fault::Fault;
use access_digest::Denial;
use exact_time::{Bytes, Moment, OutOfMemory};
use http_digest::{Challenge, Secret, challenge};
use http_replies::{Allow, BodyKind, Reply};
use http_wire::{HeadFault, Request};
use std::alloc::Global;

/// What a request is told.
#[derive(Debug, Drop)]
pub enum Told {
    /// What it asks for.
    Body { kind: BodyKind, bytes: Bytes },
    /// That there is nothing of it.
    Nothing,
    /// Why it isn't given it.
    Refused(Fault),
}

/// What a request is told, over how many entries, and the number of the entry that it added.
#[derive(Debug, Drop)]
pub(crate) struct Said {
    pub(crate) told: Told,
    pub(crate) front: u64,
    pub(crate) entry: Option<u64>,
}

impl Said {
    /// That a request is refused, over so many entries.
    pub(crate) fn refused(front: u64, fault: Fault) -> Said
        ensures { result ≡ said_as (Told.Refused fault) front None }
    {
        Said {
            told: Told::Refused(fault),
            front,
            entry: None,
        }
    }
}

fn challenge_at(moment: Moment, secret: &Secret, stale: bool) -> Challenge
    ensures { result ≡ challenge_at moment secret.now stale }
{
    challenge(secret, moment, stale)
}

// How to ask again with credentials, where the credentials weren't read or their nonce is old.
fn challenge_for(fault: Fault, moment: Moment, secret: &Secret) -> Option<Challenge>
    ensures { result ≡ challenge_for fault moment secret.now }
{
    match fault {
        Fault::Denied(Denial::Absent | Denial::Unreadable) => {
            Some(challenge_at(moment, secret, false))
        }
        Fault::Denied(Denial::Stale) => Some(challenge_at(moment, secret, true)),
        _ => None,
    }
}

fn allow_for(fault: Fault) -> Option<Allow>
    ensures { result ≡ allow_for fault }
{
    match fault {
        Fault::NoMethod(methods) => Some(methods),
        _ => None,
    }
}

fn fault_body(alloc: Global, fault: Fault) -> Result<Bytes, OutOfMemory>
    ensures { IfOk result (λ body. body ≡ fault_body fault) }
{
    let text = format!(in alloc; "Error {}: {fault}\n", fault.status())?;
    Ok(Bytes::from_vec(text.into_bytes()))
}

/// The reply that tells it to a request, over so many entries.
pub(crate) fn reply_from(
    alloc: Global,
    told: Told,
    front: u64,
    request: &Request,
    moment: Moment,
    secret: &Secret,
) -> Result<Reply, OutOfMemory>
    ensures reply { IfOk result (λ reply. reply ≡ reply_from told front request.now moment secret.now) }
    ensures sendable { IfOk result IsSendable }
{
    let close = request.close;
    let head_only = request.method.as_slice() == b"HEAD".as_slice();
    match told {
        Told::Body { kind, bytes } => Ok(Reply {
            status: 200,
            kind,
            challenge: None,
            allow: None,
            front,
            body: bytes,
            close,
            head_only,
        }),
        Told::Nothing => Ok(Reply {
            status: 204,
            kind: BodyKind::Plain,
            challenge: None,
            allow: None,
            front,
            body: Bytes::new(alloc),
            close,
            head_only,
        }),
        Told::Refused(fault) => Ok(Reply {
            status: fault.status(),
            kind: BodyKind::Plain,
            challenge: challenge_for(fault, moment, secret),
            allow: allow_for(fault),
            front,
            body: fault_body(alloc, fault)?,
            close,
            head_only,
        }),
    }
}

/// The reply that a request is refused for its head, over so many entries. It closes, and has its body whatever the method
/// was.
pub fn head_reply(alloc: Global, fault: HeadFault, front: u64) -> Result<Reply, OutOfMemory>
    ensures reply { IfOk result (λ reply. reply ≡ head_reply fault front) }
    ensures sendable { IfOk result IsSendable }
{
    let fault = Fault::Head(fault);
    Ok(Reply {
        status: fault.status(),
        kind: BodyKind::Plain,
        challenge: None,
        allow: None,
        front,
        body: fault_body(alloc, fault)?,
        close: true,
        head_only: false,
    })
}
