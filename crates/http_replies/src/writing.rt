//! Writes a reply to a link.
ghost use Rattle.std.specs.Prelude.{◌≡◌, ◌≤◌, length};
ghost use Rattle.http_replies.specs.HeadTexts.{head_limit};
ghost use Rattle.http_replies.specs.Replies.{IsSendable, reply_head, reply_bytes, sent_body};
ghost use Rattle.streams.specs.Effects.{PutsAll};

use crate::head_text::HeadText;
use crate::lines::{begun, body_of, push_allow, push_challenge, push_close, push_content};
use crate::reply::Reply;
use exact_time::Failed;
use std::error::Error;
use std::fmt;
use streams::{Link, put_all};

/// The link failed while a reply was written.
#[derive(Clone, Copy, Debug, PartialEq, Eq)]
pub struct LinkFault;

impl fmt::Display for LinkFault {
    fn fmt<W: fmt::Write>(&self, f: &mut fmt::Formatter<W>) -> fmt::Result {
        f.write_str("link fault")
    }
}

impl Error for LinkFault {}

impl From<Failed> for LinkFault {
    fn from(_failed: Failed) -> LinkFault {
        LinkFault
    }
}

// The head of a reply.
fn head_of(reply: &Reply) -> HeadText
    requires { IsSendable reply.now }
    ensures { result ≡ reply_head reply.now }
{
    let mut head = begun(reply.status);
    push_content(&mut head, reply);
    push_challenge(&mut head, reply.status, reply.challenge);
    push_allow(&mut head, reply.status, reply.allow);
    head.push_number(b"X-Archive-Front", reply.front);
    push_close(&mut head, reply.close);
    head.push(b"\r\n");
    head
}

// What follows the head.
fn sent_body(reply: &Reply) -> &[u8]
    ensures { result.now ≡ sent_body reply.now }
{
    if reply.head_only { b"" } else { body_of(reply) }
}

/// Writes a reply (RFC 9112, section 4): its head, which has 512 bytes at most, in one piece, and then its
/// body, in as many calls as the link makes of them. Takes no memory. Where the link fails, a first part
/// was written.
///
/// The status must be one of those of [`Reply`]; a 401 must have a challenge, and a 405
/// say what is allowed.
pub fn write_reply<L: Link>(link: &mut L, reply: &Reply) -> Result<(), LinkFault>
    requires sendable { IsSendable reply.now }
    ensures written { PutsAll (L.view link.old) (L.view link.new) result (reply_bytes reply.now) }
    ensures head { length (reply_head reply.now) ≤ head_limit }
{
    let head = head_of(reply);
    put_all(link, head.as_slice())?;
    put_all(link, sent_body(reply))?;
    Ok(())
}
