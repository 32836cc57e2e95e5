//! Steps on replies.
ghost use Rattle.std.specs.Prelude.{◌≡◌, true};
ghost use Rattle.http_replies.specs.Replies.{is_status, IsSendable};

use crate::given::{next_word, text_of};
use crate::wire::{bytes_of, calls_of};
use case_lines::escaped;
use exact_time::{Bytes, Many, OutOfMemory, Text};
use http_digest::Challenge;
use http_replies::{Allow, BodyKind, Reply, write_reply};
use std::alloc::Global;
use std::str::Split;
use streams::MemoryLink;

// The status that a word is, and else 200.
fn status_of(word: &str) -> u16
    ensures { is_status result ≡ true }
{
    match word {
        "204" => 204,
        "400" => 400,
        "401" => 401,
        "403" => 403,
        "404" => 404,
        "405" => 405,
        "409" => 409,
        "411" => 411,
        "413" => 413,
        "414" => 414,
        "431" => 431,
        "500" => 500,
        "503" => 503,
        "507" => 507,
        _ => 200,
    }
}

fn kind_of(word: &str) -> BodyKind {
    match word {
        "miniseed" => BodyKind::Miniseed,
        "octets" => BodyKind::Octets,
        _ => BodyKind::Plain,
    }
}

fn allow_of(word: &str) -> Allow {
    match word {
        "post" => Allow::Post,
        "both" => Allow::Both,
        _ => Allow::Get,
    }
}

// The reply that words say: the status, the kind of the body, the front, what is allowed, and whether it closes, is a head alone or has a
// stale challenge. What a status may ask for is there.
fn reply_of(words: &mut Split<'_, char>, body: Bytes) -> Reply
    ensures { IsSendable result }
{
    let status = status_of(next_word(words));
    let kind = kind_of(next_word(words));
    let front = next_word(words).parse().unwrap_or(0);
    let allow = allow_of(next_word(words));
    let mark = next_word(words);
    Reply {
        status,
        kind,
        challenge: Some(Challenge {
            nonce: *b"0000000065e11a800123456789abcdef0123456789abcdef",
            stale: mark == "stale",
        }),
        allow: Some(allow),
        front,
        body,
        close: mark == "close",
        head_only: mark == "head",
    }
}

// What was written, of it the first line alone if that is asked.
fn put_told(
    alloc: Global,
    call: &str,
    told: Option<&[u8]>,
    out: &mut Text,
) -> Result<(), OutOfMemory> {
    let text = escaped(alloc, told.unwrap_or(b"not told"))?;
    match call {
        "line" => out.push(text.as_str().split("\\n").next().unwrap_or("")),
        _ => out.push(text.as_str()),
    }
}

// What is written of a reply to a link.
fn put_reply(
    alloc: Global,
    call: &str,
    reply: &Reply,
    link: &mut MemoryLink,
    out: &mut Text,
) -> Result<(), OutOfMemory>
    requires { IsSendable reply.now }
{
    out.push(match write_reply(link, reply) {
        Ok(()) => "ok ",
        Err(_) => "fault ",
    })?;
    put_told(alloc, call, link.told(), out)
}

/// What a step on replies gives. The first word is the number of the call of the link that fails.
pub fn show(alloc: Global, call: &str, given: &[u8], out: &mut Text) -> Result<(), OutOfMemory> {
    let (head, body) = text_of(given).split_once('|').unwrap_or(("", ""));
    let mut words = head.split(' ');
    let body = bytes_of(alloc, body.as_bytes())?;
    let fails = calls_of(alloc, next_word(&mut words))?;
    let mut link = MemoryLink::new(alloc, Many::new(alloc), fails);
    put_reply(alloc, call, &reply_of(&mut words, body), &mut link, out)
}
