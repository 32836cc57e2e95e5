//! The lines of a head.
ghost use Rattle.std.specs.Prelude.{◌≡◌, ◌≤◌, ◌+◌, ◌++◌, length, true, flat_map};
ghost use Rattle.http_digest.specs.Challenge.{challenge_text};
ghost use Rattle.http_replies.specs.HeadTexts.{head_limit};
ghost use Rattle.http_replies.specs.Replies.{is_status, phrase, status_line, media_type, body_of, content_fields, challenge_fields, allow_text, allow_fields, close_fields, field_line};

use crate::head_text::HeadText;
use crate::reply::{Allow, BodyKind, Reply};
use http::StatusCode;
use http_digest::Challenge;
use itoa::Buffer;

// The phrase of a status.
fn phrase(status: u16) -> &'static str
    requires { is_status status ≡ true }
    ensures same { result.now ≡ phrase status }
    ensures short { length result.now ≤ 31 }
{
    match StatusCode::from_u16(status) {
        Ok(code) => code.canonical_reason().unwrap_or(""),
        Err(_) => "",
    }
}

// A head that has its first line.
pub(crate) fn begun(status: u16) -> HeadText
    requires { is_status status ≡ true }
    ensures line { result ≡ status_line status }
    ensures size { length result ≤ 48 }
{
    let mut head = HeadText::new();
    let mut buffer = Buffer::new();
    head.push(b"HTTP/1.1 ");
    head.push(buffer.format(status).as_bytes());
    head.push(b" ");
    head.push(phrase(status).as_bytes());
    head.push(b"\r\n");
    head
}

fn media_type(kind: BodyKind) -> &'static [u8]
    ensures same { result.now ≡ media_type kind }
    ensures short { length result.now ≤ 26 }
{
    match kind {
        BodyKind::Miniseed => b"application/vnd.fdsn.mseed",
        BodyKind::Plain => b"text/plain",
        BodyKind::Octets => b"application/octet-stream",
    }
}

// The body that the reply has.
pub(crate) fn body_of(reply: &Reply) -> &[u8]
    ensures { result.now ≡ body_of reply.now }
{
    match reply.status {
        500 => b"Error 500: out of memory\n",
        204 => b"",
        _ => reply.body.as_slice(),
    }
}

// Says what the body is, and how long.
pub(crate) fn push_content(head: &mut HeadText, reply: &Reply)
    requires room { length head.old + 80 ≤ head_limit }
    ensures added { head.new ≡ head.old ++ flat_map field_line (content_fields reply.now) }
    ensures size { length head.new ≤ length head.old + 80 }
{
    if reply.status == 204 {
        return;
    }
    head.push_field(b"Content-Type", media_type(reply.kind));
    head.push_number(b"Content-Length", body_of(reply).len() as u64);
}

// The challenge as the value of its field.
fn push_challenge_text(head: &mut HeadText, challenge: &Challenge)
    requires room { length head.old + 116 ≤ head_limit }
    ensures added { head.new ≡ head.old ++ challenge_text challenge.now }
    ensures size { length head.new ≤ length head.old + 116 }
{
    head.push(b"Digest realm=\"FDSN\", qop=\"auth\", algorithm=MD5, nonce=\"");
    head.push(&challenge.nonce);
    head.push(b"\"");
    if challenge.stale {
        head.push(b", stale=true");
    }
}

// Asks for credentials.
pub(crate) fn push_challenge(head: &mut HeadText, status: u16, challenge: Option<Challenge>)
    requires room { length head.old + 136 ≤ head_limit }
    ensures added { head.new ≡ head.old ++ flat_map field_line (challenge_fields status challenge) }
    ensures size { length head.new ≤ length head.old + 136 }
{
    if status != 401 {
        return;
    }
    if let Some(challenge) = challenge {
        head.push(b"WWW-Authenticate: ");
        push_challenge_text(head, &challenge);
        head.push(b"\r\n");
    }
}

fn allow_text(allow: Allow) -> &'static [u8]
    ensures same { result.now ≡ allow_text allow }
    ensures short { length result.now ≤ 9 }
{
    match allow {
        Allow::Get => b"GET",
        Allow::Post => b"POST",
        Allow::Both => b"GET, POST",
    }
}

// Says which methods the path has.
pub(crate) fn push_allow(head: &mut HeadText, status: u16, allow: Option<Allow>)
    requires room { length head.old + 18 ≤ head_limit }
    ensures added { head.new ≡ head.old ++ flat_map field_line (allow_fields status allow) }
    ensures size { length head.new ≤ length head.old + 18 }
{
    if status != 405 {
        return;
    }
    if let Some(allow) = allow {
        head.push_field(b"Allow", allow_text(allow));
    }
}

// Says that the connection closes, where it does.
pub(crate) fn push_close(head: &mut HeadText, close: bool)
    requires room { length head.old + 19 ≤ head_limit }
    ensures added { head.new ≡ head.old ++ flat_map field_line (close_fields close) }
    ensures size { length head.new ≤ length head.old + 19 }
{
    if close {
        head.push_field(b"Connection", b"close");
    }
}
