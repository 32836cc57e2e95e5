//! Parses the head of a reply by `httparse`.
ghost use Rattle.std.specs.Prelude.{IfOk, IfSome, option_map, ◌≡◌, ◌≤◌, ◌<◌, ◌^◌, length, map, All};
ghost use Rattle.httparse.specs.Spans.{IsHeaderWithin, ResponseOverflows, header_bytes};
ghost use Rattle.http_answers.specs.ReplyHeads.{said_by, then_read, front_in as front_said, nonce_in as nonce_said, size_of};
ghost use Rattle.http_answers.specs.Reading.{IsBounded, IsHeadRead, field_limit, head_said};

use crate::values::{front_in, nonce_in, text_of, value_of};
use exact_time::{OutOfMemory, Text};
use http_wire::length_in;
use httparse::spans::{EMPTY_HEADER_SPAN, HeaderSpan, parse_response};
use httparse::{Error, Status};
use std::alloc::Global;

// How many fields are read.
const FIELD_LIMIT: usize = 64;

/// What the head of a reply says, and how many bytes it is. `more` is how long the body is, where that is said.
#[derive(Drop)]
pub struct Head {
    pub size: usize,
    pub status: u16,
    pub front: Option<u64>,
    pub nonce: Option<Text>,
    pub more: Option<u64>,
}

/// What a parse of what came so far gives.
#[derive(Drop)]
pub enum HeadRead {
    /// It begins with this head.
    Whole(Head),
    /// It begins with a head that has more fields than are read.
    Crowded,
    /// It begins with none yet.
    Short,
    /// It never will.
    Never,
}

// How many bytes the body has.
fn body_size(status: u16, told: Option<&[u8]>) -> Option<u64>
    ensures size { result ≡ size_of status (option_map (λ value. value.now) told.entry) }
    ensures bound { IfSome result (λ n. n < 10 ^ 18) }
{
    if status == 204 {
        return Some(0);
    }
    length_in(told?)
}

// What these fields say.
fn head_of(
    alloc: Global,
    text: &[u8],
    size: usize,
    status: u16,
    spans: &[HeaderSpan],
) -> Result<Head, OutOfMemory>
    requires within { All (IsHeaderWithin (length text.now)) spans.now }
    ensures said { IfOk result (λ head. head_said head ≡ said_by status (map (header_bytes text.now) spans.now)) }
    ensures size { IfOk result (λ head. head.size ≡ size) }
    ensures bound { IfOk result (λ head. IfSome head.more (λ n. n < 10 ^ 18)) }
{
    let front = front_of(value_of(text, spans, b"x-archive-front"));
    let nonce = nonce_of(alloc, value_of(text, spans, b"www-authenticate"))?;
    let more = body_size(status, value_of(text, spans, b"content-length"));
    Ok(Head {
        size,
        status,
        front,
        nonce,
        more,
    })
}

// The number of entries that a value tells.
fn front_of(value: Option<&[u8]>) -> Option<u64>
    ensures { result ≡ then_read front_said (option_map (λ value. value.now) value.entry) }
{
    front_in(value?)
}

// The nonce that a value has.
fn nonce_of(alloc: Global, value: Option<&[u8]>) -> Result<Option<Text>, OutOfMemory>
    ensures { IfOk result (λ nonce. nonce ≡ then_read nonce_said (option_map (λ value. value.now) value.entry)) }
{
    let Some(value) = value else {
        return Ok(None);
    };
    match nonce_in(value) {
        Some(digits) => Ok(Some(text_of(alloc, digits)?)),
        None => Ok(None),
    }
}

// What they begin with, where that has too many fields for a first parse. A field has three bytes or more.
fn crowded(alloc: Global, text: &[u8]) -> Result<HeadRead, OutOfMemory>
    requires { ResponseOverflows field_limit text.now }
    ensures read { IfOk result (IsHeadRead text.now) }
    ensures bound { IfOk result IsBounded }
{
    let mut spans = vec![in alloc; EMPTY_HEADER_SPAN; text.len() / 3]?;
    match parse_response(text, &mut spans) {
        Ok(Status::Complete(_)) => Ok(HeadRead::Crowded),
        Ok(Status::Partial) => Ok(HeadRead::Short),
        Err(Error::TooManyHeaders) => Ok(HeadRead::Never),
        Err(_) => Ok(HeadRead::Never),
    }
}

// What the bytes that came so far begin with.
pub(crate) fn parse(alloc: Global, text: &[u8]) -> Result<HeadRead, OutOfMemory>
    ensures read { IfOk result (IsHeadRead text.now) }
    ensures bound { IfOk result IsBounded }
{
    let mut spans = [EMPTY_HEADER_SPAN; FIELD_LIMIT];
    match parse_response(text, &mut spans) {
        Ok(Status::Complete(found)) => {
            let head = head_of(alloc, text, found.len, found.code, &spans[..found.headers])?;
            Ok(HeadRead::Whole(head))
        }
        Ok(Status::Partial) => Ok(HeadRead::Short),
        Err(Error::TooManyHeaders) => crowded(alloc, text),
        Err(_) => Ok(HeadRead::Never),
    }
}
