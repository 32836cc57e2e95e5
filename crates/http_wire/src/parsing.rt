//! Parses a block by `httparse`.
ghost use Rattle.std.specs.Prelude.{◌≡◌, ◌≤◌, ◌<◌, List, ℕ, true, [], IfOk, MatchBool, length, map, All};
ghost use Rattle.std.specs.List.{list_all};
ghost use Rattle.httparse.specs.Grammar.{HasNoRequest, ReadsRequest, RequestHead, is_token};
ghost use Rattle.httparse.specs.Spans.{IsHeaderWithin, header_bytes};
ghost use Rattle.http_wire.specs.Blocks.{IsBlock};
ghost use Rattle.http_wire.specs.FieldPairs.{as_pair};
ghost use Rattle.http_wire.specs.Heads.{HeadView, in_lower_case, is_target};
ghost use Rattle.http_wire.specs.HeadReading.{head_view, IsHeadRead};
ghost use Rattle.http_wire.specs.Spanned.{is_lawful_pair};

use crate::field::Field;
use crate::fields::{copied, field_of};
use crate::head::{Head, HeadRead};
use exact_time::{Many, OutOfMemory};
use httparse::spans::{EMPTY_HEADER_SPAN, HeaderSpan, parse_request};
use httparse::{Error, Status};
use std::alloc::Global;

// How many fields are read.
const FIELD_LIMIT: usize = 64;

// The fields that the spans cover.
fn spanned_fields(
    alloc: Global,
    block: &[u8],
    spans: &[HeaderSpan],
) -> Result<Many<Field>, OutOfMemory>
    requires within { All (IsHeaderWithin (length block.now)) spans.now }
    requires lawful { list_all is_lawful_pair (map (header_bytes block.now) spans.now) ≡ true }
    ensures { IfOk result (λ fields. map as_pair fields ≡ map in_lower_case (map (header_bytes block.now) spans.now)) }
{
    let mut fields = Many::new(alloc);
    'spans: for span in spans {
        fields.push(field_of(alloc, span.name.of(block), span.value.of(block))?)?;
    }
    Ok(fields)
}

// The head of these parts.
fn head_of(
    alloc: Global,
    method: &[u8],
    target: &[u8],
    minor: u8,
    fields: Many<Field>,
) -> Result<Head, OutOfMemory>
    requires method { is_token method.now ≡ true }
    requires target { is_target target.now ≡ true }
    ensures { IfOk result (λ head. head_view head ≡ record { method = method.now; target = target.now; minor = minor; fields = map as_pair fields }) }
{
    let method = copied(alloc, method)?;
    let target = copied(alloc, target)?;
    Ok(Head {
        method,
        target,
        minor,
        fields,
    })
}

// Whether a head of any number of fields begins the block. A field has three bytes or more.
fn is_head(alloc: Global, block: &[u8]) -> Result<bool, OutOfMemory>
    ensures { IfOk result (λ is. MatchBool is ((tree : RequestHead) × (rest : List ℕ) × ReadsRequest block.now tree rest) (HasNoRequest block.now)) }
{
    let mut spans = vec![in alloc; EMPTY_HEADER_SPAN; block.len() / 3]?;
    match parse_request(block, &mut spans) {
        Ok(Status::Complete(_)) => Ok(true),
        Ok(Status::Partial) => Ok(false),
        Err(_) => Ok(false),
    }
}

// What a block that has too many fields for a first parse gives.
fn crowded_or_bad(alloc: Global, block: &[u8]) -> Result<HeadRead, OutOfMemory>
    requires whole { IsBlock block.now (length block.now) }
    requires crowded { (tree : RequestHead) (rest : List ℕ) → ReadsRequest block.now tree rest → 64 < length tree.fields }
    ensures { IfOk result (IsHeadRead block.now) }
{
    if is_head(alloc, block)? {
        Ok(HeadRead::Crowded)
    } else {
        Ok(HeadRead::Bad)
    }
}

// What a block is as a head. Where a field is bad, also one behind the last that is read, it is none.
pub(crate) fn read_head(alloc: Global, block: &[u8]) -> Result<HeadRead, OutOfMemory>
    requires { IsBlock block.now (length block.now) }
    ensures { IfOk result (IsHeadRead block.now) }
{
    let mut spans = [EMPTY_HEADER_SPAN; FIELD_LIMIT];
    match parse_request(block, &mut spans) {
        Ok(Status::Complete(found)) => {
            let fields = spanned_fields(alloc, block, &spans[..found.headers])?;
            let head = head_of(
                alloc,
                found.method.of(block),
                found.path.of(block),
                found.version,
                fields,
            )?;
            Ok(HeadRead::Whole(head))
        }
        Ok(Status::Partial) => Ok(HeadRead::Bad),
        Err(Error::TooManyHeaders) => crowded_or_bad(alloc, block),
        Err(_) => Ok(HeadRead::Bad),
    }
}
