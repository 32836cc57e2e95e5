//! The fields of an entry, one by one.
ghost use Rattle.std.specs.Prelude.{◌≡◌, true, IfOk};
ghost use Rattle.std.specs.Int.{w32, w64};
ghost use Rattle.epochs.specs.Fields.{is_user_name};
ghost use Rattle.archive_entry.specs.Bodies.{IsCounted};
ghost use Rattle.archive_entry.specs.Format.{is_name_size, is_body_size};
ghost use Rattle.archive_entry.specs.Reading.{Gives, number_at, name_of, name_at, kind_at, body_of, body_at, head_at, tail_at};

use crate::bodies::records_of;
use crate::entry::Kind;
use crate::fault::Unread;
use epochs::is_user_name;
use exact_time::{Bytes, Moment, OutOfMemory, Text};
use std::alloc::Global;

// How many bytes a body may have.
const MOST_BYTES: u32 = 1_048_576;

fn u32_at(bytes: &[u8]) -> Result<(u32, &[u8]), Unread>
    ensures { Gives (λ x. (x.0, x.1.now)) result (number_at w32 bytes.now) }
{
    if bytes.len() < 4 {
        return Err(Unread::Bad(bytes.len()));
    }
    let (front, rest) = bytes.split_at(4);
    let number = u32::from_be_bytes([front[0], front[1], front[2], front[3]]);
    Ok((number, rest))
}

fn u64_at(bytes: &[u8]) -> Result<(u64, &[u8]), Unread>
    ensures { Gives (λ x. (x.0, x.1.now)) result (number_at w64 bytes.now) }
{
    if bytes.len() < 8 {
        return Err(Unread::Bad(bytes.len()));
    }
    let (front, rest) = bytes.split_at(8);
    let number = u64::from_be_bytes([
        front[0], front[1], front[2], front[3], front[4], front[5], front[6], front[7],
    ]);
    Ok((number, rest))
}

fn is_name_size(size: u8) -> bool
    ensures { result ≡ is_name_size size }
{
    1 <= size && size <= 32
}

// The text of a user's name, whose bytes are ASCII and so UTF-8.
fn text_of(alloc: Global, name: &[u8]) -> Result<Text, OutOfMemory>
    requires { is_user_name name.now ≡ true }
    ensures { IfOk result (λ text. text ≡ name.now) }
{
    let mut text = Text::new(alloc);
    text.push(str::from_utf8(name).unwrap())?;
    Ok(text)
}

fn name_of(alloc: Global, size: usize, rest: &[u8]) -> Result<(Text, &[u8]), Unread>
    ensures { Gives (λ x. (x.0, x.1.now)) result (name_of size rest.now) }
{
    if rest.len() < size || !is_user_name(&rest[..size]) {
        return Err(Unread::Bad(rest.len()));
    }
    let (name, behind) = rest.split_at(size);
    Ok((text_of(alloc, name)?, behind))
}

fn name_at(alloc: Global, bytes: &[u8]) -> Result<(Text, &[u8]), Unread>
    ensures { Gives (λ x. (x.0, x.1.now)) result (name_at bytes.now) }
{
    let [size, rest @ ..] = bytes else {
        return Err(Unread::Bad(0));
    };
    if !is_name_size(*size) {
        return Err(Unread::Bad(bytes.len()));
    }
    name_of(alloc, *size as usize, rest)
}

fn kind_at(bytes: &[u8]) -> Result<(Kind, &[u8]), Unread>
    ensures { Gives (λ x. (x.0, x.1.now)) result (kind_at bytes.now) }
{
    match bytes {
        [1, rest @ ..] => Ok((Kind::Batch, rest)),
        [2, rest @ ..] => Ok((Kind::Revise, rest)),
        _ => Err(Unread::Bad(bytes.len())),
    }
}

fn is_body_size(size: u32) -> bool
    ensures { result ≡ is_body_size size }
{
    1 <= size && size <= MOST_BYTES
}

// A copy of the bytes, whose parts are shared.
fn bytes_of(alloc: Global, bytes: &[u8]) -> Result<Bytes, OutOfMemory>
    ensures { IfOk result (λ copy. copy ≡ bytes.now) }
{
    let mut copy = Bytes::new(alloc);
    copy.extend(bytes)?;
    copy.share()
}

fn body_of(
    alloc: Global,
    kind: Kind,
    size: usize,
    rest: &[u8],
) -> Result<((Bytes, usize), &[u8]), Unread>
    ensures gives { Gives (λ x. (x.0.0, x.1.now)) result (body_of kind size rest.now) }
    ensures counted { IfOk result (λ x. IsCounted kind x.0.0 x.0.1) }
{
    if rest.len() < size {
        return Err(Unread::Bad(rest.len()));
    }
    let (body, behind) = rest.split_at(size);
    let Some(records) = records_of(alloc, kind, body)? else {
        return Err(Unread::Bad(rest.len()));
    };
    Ok(((bytes_of(alloc, body)?, records), behind))
}

#[tactic(auto, unfolding(crate::specs::Reading::body_at))]
fn body_at(alloc: Global, kind: Kind, bytes: &[u8]) -> Result<((Bytes, usize), &[u8]), Unread>
    ensures gives { Gives (λ x. (x.0.0, x.1.now)) result (body_at kind bytes.now) }
    ensures counted { IfOk result (λ x. IsCounted kind x.0.0 x.0.1) }
{
    let (size, rest) = u32_at(bytes)?;
    if !is_body_size(size) {
        return Err(Unread::Bad(bytes.len()));
    }
    body_of(alloc, kind, size as usize, rest)
}

/// The fields before the kind.
#[derive(Drop)]
pub struct Head {
    pub number: u64,
    pub moment: Moment,
    pub author: Text,
    pub seq: u64,
}

/// The fields before the kind, and the bytes behind them.
#[tactic(auto, unfolding(crate::specs::Reading::head_at))]
pub fn head_at(alloc: Global, bytes: &[u8]) -> Result<(Head, &[u8]), Unread>
    ensures { Gives (λ x. (record { number = x.0.number; moment = x.0.moment; author = x.0.author; seq = x.0.seq }, x.1.now)) result (head_at bytes.now) }
{
    let (number, rest) = u64_at(bytes)?;
    let (bits, rest) = u64_at(rest)?;
    let (author, rest) = name_at(alloc, rest)?;
    let (seq, rest) = u64_at(rest)?;
    let moment = Moment {
        micros: bits.cast_signed(),
    };
    let head = Head {
        number,
        moment,
        author,
        seq,
    };
    Ok((head, rest))
}

/// The kind, the body, how many records it has, and the bytes behind them.
#[tactic(auto, unfolding(crate::specs::Reading::tail_at))]
pub fn tail_at(alloc: Global, bytes: &[u8]) -> Result<((Kind, Bytes, usize), &[u8]), Unread>
    ensures gives { Gives (λ x. ((x.0.0, x.0.1), x.1.now)) result (tail_at bytes.now) }
    ensures counted { IfOk result (λ x. IsCounted x.0.0 x.0.1 x.0.2) }
{
    let (kind, rest) = kind_at(bytes)?;
    let ((body, records), rest) = body_at(alloc, kind, rest)?;
    Ok(((kind, body, records), rest))
}
