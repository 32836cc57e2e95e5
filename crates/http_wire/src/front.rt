//! Reads the front of a request: lets blank bytes go, and looks for its block.
ghost use Rattle.std.specs.Prelude.{◌≡◌, [], ◌≤◌, ◌<◌, ◌^◌, length, drop, IfOk, Err};
ghost use Rattle.http_wire.specs.Fronts.{after_space, has_long_target};
ghost use Rattle.http_wire.specs.Taking.{skip_blank, Skipped, AtEndIf, FrontRead, IsCutFront, TakesOnlyIf, front_size};
ghost use Rattle.streams.specs.Effects.{OnlyTakes};

use crate::block::{BlockEnd, read_block};
use crate::inbox::Inbox;
use crate::taking::{TakeStop, hold_some};
use streams::Link;

/// A front of what is held, and how it ends.
#[derive(Clone, Copy, Debug, PartialEq, Eq)]
pub struct Front {
    pub kind: BlockEnd,
    pub size: usize,
}

fn skip_blank(text: &[u8]) -> &[u8]
    ensures same { result.now ≡ skip_blank text.now }
    ensures shorter { length result.now ≤ length text.now }
{
    let mut left = text;
    'blanks: while let [b'\r' | b'\n', rest @ ..] = left {
        left = rest;
    }
    left
}

// Takes a piece where nothing is held, and lets go of the blank bytes. Answers how many these were.
fn skip_piece<L: Link>(link: &mut L, held: &mut Inbox) -> Result<usize, TakeStop>
    ensures skipped { IfOk result (λ n. Skipped 1 (L.view link.old).left (L.view link.new).left held.old n held.new) }
    ensures small { IfOk result (λ n. n < 2 ^ 63) }
    ensures waits { TakesOnlyIf (held.old ≡ []) (L.view link.old).left (L.view link.new).left }
    ensures takes { OnlyTakes (L.view link.old) (L.view link.new) (result ≡ Err TakeStop.LinkFault) }
{
    hold_some(link, held)?;
    let count = held.len() - skip_blank(held.as_slice()).len();
    held.drop_front(count);
    Ok(count)
}

// Lets go of the blank bytes before a request.
fn skip_blanks<L: Link>(link: &mut L, held: &mut Inbox, limit: usize) -> Result<usize, TakeStop>
    requires room { 0 < limit }
    requires small { limit < 2 ^ 32 }
    ensures skipped { IfOk result (λ n. Skipped limit (L.view link.old).left (L.view link.new).left held.old n held.new) }
    ensures waits { TakesOnlyIf (IsCutFront limit held.old) (L.view link.old).left (L.view link.new).left }
    ensures takes { OnlyTakes (L.view link.old) (L.view link.new) (result ≡ Err TakeStop.LinkFault) }
{
    let mut skipped = 0;
    'pieces: loop {
        let count = skip_piece(link, held)?;
        skipped += count;
        if count == 0 {
            return Ok(skipped);
        }
        if !held.is_empty() {
            return Ok(skipped);
        }
        if limit <= skipped {
            return Ok(skipped);
        }
    }
}

// How many bytes of what is held are the front.
fn front_size(kind: BlockEnd, held: usize, room: usize) -> usize
    ensures { result ≡ front_size kind held room }
{
    match kind {
        BlockEnd::Block(end) => end,
        BlockEnd::Long => room,
        BlockEnd::Ended => held,
    }
}

// Takes from the link until it is known how the front of a request ends.
pub(crate) fn read_front<L: Link>(
    link: &mut L,
    held: &mut Inbox,
    limit: usize,
) -> Result<Front, TakeStop>
    requires room { 0 < limit }
    requires small { limit < 2 ^ 32 }
    ensures front { IfOk result (FrontRead limit (L.view link.old).left (L.view link.new).left held.old held.new) }
    ensures end { IfOk result (λ front. AtEndIf (L.view link.new).left front.kind) }
    ensures waits { TakesOnlyIf (IsCutFront limit held.old) (L.view link.old).left (L.view link.new).left }
    ensures takes { OnlyTakes (L.view link.old) (L.view link.new) (result ≡ Err TakeStop.LinkFault) }
{
    let skipped = skip_blanks(link, held, limit)?;
    if limit <= skipped {
        return Ok(Front {
            kind: BlockEnd::Long,
            size: 0,
        });
    }
    if held.is_empty() {
        return Ok(Front {
            kind: BlockEnd::Ended,
            size: 0,
        });
    }
    let room = limit - skipped;
    let kind = read_block(link, held, room)?;
    let size = front_size(kind, held.len(), room);
    Ok(Front { kind, size })
}

// What follows the first space of the first line.
fn after_space(text: &[u8]) -> &[u8]
    ensures { result.now ≡ after_space text.now }
{
    let mut left = text;
    'bytes: while let [byte, rest @ ..] = left {
        if *byte == b' ' {
            return rest;
        }
        if *byte == b'\n' {
            return &[];
        }
        left = rest;
    }
    &[]
}

// How many bytes a target may have.
const TARGET_LIMIT: usize = 8000;

// Whether the target is longer than one may be.
pub(crate) fn has_long_target(text: &[u8]) -> bool
    ensures { result ≡ has_long_target text.now }
{
    let mut count: usize = 0;
    'bytes: for byte in after_space(text) {
        if *byte == b' ' || *byte == b'\r' || *byte == b'\n' {
            return count > TARGET_LIMIT;
        }
        count += 1;
    }
    count > TARGET_LIMIT
}
