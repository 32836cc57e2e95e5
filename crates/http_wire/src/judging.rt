//! Judges a front: the tests of a head, in their order.
ghost use Rattle.std.specs.Prelude.{◌≡◌, length, Ok, IfOk, IfErr};
ghost use Rattle.http_wire.specs.Blocks.{IsBlock};
ghost use Rattle.http_wire.specs.HeadReading.{head_view, IsWholeBlock, StopsByBlock, StopsBySaying};
ghost use Rattle.http_wire.specs.Heads.{head_fault, end_behind, BlockSays, FrontSays};

use crate::block::BlockEnd;
use crate::ending::{HeadFault, Stop, StreamEnd};
use crate::fields::{body_length, has_bad_length, lacks_length};
use crate::front::has_long_target;
use crate::head::{Head, HeadRead};
use crate::parsing::read_head;
use std::alloc::Global;

// How many fields a head may have.
const FIELD_LIMIT: usize = 64;

// The first test that a head fails.
fn head_fault(most: u64, head: &Head) -> Option<HeadFault>
    ensures { result ≡ head_fault most (head_view head.now) }
{
    let fields = head.fields.as_slice();
    if fields.len() > FIELD_LIMIT {
        return Some(HeadFault::TooManyHeaders);
    }
    if has_bad_length(fields) {
        return Some(HeadFault::BadLength);
    }
    if lacks_length(head.method.as_slice(), fields) {
        return Some(HeadFault::NoLength);
    }
    let size = body_length(fields);
    if size > most {
        return Some(HeadFault::BodyTooLong(size));
    }
    None
}

fn refused(fault: HeadFault) -> Stop
    ensures { result ≡ Stop.Ended (StreamEnd.Head fault) }
{
    Stop::Ended(StreamEnd::Head(fault))
}

// The head of a block that stands all tests.
fn block_head(alloc: Global, most: u64, block: &[u8]) -> Result<Head, Stop>
    requires { IsBlock block.now (length block.now) }
    ensures ok { IfOk result (λ head. BlockSays most block.now (Ok (head_view head))) }
    ensures err { IfErr result (StopsByBlock most block.now) }
{
    let Ok(read) = read_head(alloc, block) else {
        return Err(Stop::OutOfMemory);
    };
    match read {
        HeadRead::Whole(head) => match head_fault(most, &head) {
            None => Ok(head),
            Some(fault) => Err(refused(fault)),
        },
        HeadRead::Crowded => Err(refused(HeadFault::TooManyHeaders)),
        HeadRead::Bad => Err(refused(HeadFault::BadHead)),
    }
}

fn end_behind(front: &[u8]) -> StreamEnd
    ensures { result ≡ end_behind front.now }
{
    match front {
        [] => StreamEnd::End,
        _ => StreamEnd::Cut,
    }
}

// The head of a front that stands all tests.
pub(crate) fn judged(alloc: Global, most: u64, front: &[u8], kind: BlockEnd) -> Result<Head, Stop>
    requires { IsWholeBlock kind front.now }
    ensures ok { IfOk result (λ head. FrontSays most front.now kind (Ok (head_view head))) }
    ensures err { IfErr result (StopsBySaying most front.now kind) }
{
    if has_long_target(front) {
        return Err(refused(HeadFault::TargetTooLong));
    }
    match kind {
        BlockEnd::Block(_) => block_head(alloc, most, front),
        BlockEnd::Long => Err(refused(HeadFault::HeadTooLong)),
        BlockEnd::Ended => Err(Stop::Ended(end_behind(front))),
    }
}
