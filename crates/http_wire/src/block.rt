//! Looks for the end of a block, each byte once, however the link cuts them.
ghost use Rattle.std.specs.Prelude.{◌≡◌, ◌≤◌, ◌<◌, ◌↔◌, length, IsTrue, IfOk, IfSome, IfNone, OnOk, Err};
ghost use Rattle.http_wire.specs.Blocks.{EndsBlock, NoBlock, IsBlock};
ghost use Rattle.http_wire.specs.Taking.{TookMore, TakesOnlyIf, StopsAs, AtEndIf};
ghost use Rattle.streams.specs.Effects.{OnlyTakes};

use crate::inbox::Inbox;
use crate::taking::TakeStop;
use streams::Link;

/// How the search for the end of a block ended.
#[derive(Clone, Copy, Debug, PartialEq, Eq)]
pub enum BlockEnd {
    /// A block of so many bytes.
    Block(usize),
    /// No block within the limit.
    Long,
    /// The input ended before.
    Ended,
}

fn ends_block(text: &[u8]) -> bool
    ensures { IsTrue result ↔ EndsBlock text.now }
{
    matches!(text, [.., b'\n', b'\n'] | [.., b'\n', b'\r', b'\n'])
}

// The end of the first block, which isn't within the first `seen` bytes.
fn block_end(text: &[u8], seen: usize) -> Option<usize>
    requires within { seen ≤ length text.now }
    requires clear { NoBlock text.now seen }
    ensures found { IfSome result (λ n. IsBlock text.now n) }
    ensures none { IfNone result (NoBlock text.now (length text.now)) }
{
    let mut place = seen;
    'places: while place < text.len() {
        place += 1;
        if ends_block(&text[..place]) {
            return Some(place);
        }
    }
    None
}

// Takes from the link until a block ends in what is held, the limit is reached or the input ends. What
// was looked at is not looked at again when more comes.
pub(crate) fn read_block<L: Link>(
    link: &mut L,
    held: &mut Inbox,
    limit: usize,
) -> Result<BlockEnd, TakeStop>
    ensures took { OnOk result (TookMore (L.view link.old).left (L.view link.new).left held.old held.new) }
    ensures stops { IfOk result (λ end. StopsAs limit held.new end) }
    ensures all { IfOk result (λ end. AtEndIf (L.view link.new).left end) }
    ensures waits { TakesOnlyIf (StopsAs limit held.old BlockEnd.Ended) (L.view link.old).left (L.view link.new).left }
    ensures takes { OnlyTakes (L.view link.old) (L.view link.new) (result ≡ Err TakeStop.LinkFault) }
{
    let mut seen = 0;
    'pieces: loop {
        if let Some(end) = block_end(held.as_slice(), seen) {
            return if end <= limit {
                Ok(BlockEnd::Block(end))
            } else {
                Ok(BlockEnd::Long)
            };
        }
        seen = held.len();
        if limit <= seen {
            return Ok(BlockEnd::Long);
        }
        if !held.take_piece(link)? {
            return Ok(BlockEnd::Ended);
        }
    }
}
