//! Takes from a link into what is held.
ghost use Rattle.std.specs.Prelude.{◌≡◌, ◌≤◌, ◌<◌, [], length, IfOk, OnOk, Err, MatchBool};
ghost use Rattle.std.specs.Io.KnownBytes.{IsAtEnd};
ghost use Rattle.http_wire.specs.Taking.{TookMore, TakesOnlyIf};
ghost use Rattle.streams.specs.Effects.{OnlyTakes};

use crate::inbox::Inbox;
use streams::Link;

/// Why bytes couldn't be taken.
#[derive(Clone, Copy, Debug, PartialEq, Eq)]
pub enum TakeStop {
    /// The link failed, and counted it.
    LinkFault,
    /// There was no memory for what is taken.
    OutOfMemory,
}

// Takes a piece where nothing is held.
pub(crate) fn hold_some<L: Link>(link: &mut L, held: &mut Inbox) -> Result<(), TakeStop>
    ensures took { OnOk result (TookMore (L.view link.old).left (L.view link.new).left held.old held.new) }
    ensures end { OnOk result (held.new ≡ [] → IsAtEnd (L.view link.new).left) }
    ensures waits { TakesOnlyIf (held.old ≡ []) (L.view link.old).left (L.view link.new).left }
    ensures takes { OnlyTakes (L.view link.old) (L.view link.new) (result ≡ Err TakeStop.LinkFault) }
{
    if !held.is_empty() {
        return Ok(());
    }
    held.take_piece(link)?;
    Ok(())
}

/// Takes from the link until `size` bytes are held, in pieces as they come: no room is made for what is merely asked for. False
/// where the input ends before.
pub fn fill<L: Link>(link: &mut L, held: &mut Inbox, size: usize) -> Result<bool, TakeStop>
    ensures took { OnOk result (TookMore (L.view link.old).left (L.view link.new).left held.old held.new) }
    ensures full { IfOk result (λ full. MatchBool full (size ≤ length held.new) (length held.new < size)) }
    ensures end { IfOk result (λ full. MatchBool full (Unit {0}) (IsAtEnd (L.view link.new).left)) }
    ensures waits { TakesOnlyIf (length held.old < size) (L.view link.old).left (L.view link.new).left }
    ensures takes { OnlyTakes (L.view link.old) (L.view link.new) (result ≡ Err TakeStop.LinkFault) }
{
    'pieces: while held.len() < size {
        if !held.take_piece(link)? {
            return Ok(false);
        }
    }
    Ok(true)
}
