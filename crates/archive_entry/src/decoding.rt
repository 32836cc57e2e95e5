//! Bytes to entries.
ghost use Rattle.std.specs.Prelude.{◌≡◌, ◌⊎◌, IfOk, IfErr, IsErrOf};
ghost use Rattle.list_laws.specs.Only.{IsOnly};
ghost use Rattle.archive_entry.specs.Bodies.{IsCounted};
ghost use Rattle.archive_entry.specs.Format.{IsEntryFault, RefusesPayload, entry_read};
ghost use Rattle.archive_entry.specs.Reading.{Gives, entry_in, fault_of};
ghost use Rattle.archive_entry.specs.Spelling.{Spells};

use crate::entry::Entry;
use crate::fault::{EntryFault, Unread};
use crate::reading::{head_at, tail_at};
use std::alloc::Global;

#[tactic(auto, unfolding(crate::specs::Reading::entry_in))]
fn entry_in(alloc: Global, payload: &[u8]) -> Result<(Entry, usize), Unread>
    ensures gives { Gives (λ read. read.0) result (entry_in payload.now) }
    ensures counted { IfOk result (λ read. IsCounted read.0.kind read.0.body read.1) }
{
    let (head, rest) = head_at(alloc, payload)?;
    let ((kind, body, records), rest) = tail_at(alloc, rest)?;
    if !rest.is_empty() {
        return Err(Unread::Bad(rest.len()));
    }
    let entry = Entry {
        number: head.number,
        moment: head.moment,
        author: head.author,
        seq: head.seq,
        kind,
        body,
    };
    Ok((entry, records))
}

// The fault of a payload of so many bytes.
fn fault_of(size: usize, unread: Unread) -> EntryFault
    ensures { result ≡ fault_of size unread }
{
    match unread {
        Unread::Bad(left) => EntryFault::Bad {
            at: size.saturating_sub(left),
        },
        Unread::OutOfMemory => EntryFault::OutOfMemory,
    }
}

/// The entry that a payload spells, all of it; else the first field that can't stand there: one that is cut off, a
/// length that no name or no body has, a name that isn't a user's, a kind that isn't known, a body that doesn't
/// read by its kind, or what is behind the body.
pub fn decode(alloc: Global, payload: &[u8]) -> Result<Entry, EntryFault>
    ensures entry { IfOk result (Spells payload.now) }
    ensures refused { IfErr result (RefusesPayload payload.now) }
    ensures exact { IsErrOf result EntryFault.OutOfMemory ⊎ IsOnly (Spells payload.now) (IsEntryFault payload.now) result }
{
    match decode_counted(alloc, payload) {
        Ok((entry, _)) => Ok(entry),
        Err(fault) => Err(fault),
    }
}

/// The same, and how many records the entry has, which are counted as its body is read: those of a batch, and none of
/// a revision.
pub fn decode_counted(alloc: Global, payload: &[u8]) -> Result<(Entry, usize), EntryFault>
    ensures entry { IfOk result (λ read. Spells payload.now read.0) }
    ensures counted { IfOk result (λ read. IsCounted read.0.kind read.0.body read.1) }
    ensures refused { IfErr result (RefusesPayload payload.now) }
    ensures exact { IsErrOf result EntryFault.OutOfMemory ⊎ IsOnly (Spells payload.now) (IsEntryFault payload.now) (entry_read result) }
{
    match entry_in(alloc, payload) {
        Ok(read) => Ok(read),
        Err(unread) => Err(fault_of(payload.len(), unread)),
    }
}
