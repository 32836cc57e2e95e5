//! Reads the entries of a body.
ghost use Rattle.std.specs.Prelude.{◌≡◌, ◌++◌, ◌≤◌, ◌<◌, IfOk, IfErr, Err, option_map, length};
ghost use Rattle.archive_entry.specs.Spelling.{IsEntry};
ghost use Rattle.entry_bodies.specs.Bodies.{size_in, payload_in, piece_of, NoPiece, IsBody, RefusesBody};

use archive_entry::{Entry, EntryFault, decode};
use exact_time::{Many, OutOfMemory};
use std::alloc::Global;

/// Why a body wasn't read.
#[derive(Clone, Copy, Debug, PartialEq, Eq)]
pub enum BodyFault {
    /// The piece at this offset isn't a length and the spelling of an entry.
    Form(usize),
    /// Memory ran out.
    OutOfMemory,
}

impl From<OutOfMemory> for BodyFault {
    ghost use Rattle.entry_bodies.specs.declared.reading.BodyFault.TheVariants.{OutOfMemory as NoMemory};

    ghost from_gives = { λ _ fault. fault ≡ NoMemory };

    fn from(_error: OutOfMemory) -> BodyFault {
        BodyFault::OutOfMemory
    }
}

// Why no piece was read.
#[derive(Clone, Copy, Debug, PartialEq, Eq)]
enum PieceFault {
    // None stands there.
    Bad,
    OutOfMemory,
}

// A number of four bytes, and what stands behind it.
fn size_in(bytes: &[u8]) -> Option<(u32, &[u8])>
    ensures { option_map (λ x. (x.0, x.1.now)) result ≡ size_in bytes.now }
{
    if bytes.len() < 4 {
        return None;
    }
    let (front, rest) = bytes.split_at(4);
    let number = u32::from_be_bytes([front[0], front[1], front[2], front[3]]);
    Some((number, rest))
}

// As many bytes as that number says, and what stands behind them.
fn payload_in(bytes: &[u8]) -> Option<(&[u8], &[u8])>
    ensures { option_map (λ x. (x.0.now, x.1.now)) result ≡ payload_in bytes.now }
{
    let (size, rest) = size_in(bytes)?;
    if rest.len() < size as usize {
        return None;
    }
    Some(rest.split_at(size as usize))
}

// The entry that the bytes begin with, and what stands behind it.
fn piece_in(alloc: Global, bytes: &[u8]) -> Result<(Entry, &[u8]), PieceFault>
    ensures entry { IfOk result (λ read. IsEntry read.0) }
    ensures piece { IfOk result (λ read. bytes.now ≡ piece_of read.0 ++ read.1.now) }
    ensures shorter { IfOk result (λ read. length read.1.now < length bytes.now) }
    ensures bad { result ≡ Err PieceFault.Bad → NoPiece bytes.now }
{
    let Some((payload, rest)) = payload_in(bytes) else {
        return Err(PieceFault::Bad);
    };
    match decode(alloc, payload) {
        Ok(entry) => Ok((entry, rest)),
        Err(EntryFault::Bad { .. }) => Err(PieceFault::Bad),
        Err(EntryFault::OutOfMemory) => Err(PieceFault::OutOfMemory),
    }
}

/// The entries that a body is, all of it; else the offset of the first piece that is none.
pub fn entries_in(alloc: Global, body: &[u8]) -> Result<Many<Entry>, BodyFault>
    ensures entries { IfOk result (IsBody body.now) }
    ensures refused { IfErr result (RefusesBody body.now) }
{
    let mut entries = Many::new(alloc);
    let mut left = body;
    'pieces: while !left.is_empty() {
        match piece_in(alloc, left) {
            Ok((entry, rest)) => {
                entries.push(entry)?;
                left = rest;
            }
            Err(PieceFault::Bad) => return Err(BodyFault::Form(body.len() - left.len())),
            Err(PieceFault::OutOfMemory) => return Err(BodyFault::OutOfMemory),
        }
    }
    Ok(entries)
}
