//! Entries to bytes.
ghost use Rattle.std.specs.Prelude.{◌≡◌, IfOk};
ghost use Rattle.archive_entry.specs.Spelling.{IsEntry, kind_byte, spelling};

use crate::entry::{Entry, Kind};
use exact_time::{Bytes, OutOfMemory};
use std::alloc::Global;

fn kind_byte(kind: Kind) -> u8
    ensures { result ≡ kind_byte kind }
{
    match kind {
        Kind::Batch => 1,
        Kind::Revise => 2,
    }
}

/// The one spelling of an entry.
pub fn encode(alloc: Global, entry: &Entry) -> Result<Bytes, OutOfMemory>
    requires { IsEntry entry.now }
    ensures { IfOk result (λ bytes. bytes ≡ spelling entry.now) }
{
    let mut bytes = Bytes::new(alloc);
    bytes.extend(&entry.number.to_be_bytes())?;
    bytes.extend(&entry.moment.micros.cast_unsigned().to_be_bytes())?;
    bytes.push(entry.author.len() as u8)?;
    bytes.extend(entry.author.as_slice())?;
    bytes.extend(&entry.seq.to_be_bytes())?;
    bytes.push(kind_byte(entry.kind))?;
    bytes.extend(&(entry.body.len() as u32).to_be_bytes())?;
    bytes.extend(entry.body.as_slice())?;
    Ok(bytes)
}
