//! Writes the body of a history's entries.
ghost use Rattle.std.specs.Prelude.{◌≡◌, ◌-◌, ◌++◌, drop, length, IfOk, IfErr, OnOk, Ok};
ghost use Rattle.std.specs.List.{AllByRecursion};
ghost use Rattle.archive_entry.specs.Spelling.{IsEntry};
ghost use Rattle.entry_bodies.specs.Bodies.{piece_of, pieces_of, fitting, entries_body, RefusesAs};

use archive_entry::{Entry, encode};
use exact_time::{Bytes, OutOfMemory};
use std::alloc::Global;

/// Why there is no body.
#[derive(Clone, Copy, Debug, PartialEq, Eq)]
pub enum BodyRefusal {
    /// There is no entry of that number or a later one.
    Empty,
    /// The first entry alone has so many bytes, more than may be.
    TooLarge(u64),
    /// Memory ran out.
    OutOfMemory,
}

impl From<OutOfMemory> for BodyRefusal {
    ghost use Rattle.entry_bodies.specs.declared.writing.BodyRefusal.TheVariants.{OutOfMemory as NoMemory};

    ghost from_gives = { λ _ refusal. refusal ≡ NoMemory };

    fn from(_error: OutOfMemory) -> BodyRefusal {
        BodyRefusal::OutOfMemory
    }
}

// How many bytes an entry has in a body: 34 beside its author and its own body.
fn piece_size(entry: &Entry) -> u64
    requires { IsEntry entry.now }
    ensures { result ≡ length (piece_of entry.now) }
{
    34 + entry.author.len() as u64 + entry.body.len() as u64
}

// Puts an entry behind others.
fn put_piece(alloc: Global, body: &mut Bytes, entry: &Entry) -> Result<(), OutOfMemory>
    requires { IsEntry entry.now }
    ensures { OnOk result (body.new ≡ body.old ++ piece_of entry.now) }
{
    let spelling = encode(alloc, entry)?;
    body.extend(&(spelling.len() as u32).to_be_bytes())?;
    body.extend(spelling.as_slice())
}

// Puts as many entries behind others as have at most so many bytes.
fn put_fitting(
    alloc: Global,
    body: &mut Bytes,
    entries: &[Entry],
    most: u64,
) -> Result<(), OutOfMemory>
    requires { AllByRecursion IsEntry entries.now }
    ensures { OnOk result (body.new ≡ body.old ++ pieces_of (fitting most entries.now)) }
{
    let mut left = most;
    let mut rest = entries;
    'entries: while let Some((entry, behind)) = rest.split_first() {
        let size = piece_size(entry);
        if size > left {
            return Ok(());
        }
        put_piece(alloc, body, entry)?;
        left -= size;
        rest = behind;
    }
    Ok(())
}

// The entries from that of a number on.
fn entries_from(entries: &[Entry], from: u64) -> &[Entry]
    ensures { result.now ≡ drop (from - 1) entries.now }
{
    let before = from.saturating_sub(1);
    if before < entries.len() as u64 {
        &entries[before as usize..]
    } else {
        &[]
    }
}

/// The body of the entries from that of a number on, as many as have at most `most` bytes; entries are numbered from 1.
/// Empty where there is none; TooLarge with the bytes of the first one where it alone has more.
pub fn entries_body(
    alloc: Global,
    entries: &[Entry],
    from: u64,
    most: u64,
) -> Result<Bytes, BodyRefusal>
    requires { AllByRecursion IsEntry entries.now }
    ensures body { IfOk result (λ body. entries_body entries.now from most ≡ Ok body) }
    ensures refused { IfErr result (RefusesAs (entries_body entries.now from most)) }
{
    let rest = entries_from(entries, from);
    let Some(first) = rest.first() else {
        return Err(BodyRefusal::Empty);
    };
    let size = piece_size(first);
    if size > most {
        return Err(BodyRefusal::TooLarge(size));
    }
    let mut body = Bytes::new(alloc);
    put_fitting(alloc, &mut body, rest, most)?;
    Ok(body)
}
