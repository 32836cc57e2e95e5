//! Whether an entry is the next one, as far as the entry itself says.
ghost use Rattle.std.specs.Prelude.{◌≡◌, take, drop, IfOk};
ghost use Rattle.archive_entry.specs.declared.entry.Kind.TheVariants as Kind;
ghost use Rattle.archive_state.specs.Verdicts.{is_kind};
ghost use Rattle.archive_state.specs.Lawful.{is_accept, is_fit, is_first, founds, founding_body, founding_entry, is_founding};

use crate::verdict::Verdict;
use archive_entry::{Entry, Kind};
use epochs::{is_ha1, is_user_name};
use exact_time::{Bytes, Moment, OutOfMemory, Text};
use std::alloc::Global;

/// Whether the sequence number is from 1 to 10^18, the body has 1,048,576 bytes at most, and the moment is one of a
/// clock.
pub fn is_fit(entry: &Entry) -> bool
    ensures { result ≡ is_fit entry.now }
{
    1 <= entry.seq
        && (entry.seq <= 1_000_000_000_000_000_000
            && (entry.body.len() <= 1_048_576 && entry.moment.is_clock_moment()))
}

pub fn is_accept(verdict: &Verdict) -> bool
    ensures { result ≡ is_accept verdict.now }
{
    match verdict {
        Verdict::Accept(_) => true,
        _ => false,
    }
}

fn is_revise(kind: Kind) -> bool
    ensures { result ≡ is_kind kind Kind.Revise }
{
    match kind {
        Kind::Revise => true,
        Kind::Batch => false,
    }
}

fn is_first(entry: &Entry) -> bool
    ensures { result ≡ is_first entry.now }
{
    (entry.number == 1 && entry.seq == 0) && (entry.moment.micros == 0 && is_revise(entry.kind))
}

// The bytes behind so many, so many at most.
fn part(bytes: &[u8], from: usize, most: usize) -> &[u8]
    ensures { result.now ≡ take most (drop from bytes.now) }
{
    if bytes.len() <= from {
        return &[];
    }
    let (_, rest) = bytes.split_at(from);
    if rest.len() <= most {
        return rest;
    }
    let (front, _) = rest.split_at(most);
    front
}

/// The body of a founding entry: one line, which makes a user of that name the operator.
pub fn founding_body(alloc: Global, name: &[u8], ha1: &[u8]) -> Result<Bytes, OutOfMemory>
    ensures { IfOk result (λ body. body ≡ founding_body name.now ha1.now) }
{
    let mut body = Bytes::new(alloc);
    body.extend(b"USR|")?;
    body.extend(name)?;
    body.extend(b"|")?;
    body.extend(ha1)?;
    body.extend(b"|operator\n")?;
    Ok(body)
}

/// The founding entry of the archive of an operator, whose user name and HA1 are given.
pub fn founding_entry(alloc: Global, name: &str, ha1: &str) -> Result<Entry, OutOfMemory>
    ensures { IfOk result (λ entry. entry ≡ founding_entry name.now ha1.now) }
{
    let mut author = Text::new(alloc);
    author.push(name)?;
    Ok(Entry {
        number: 1,
        moment: Moment { micros: 0 },
        author,
        seq: 0,
        kind: Kind::Revise,
        body: founding_body(alloc, name.as_bytes(), ha1.as_bytes())?,
    })
}

// Whether the body makes a user of that name the operator.
fn founds(alloc: Global, name: &[u8], body: &[u8]) -> Result<bool, OutOfMemory>
    ensures { IfOk result (λ is. is ≡ founds name.now body.now) }
{
    if !is_user_name(name) {
        return Ok(false);
    }
    let ha1 = part(body, name.len() + 5, 32);
    if !is_ha1(ha1) {
        return Ok(false);
    }
    let wanted = founding_body(alloc, name, ha1)?;
    Ok(body == wanted.as_slice())
}

/// Whether an entry is the founding entry of an archive.
pub fn is_founding(alloc: Global, entry: &Entry) -> Result<bool, OutOfMemory>
    ensures { IfOk result (λ is. is ≡ is_founding entry.now) }
{
    if !is_first(entry) {
        return Ok(false);
    }
    founds(alloc, entry.author.as_slice(), entry.body.as_slice())
}
