//! Whether a body reads by its kind, and how many records it has.
ghost use Rattle.std.specs.Prelude.{◌≡◌, IfOk, IfSome, is_none, is_some};
ghost use Rattle.epochs.specs.Views.{values_of_answer};
ghost use Rattle.archive_entry.specs.Batches.{batch_fault};
ghost use Rattle.archive_entry.specs.Bodies.{IsCounted, has_lines, is_body, revision_of, told_lines};

use crate::entry::Kind;
use epochs::{Line, RevisionFault, read_revision};
use exact_time::{Many, OutOfMemory};
use mseed_header::count_records;
use std::alloc::Global;

// How many records bytes are; None where one is refused.
fn batch_records(body: &[u8]) -> Option<usize>
    ensures reads { is_some result ≡ is_none (batch_fault body.now) }
    ensures counted { IfSome result (IsCounted Kind.Batch body.now) }
{
    match count_records(body) {
        Ok(count) => Some(count),
        Err(_) => None,
    }
}

// Whether lines were read; none where memory was missing.
fn told_lines(answer: &Result<Many<Line>, RevisionFault>) -> Option<bool>
    ensures { result ≡ told_lines (values_of_answer answer.now) }
{
    match answer {
        Ok(_) => Some(true),
        Err(RevisionFault::Bad { .. }) => Some(false),
        Err(RevisionFault::OutOfMemory) => None,
    }
}

fn has_lines(alloc: Global, body: &[u8]) -> Result<bool, OutOfMemory>
    ensures { IfOk result (λ is. is ≡ has_lines (revision_of body.now)) }
{
    let answer = read_revision(alloc, body);
    let told = told_lines(&answer);
    match told {
        Some(is) => Ok(is),
        None => Err(OutOfMemory),
    }
}

// A revision has no records; None where the body is none.
fn revision_records(alloc: Global, body: &[u8]) -> Result<Option<usize>, OutOfMemory>
    ensures reads { IfOk result (λ found. is_some found ≡ has_lines (revision_of body.now)) }
    ensures counted { IfOk result (λ found. IfSome found (IsCounted Kind.Revise body.now)) }
{
    if has_lines(alloc, body)? {
        return Ok(Some(0));
    }
    Ok(None)
}

/// How many records a body has that reads by its kind; None where it doesn't read.
pub fn records_of(alloc: Global, kind: Kind, body: &[u8]) -> Result<Option<usize>, OutOfMemory>
    ensures reads { IfOk result (λ found. is_some found ≡ is_body kind body.now) }
    ensures counted { IfOk result (λ found. IfSome found (IsCounted kind body.now)) }
{
    match kind {
        Kind::Batch => Ok(batch_records(body)),
        Kind::Revise => revision_records(alloc, body),
    }
}
