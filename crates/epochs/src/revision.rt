//! Revisions, line by line.
ghost use Rattle.std.specs.Prelude.{◌≡◌, ◌⊎◌, ◌+◌, ◌<◌, ◌≤◌, IfOk, IfErr, IsErrOf, length, map};
ghost use Rattle.list_laws.specs.Only.{IsOnly};
ghost use Rattle.epochs.specs.Views.{values_of_line, values_of_answer};
ghost use Rattle.epochs.specs.Revisions.{IsRevision, IsRevisionFault, RefusesRevision};
ghost use Rattle.epochs.specs.Reading.{raised};

use crate::fault::{LineFault, RevisionFault};
use crate::line::Line;
use crate::reading::{is_skipped, read_line};
use crate::values::FieldFault;
use exact_time::Many;
use std::alloc::Global;
use text_lines::cut_line;

// How the fault of a line is one of the body.
fn raised(number: u64, fault: FieldFault) -> RevisionFault
    ensures { result ≡ raised number fault }
{
    match fault {
        FieldFault::Bad(fault) => RevisionFault::Bad {
            line: number,
            fault,
        },
        FieldFault::OutOfMemory => RevisionFault::OutOfMemory,
    }
}

/// The lines of a revision's body. Lines end with a line feed; one carriage return before that is
/// dropped, and the last line feed may be absent. Lines of spaces and tabs alone, and lines that begin
/// with `#`, are skipped; they count for the numbers of lines. The first line that spells nothing
/// decides; that there is no line comes last, at line 1.
pub fn read_revision(alloc: Global, body: &[u8]) -> Result<Many<Line>, RevisionFault>
    ensures lines { IfOk result (λ lines. IsRevision body.now (map values_of_line lines)) }
    ensures refused { IfErr result (RefusesRevision body.now) }
    ensures exact { IsErrOf result RevisionFault.OutOfMemory
        ⊎ IsOnly (IsRevision body.now) (IsRevisionFault body.now) (values_of_answer result) }
{
    let mut lines = Many::new(alloc);
    let mut number = 0usize;
    let mut left = body;
    'lines: while !left.is_empty() {
        let (text, rest) = cut_line(left);
        number += 1;
        if !is_skipped(text) {
            match read_line(alloc, text) {
                Ok(line) => lines.push(line)?,
                Err(fault) => return Err(raised(number as u64, fault)),
            }
        }
        left = rest;
    }
    if lines.is_empty() {
        return Err(RevisionFault::Bad {
            line: 1,
            fault: LineFault::NoLine,
        });
    }
    Ok(lines)
}
