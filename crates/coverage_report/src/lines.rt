//! The lines of a report as they are written.
ghost use Rattle.std.specs.Prelude.{◌≡◌, [], OnOk};
ghost use Rattle.coverage_report.specs.Printable.{IsPrintable};
ghost use Rattle.coverage_report.specs.Sweep.{put};

use crate::line::Line;
use crate::texts::write_line;
use exact_time::{OutOfMemory, Text};
use std::alloc::Global;

/// Lines in order. Those beyond `most` are counted alone.
#[derive(Debug, Drop)]
pub struct Lines {
    pub text: Text,
    /// How many lines there are.
    pub count: u64,
    /// How many may be written.
    pub most: u64,
}

/// No lines yet.
pub fn no_lines(alloc: Global, most: u64) -> Lines
    ensures text { result.text ≡ [] }
    ensures count { result.count ≡ 0 }
    ensures most { result.most ≡ most }
{
    Lines {
        text: Text::new(alloc),
        count: 0,
        most,
    }
}

/// Puts a line behind the others. There are never 2^64, so the count doesn't stand still.
pub fn put(alloc: Global, lines: &mut Lines, line: &Line) -> Result<(), OutOfMemory>
    requires { IsPrintable line.now }
    ensures { OnOk result (lines.new ≡ put lines.old line.now) }
{
    if lines.count < lines.most {
        write_line(alloc, &mut lines.text, line)?;
    }
    lines.count = lines.count.saturating_add(1);
    Ok(())
}
