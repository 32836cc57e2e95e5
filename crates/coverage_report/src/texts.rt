//! How a line is printed.
ghost use Rattle.std.specs.Prelude.{◌≡◌, ◌++◌, codes, decimal, OnOk};
ghost use Rattle.std.specs.Str.{IsAscii};
ghost use Rattle.exact_time.specs.Written.{IsWritable};
ghost use Rattle.coverage_report.specs.Printable.{IsPrintable, IsPrintableName};
ghost use Rattle.coverage_report.specs.Texts.{location_text, day_text, percent_text, line_text};

use crate::line::Line;
use channel_globs::{Code, Nslc};
use exact_time::{Moment, OutOfMemory, Text};
use std::alloc::Global;
use std::str;

// Appends a code.
fn write_code(out: &mut Text, code: Code) -> Result<(), OutOfMemory>
    requires { IsAscii code }
    ensures { OnOk result (out.new ≡ out.old ++ code) }
{
    out.push(str::from_utf8(code.as_slice()).unwrap())
}

// Appends a location; the blank one is printed as two hyphens.
fn write_location(out: &mut Text, code: Code) -> Result<(), OutOfMemory>
    requires { IsAscii code }
    ensures { OnOk result (out.new ≡ out.old ++ location_text code) }
{
    if code.as_slice() == b"  ".as_slice() {
        return out.push("--");
    }
    write_code(out, code)
}

// Appends the codes with spaces between them.
fn write_name(out: &mut Text, name: &Nslc) -> Result<(), OutOfMemory>
    requires { IsPrintableName name.now }
    ensures { OnOk result (out.new ≡ out.old ++ name.now.network ++ codes " " ++ name.now.station ++ codes " "
        ++ location_text name.now.location ++ codes " " ++ name.now.channel) }
{
    write_code(out, name.network)?;
    out.push(" ")?;
    write_code(out, name.station)?;
    out.push(" ")?;
    write_location(out, name.location)?;
    out.push(" ")?;
    write_code(out, name.channel)
}

// Appends the day at which a moment lies.
fn write_day(alloc: Global, out: &mut Text, day: Moment) -> Result<(), OutOfMemory>
    requires { IsWritable day.micros }
    ensures { OnOk result (out.new ≡ out.old ++ day_text day.micros) }
{
    let mut text = Text::new(alloc);
    day.write(&mut text)?;
    out.push(str::from_utf8(&text.as_slice()[..10]).unwrap())
}

// Appends a number of microseconds, and the per cent of a day that it is, rounded down.
fn write_covered(alloc: Global, out: &mut Text, covered: u64) -> Result<(), OutOfMemory>
    ensures { OnOk result (out.new ≡ out.old ++ decimal covered ++ codes " " ++ percent_text covered) }
{
    let hundredths = (covered as u128 * 10_000 / 86_400_000_000) as u64;
    let whole = hundredths / 100;
    let tenth = hundredths % 100 / 10;
    let hundredth = hundredths % 100 % 10;
    let text = format!(in alloc; "{covered} {whole}.{tenth}{hundredth}")?;
    out.push(&text)
}

/// Appends a line. Where memory runs out, a part of it may have been appended.
pub fn write_line(alloc: Global, out: &mut Text, line: &Line) -> Result<(), OutOfMemory>
    requires { IsPrintable line.now }
    ensures { OnOk result (out.new ≡ out.old ++ line_text line.now) }
{
    write_name(out, &line.name)?;
    out.push(" ")?;
    write_day(alloc, out, line.day)?;
    out.push(" ")?;
    write_covered(alloc, out, line.covered)?;
    out.push("\n")
}
