//! Fields of a line, and how they are printed.
ghost use Rattle.std.specs.Prelude.{◌≡◌, ◌++◌, map, decimal, OnOk};
ghost use Rattle.std.specs.List.{AllByRecursion};
ghost use Rattle.std.specs.Str.{IsAscii};
ghost use Rattle.exact_time.specs.Written.{IsWritable};
ghost use Rattle.availability.specs.Fields.{field_text, IsPrintable};
ghost use Rattle.availability.specs.Texts.{code_text, quality_text, rate_text, time_text, restriction_text, behind_spaces, spaced};

use channel_globs::Code;
use exact_time::{Moment, OutOfMemory, Ratio, Text};
use mseed_header::Quality;
use std::alloc::Global;
use std::str;

/// What stands in a field. A merged quality or rate is absent.
#[derive(Clone, Copy, Debug)]
pub enum Field {
    Code(Code),
    Quality(Option<Quality>),
    Rate(Option<Ratio>),
    Time(Moment),
    Count(u64),
    Restriction(bool),
}

// Appends a code; the blank location is printed as two hyphens.
fn write_code(out: &mut Text, code: Code) -> Result<(), OutOfMemory>
    requires { IsAscii code }
    ensures { OnOk result (out.new ≡ out.old ++ code_text code) }
{
    if code.as_slice() == b"  ".as_slice() {
        return out.push("--");
    }
    out.push(str::from_utf8(code.as_slice()).unwrap())
}

fn quality_word(quality: Option<Quality>) -> &'static str
    ensures { result.now ≡ quality_text quality }
{
    match quality {
        None => "*",
        Some(Quality::D) => "D",
        Some(Quality::M) => "M",
        Some(Quality::Q) => "Q",
        Some(Quality::R) => "R",
    }
}

// Appends a rate, and a star for merged ones.
fn write_rate(out: &mut Text, rate: Option<Ratio>) -> Result<(), OutOfMemory>
    ensures { OnOk result (out.new ≡ out.old ++ rate_text rate) }
{
    match rate {
        None => out.push("*"),
        Some(rate) => rate.write(out),
    }
}

fn write_time(out: &mut Text, time: Moment) -> Result<(), OutOfMemory>
    requires { IsWritable time.micros }
    ensures { OnOk result (out.new ≡ out.old ++ time_text time) }
{
    time.write(out)?;
    out.push("Z")
}

fn write_count(alloc: Global, out: &mut Text, count: u64) -> Result<(), OutOfMemory>
    ensures { OnOk result (out.new ≡ out.old ++ decimal count) }
{
    let text = format!(in alloc; "{count}")?;
    out.push(&text)
}

fn restriction_word(restricted: bool) -> &'static str
    ensures { result.now ≡ restriction_text restricted }
{
    if restricted { "RESTRICTED" } else { "OPEN" }
}

fn write_field(alloc: Global, out: &mut Text, field: &Field) -> Result<(), OutOfMemory>
    requires { IsPrintable field.now }
    ensures { OnOk result (out.new ≡ out.old ++ field_text field.now) }
{
    match field {
        Field::Code(code) => write_code(out, *code),
        Field::Quality(quality) => out.push(quality_word(*quality)),
        Field::Rate(rate) => write_rate(out, *rate),
        Field::Time(time) => write_time(out, *time),
        Field::Count(count) => write_count(alloc, out, *count),
        Field::Restriction(restricted) => out.push(restriction_word(*restricted)),
    }
}

// Appends fields, each behind a space.
fn write_behind_spaces(alloc: Global, out: &mut Text, fields: &[Field]) -> Result<(), OutOfMemory>
    requires { AllByRecursion IsPrintable fields.now }
    ensures { OnOk result (out.new ≡ out.old ++ behind_spaces (map field_text fields.now)) }
{
    'fields: for field in fields {
        out.push(" ")?;
        write_field(alloc, out, field)?;
    }
    Ok(())
}

/// Appends fields with a space between them.
pub fn write_fields(alloc: Global, out: &mut Text, fields: &[Field]) -> Result<(), OutOfMemory>
    requires { AllByRecursion IsPrintable fields.now }
    ensures { OnOk result (out.new ≡ out.old ++ spaced (map field_text fields.now)) }
{
    match fields {
        [] => Ok(()),
        [first, others @ ..] => {
            write_field(alloc, out, first)?;
            write_behind_spaces(alloc, out, others)
        }
    }
}
