//! Columns and lines of text.
ghost use Rattle.std.specs.Prelude.{◌≡◌, [], ◌∷◌, ◌++◌, map, decimal, OnOk};
ghost use Rattle.std.specs.List.{AllByRecursion};
ghost use Rattle.std.specs.Str.{IsAscii};
ghost use Rattle.exact_time.specs.Written.{moment_text};
ghost use Rattle.exact_time.specs.Decimals.{decimal_text};
ghost use Rattle.line_columns.specs.Texts.{line_feed, text_or_none, code_text, barred, behind_bars};
ghost use Rattle.line_columns.specs.Columns.{optional_micros, optional_millionths, column_text_of, IsWritableEnd, IsPrintable};

use channel_globs::Code;
use exact_time::{Decimal, Moment, OutOfMemory, Text};
use std::alloc::Global;
use std::str;

/// What stands in a column. An absent end or number, and the blank location, are printed as nothing.
#[derive(Clone, Copy, Debug)]
pub enum Column<'a> {
    Code(Code),
    Words(&'a Text),
    Start(Moment),
    End(Option<Moment>),
    Number(Decimal),
    Optional(Option<Decimal>),
    Count(u64),
}

// Appends a code; the blank location is left away.
fn write_code(out: &mut Text, code: Code) -> Result<(), OutOfMemory>
    requires { IsAscii code }
    ensures { OnOk result (out.new ≡ out.old ++ code_text code) }
{
    if code.as_slice() == b"  ".as_slice() {
        return Ok(());
    }
    out.push(str::from_utf8(code.as_slice()).unwrap())
}

// Appends an end, if there is one.
fn write_end(out: &mut Text, end: Option<Moment>) -> Result<(), OutOfMemory>
    requires { IsWritableEnd (optional_micros end) }
    ensures { OnOk result (out.new ≡ out.old ++ text_or_none moment_text (optional_micros end)) }
{
    match end {
        None => Ok(()),
        Some(end) => end.write(out),
    }
}

// Appends a number, if there is one.
fn write_optional(out: &mut Text, number: Option<Decimal>) -> Result<(), OutOfMemory>
    ensures { OnOk result (out.new ≡ out.old ++ text_or_none decimal_text (optional_millionths number)) }
{
    match number {
        None => Ok(()),
        Some(number) => number.write(out),
    }
}

// Appends a count.
fn write_count(alloc: Global, out: &mut Text, count: u64) -> Result<(), OutOfMemory>
    ensures { OnOk result (out.new ≡ out.old ++ decimal count) }
{
    let text = format!(in alloc; "{count}")?;
    out.push(&text)
}

// Appends what stands in a column.
fn write_column(alloc: Global, out: &mut Text, column: &Column) -> Result<(), OutOfMemory>
    requires { IsPrintable column.now }
    ensures { OnOk result (out.new ≡ out.old ++ column_text_of column.now) }
{
    match column {
        Column::Code(code) => write_code(out, *code),
        Column::Words(text) => out.push(text.as_str()),
        Column::Start(moment) => moment.write(out),
        Column::End(end) => write_end(out, *end),
        Column::Number(number) => number.write(out),
        Column::Optional(number) => write_optional(out, *number),
        Column::Count(count) => write_count(alloc, out, *count),
    }
}

// Appends columns, each behind a bar.
fn write_behind_bars(alloc: Global, out: &mut Text, columns: &[Column]) -> Result<(), OutOfMemory>
    requires { AllByRecursion IsPrintable columns.now }
    ensures { OnOk result (out.new ≡ out.old ++ behind_bars (map column_text_of columns.now)) }
{
    'columns: for column in columns {
        out.push("|")?;
        write_column(alloc, out, column)?;
    }
    Ok(())
}

/// Appends a line of columns, with bars between them. Where memory runs out, a part of it may have been
/// appended.
pub fn write_columns(alloc: Global, out: &mut Text, columns: &[Column]) -> Result<(), OutOfMemory>
    requires { AllByRecursion IsPrintable columns.now }
    ensures { OnOk result (out.new ≡ out.old ++ barred (map column_text_of columns.now) ++ line_feed ∷ []) }
{
    match columns {
        [] => {}
        [first, others @ ..] => {
            write_column(alloc, out, first)?;
            write_behind_bars(alloc, out, others)?;
        }
    }
    out.push("\n")
}
