//! What calls give, and fields of lines and queries, as text.
use channel_globs::{Code, PatternList};
use epochs::Glob;
use exact_time::{Decimal, Moment, OutOfMemory, Text};
use std::alloc::Global;
use std::fmt::Display;
use std::str;

/// A single value that a call gives.
#[derive(Clone, Copy)]
pub enum Answer {
    Word(&'static str),
    Whole(i128),
    Size(usize),
    /// The terms of a rate.
    Terms(u32, u32),
}

/// A field of a line or a query.
#[derive(Clone, Copy)]
pub enum Field<'a> {
    Word(&'a str),
    Code(&'a Code),
    /// A text that may be absent, in quotes.
    Quoted(&'a Option<Text>),
    Moment(Moment),
    /// A moment that may be absent.
    Limit(Option<Moment>),
    Number(Decimal),
    /// A number that may be absent.
    Maybe(Option<Decimal>),
    Patterns(&'a PatternList),
    /// A list of patterns, as it was written and as it was read.
    Glob(&'a Glob),
    /// The names of those that are there.
    Names(&'a [(&'static str, bool)]),
}

/// There is no such call, or it isn't given what it wants.
pub const NO_CALL: Answer = Answer::Word("no such call");

// The codes by which a list of patterns is told: those that it matches. The blank location is `--`.
const NAMES: [&str; 8] = ["IU", "XX", "ANMO", "--", "00", "BHZ", "BHN", "LHZ"];

/// Whether something is so.
pub fn flag(is_so: bool) -> Answer {
    Answer::Word(if is_so { "true" } else { "false" })
}

/// Puts a value at the end.
pub fn put(alloc: Global, out: &mut Text, value: impl Display + Drop) -> Result<(), OutOfMemory> {
    out.push(value.to_string(alloc)?.as_str())
}

/// Puts an answer at the end.
pub fn put_answer(alloc: Global, out: &mut Text, answer: Answer) -> Result<(), OutOfMemory> {
    match answer {
        Answer::Word(word) => out.push(word),
        Answer::Whole(number) => put(alloc, out, number),
        Answer::Size(size) => put(alloc, out, size),
        Answer::Terms(num, den) => put(alloc, out, format_args!("{num}/{den}")),
    }
}

/// Puts a moment at the end, which is of the years 1800 to 2700 as all that are read.
pub fn put_moment(out: &mut Text, moment: Moment) -> Result<(), OutOfMemory> {
    if moment.micros < -5_364_662_400_000_000 || moment.micros >= 23_068_108_800_000_000 {
        return out.push("no moment that is written");
    }
    moment.write(out)
}

fn put_code(out: &mut Text, code: &Code) -> Result<(), OutOfMemory> {
    if *code == Code::blank() {
        return out.push("--");
    }
    out.push(str::from_utf8(code.as_slice()).unwrap_or("?"))
}

fn matches(list: &PatternList, name: &str) -> bool {
    match Code::of(name.as_bytes()) {
        Some(_) if name == "--" => list.matches(&Code::blank()),
        Some(code) => list.matches(&code),
        None => false,
    }
}

// The names that a list of patterns matches.
fn put_matched(out: &mut Text, list: &PatternList, names: &[&str]) -> Result<(), OutOfMemory> {
    let mut comma = "";
    'names: for name in names {
        if matches(list, name) {
            out.push(comma)?;
            out.push(name)?;
            comma = ",";
        }
    }
    Ok(())
}

// The one pattern `*` as itself, another list by the codes that it matches.
fn put_patterns(out: &mut Text, list: &PatternList) -> Result<(), OutOfMemory> {
    if list.is_any() {
        return out.push("*");
    }
    put_matched(out, list, &NAMES)
}

fn put_names(out: &mut Text, names: &[(&'static str, bool)]) -> Result<(), OutOfMemory> {
    let mut comma = "";
    'names: for (name, is_there) in names {
        if *is_there {
            out.push(comma)?;
            out.push(name)?;
            comma = ",";
        }
    }
    Ok(())
}

fn put_quoted(out: &mut Text, text: &str) -> Result<(), OutOfMemory> {
    out.push("\"")?;
    out.push(text)?;
    out.push("\"")
}

fn put_glob(out: &mut Text, glob: &Glob) -> Result<(), OutOfMemory> {
    out.push(glob.text.as_str())?;
    out.push(">")?;
    put_patterns(out, &glob.list)
}

fn put_field(out: &mut Text, field: Field<'_>) -> Result<(), OutOfMemory> {
    match field {
        Field::Word(word) => out.push(word),
        Field::Code(code) => put_code(out, code),
        Field::Quoted(Some(text)) => put_quoted(out, text.as_str()),
        Field::Moment(moment) | Field::Limit(Some(moment)) => put_moment(out, moment),
        Field::Number(number) | Field::Maybe(Some(number)) => number.write(out),
        Field::Patterns(list) => put_patterns(out, list),
        Field::Glob(glob) => put_glob(out, glob),
        Field::Names(names) => put_names(out, names),
        Field::Quoted(None) | Field::Limit(None) | Field::Maybe(None) => Ok(()),
    }
}

/// Puts values at the end, a bar between each two.
pub fn put_fields(out: &mut Text, fields: &[Field<'_>]) -> Result<(), OutOfMemory> {
    let mut bar = "";
    'fields: for field in fields {
        out.push(bar)?;
        put_field(out, *field)?;
        bar = "|";
    }
    Ok(())
}
