//! The texts of lines, each once, and the answer that they make.
ghost use Rattle.std.specs.Prelude.{◌≡◌, ◌++◌, [], map, IfOk, IfErr, Ok};
ghost use Rattle.std.specs.List.{AllByRecursion, concat};
ghost use Rattle.line_columns.specs.Answers.{RefusesTextAs};
ghost use Rattle.availability.specs.Channels.{AreNamed, all_spans};
ghost use Rattle.availability.specs.Fields.{IsPrintableLine};
ghost use Rattle.availability.specs.Lines.{lines_of};
ghost use Rattle.availability.specs.Texts.{line_text, firsts_after, limited, header_text, answer_of};

use crate::channel::ChannelSpans;
use crate::fields::{Field, write_fields};
use crate::line::{Line, lines};
use exact_time::{Many, OutOfMemory, Text, TextRefusal};
use query_parameters::AvailForm;
use query_words::{AvailMethod, AvailQuery};
use std::alloc::Global;
use std::collections::BTreeSet;

// The text of a line.
fn line_text(
    alloc: Global,
    form: AvailForm,
    method: AvailMethod,
    line: &Line,
) -> Result<Text, OutOfMemory>
    requires { IsPrintableLine line.now }
    ensures { IfOk result (λ text. text ≡ line_text form method line.now) }
{
    let mut text = Text::new(alloc);
    let network = Field::Code(line.name.network);
    let station = Field::Code(line.name.station);
    let location = Field::Code(line.name.location);
    let channel = Field::Code(line.name.channel);
    let quality = Field::Quality(line.quality);
    let rate = Field::Rate(line.rate);
    let earliest = Field::Time(line.earliest);
    let latest = Field::Time(line.latest);
    match (form, method) {
        (AvailForm::Request, _) => write_fields(
            alloc,
            &mut text,
            &[network, station, location, channel, earliest, latest],
        )?,
        (AvailForm::Text, AvailMethod::Spans) => write_fields(
            alloc,
            &mut text,
            &[
                network, station, location, channel, quality, rate, earliest, latest,
            ],
        )?,
        (AvailForm::Text, AvailMethod::Extent) => write_fields(
            alloc,
            &mut text,
            &[
                network,
                station,
                location,
                channel,
                quality,
                rate,
                earliest,
                latest,
                Field::Time(line.updated),
                Field::Count(line.spans),
                Field::Restriction(line.restricted),
            ],
        )?,
    }
    text.push("\n")?;
    Ok(text)
}

// A copy of the bytes.
fn copy_of(alloc: Global, bytes: &[u8]) -> Result<Vec<u8>, OutOfMemory>
    ensures { IfOk result (λ copy. copy.items ≡ bytes.now) }
{
    let mut copy = Vec::new(alloc);
    copy.extend_from_slice(bytes)?;
    Ok(copy)
}

// The texts of lines, without those that equal an earlier one.
fn firsts(
    alloc: Global,
    form: AvailForm,
    method: AvailMethod,
    lines: &BTreeSet<Line>,
) -> Result<Many<Text>, OutOfMemory>
    requires { AllByRecursion IsPrintableLine lines.now.keys }
    ensures { IfOk result (λ texts. texts ≡ firsts_after [] (map (line_text form method) lines.now.keys)) }
{
    let mut seen: BTreeSet<Vec<u8>> = BTreeSet::new(alloc);
    let mut texts = Many::new(alloc);
    'lines: for line in lines {
        let text = line_text(alloc, form, method, line)?;
        if !seen.contains(text.as_slice()) {
            seen.insert(copy_of(alloc, text.as_slice())?)?;
            texts.push(text)?;
        }
    }
    Ok(texts)
}

// At most so many of the texts.
fn limited<'a>(texts: &'a [Text], limit: Option<u64>) -> &'a [Text]
    ensures { result.now ≡ limited limit texts.now }
{
    match limit {
        None => texts,
        Some(limit) => &texts[..limit.min(texts.len() as u64) as usize],
    }
}

fn header(form: AvailForm, method: AvailMethod) -> &'static str
    ensures { result.now ≡ header_text form method }
{
    match (form, method) {
        (AvailForm::Request, _) => "",
        (AvailForm::Text, AvailMethod::Spans) => {
            "#Network Station Location Channel Quality SampleRate Earliest Latest\n"
        }
        (AvailForm::Text, AvailMethod::Extent) => {
            "#Network Station Location Channel Quality SampleRate Earliest Latest Updated TimeSpans Restriction\n"
        }
    }
}

// The header line, and then the texts.
fn joined(alloc: Global, header: &str, texts: &[Text]) -> Result<Text, OutOfMemory>
    ensures { IfOk result (λ text. text ≡ header.now ++ concat texts.now) }
{
    let mut text = Text::new(alloc);
    text.push(header)?;
    'texts: for line in texts {
        text.push(line.as_str())?;
    }
    Ok(text)
}

/// The text that spans are answered with: Empty where no line is, TooLarge where there are more lines,
/// after the limit, than `max_lines`.
pub fn body(
    alloc: Global,
    method: AvailMethod,
    query: &AvailQuery,
    channels: &[ChannelSpans],
    max_lines: u64,
) -> Result<Text, TextRefusal>
    requires named { AreNamed channels.now }
    requires printable { AllByRecursion IsPrintableLine (lines_of method query.now (all_spans channels.now)) }
    ensures text { IfOk result (λ text. answer_of method query.now max_lines (all_spans channels.now) ≡ Ok text) }
    ensures refused { IfErr result (RefusesTextAs (answer_of method query.now max_lines (all_spans channels.now))) }
{
    let lines = lines(alloc, method, query, channels)?;
    let texts = firsts(alloc, query.form, method, &lines)?;
    let shown = limited(texts.as_slice(), query.limit);
    if shown.is_empty() {
        return Err(TextRefusal::Empty);
    }
    let count = shown.len() as u64;
    if count > max_lines {
        return Err(TextRefusal::TooLarge(count));
    }
    Ok(joined(alloc, header(query.form, method), shown)?)
}
