//! What the words of a query give.
ghost use Rattle.std.specs.Prelude.{◌≡◌, ◌+◌, ◌≤◌, ◌<◌, ◌↔◌, IsTrue, length, get_or, set, codes, None, IfOk, IfErr};
ghost use Rattle.channel_globs.specs.PatternText.{IsPatternList};
ghost use Rattle.query_parameters.specs.Extracts.{limit_word, nodata_word, quality_word, minimum_word, flag_word, number_word, level_word, whole_word, text_word, event_order_word, qualities_word, merges_word, avail_order_word, avail_form_word, IsListWord, AreLists, AreAreaWords, is_backwards};
ghost use Rattle.query_parameters.specs.Places.{IsRange, IsAreaInOrder};

use crate::area::{Area, Limits2};
use crate::avail::{AvailForm, AvailOrder, Merges, QualitySet};
use crate::fault::QueryFault;
use crate::level::Level;
use crate::order::EventOrder;
use crate::words::ParameterValue;
use channel_globs::{Part, PatternList};
use dataselect::{Nodata, Selection};
use exact_time::{Decimal, Moment, Text};
use mseed_header::Quality;
use std::alloc::Global;

/// The limit of a word, if it is a time.
pub fn limit_in(word: &Option<ParameterValue>) -> Option<Moment>
    ensures { result ≡ limit_word word.now }
{
    match word {
        Some(ParameterValue::Time(moment)) => Some(*moment),
        _ => None,
    }
}

/// What a word says of an answer without data.
pub fn nodata_in(word: &Option<ParameterValue>) -> Nodata
    ensures { result ≡ nodata_word word.now }
{
    match word {
        Some(ParameterValue::Nodata(nodata)) => *nodata,
        _ => Nodata::Quiet,
    }
}

/// The quality of a word; any where it is none.
pub fn quality_in(word: &Option<ParameterValue>) -> Option<Quality>
    ensures { result ≡ quality_word word.now }
{
    match word {
        Some(ParameterValue::Quality(quality)) => *quality,
        _ => None,
    }
}

/// The length of time of a word, in microseconds; 0 where it is none.
pub fn minimum_in(word: &Option<ParameterValue>) -> u64
    ensures { result ≡ minimum_word word.now }
{
    match word {
        Some(ParameterValue::Micros(micros)) => *micros,
        _ => 0,
    }
}

/// The truth of a word; false where it is none.
pub fn flag_in(word: &Option<ParameterValue>) -> bool
    ensures { result ≡ flag_word word.now }
{
    match word {
        Some(ParameterValue::Flag(flag)) => *flag,
        _ => false,
    }
}

/// The number of a word, if it is one.
pub fn number_in(word: &Option<ParameterValue>) -> Option<Decimal>
    ensures { result ≡ number_word word.now }
{
    match word {
        Some(ParameterValue::Number(number)) => Some(*number),
        _ => None,
    }
}

/// The level of a word; stations where it is none.
pub fn level_in(word: &Option<ParameterValue>) -> Level
    ensures { result ≡ level_word word.now }
{
    match word {
        Some(ParameterValue::Level(level)) => *level,
        _ => Level::Station,
    }
}

/// The whole number of a word, if it is one.
pub fn whole_in(word: &Option<ParameterValue>) -> Option<u64>
    ensures { result ≡ whole_word word.now }
{
    match word {
        Some(ParameterValue::Whole(number)) => Some(*number),
        _ => None,
    }
}

/// The order of a word; the newest event first where it is none.
pub fn event_order_in(word: &Option<ParameterValue>) -> EventOrder
    ensures { result ≡ event_order_word word.now }
{
    match word {
        Some(ParameterValue::EventOrder(order)) => *order,
        _ => EventOrder::TimeDown,
    }
}

/// The qualities of a word; all four where it is none.
pub fn qualities_in(word: &Option<ParameterValue>) -> QualitySet
    ensures { result ≡ qualities_word word.now }
{
    match word {
        Some(ParameterValue::Qualities(set)) => *set,
        _ => QualitySet {
            d: true,
            r: true,
            q: true,
            m: true,
        },
    }
}

/// What a word merges; nothing where it is none.
pub fn merges_in(word: &Option<ParameterValue>) -> Merges
    ensures { result ≡ merges_word word.now }
{
    match word {
        Some(ParameterValue::Merges(merges)) => *merges,
        _ => Merges {
            rate: false,
            quality: false,
            overlap: false,
        },
    }
}

/// The order of a word; by name where it is none.
pub fn avail_order_in(word: &Option<ParameterValue>) -> AvailOrder
    ensures { result ≡ avail_order_word word.now }
{
    match word {
        Some(ParameterValue::AvailOrder(order)) => *order,
        _ => AvailOrder::Name,
    }
}

/// The form of a word; text where it is none.
pub fn avail_form_in(word: &Option<ParameterValue>) -> AvailForm
    ensures { result ≡ avail_form_word word.now }
{
    match word {
        Some(ParameterValue::AvailForm(form)) => *form,
        _ => AvailForm::Text,
    }
}

/// Takes the text of a word out, if it is one.
pub fn text_in(words: &mut Vec<Option<ParameterValue>>, row: usize) -> Option<Text>
    requires { row < length words.old.items }
    ensures text { result ≡ text_word (get_or words.old.items row None) }
    ensures taken { words.new.items ≡ set words.old.items row None }
{
    match words[row].take() {
        Some(ParameterValue::Text(text)) => Some(text),
        _ => None,
    }
}

/// The place of four words from that place on.
pub fn area_in(words: &[Option<ParameterValue>], first: usize) -> Area
    requires { first + 4 ≤ length words.now }
    ensures { AreAreaWords words.now first result }
{
    Area {
        latitude: Limits2 {
            least: number_in(&words[first]),
            most: number_in(&words[first + 1]),
        },
        longitude: Limits2 {
            least: number_in(&words[first + 2]),
            most: number_in(&words[first + 3]),
        },
    }
}

/// Whether the start is after the end.
pub fn is_backwards(start: Option<Moment>, end: Option<Moment>) -> bool
    ensures { result ≡ is_backwards start end }
{
    match start {
        None => false,
        Some(start) => match end {
            None => false,
            Some(end) => end.micros < start.micros,
        },
    }
}

/// Whether the greatest isn't below the least.
pub fn is_range(limits: Limits2) -> bool
    ensures { IsTrue result ↔ IsRange limits }
{
    match limits.least {
        None => true,
        Some(least) => match limits.most {
            None => true,
            Some(most) => least.millionths <= most.millionths,
        },
    }
}

/// Whether no least limit is above its greatest.
pub fn is_area_in_order(area: Area) -> bool
    ensures { IsTrue result ↔ IsAreaInOrder area }
{
    is_range(area.latitude) && is_range(area.longitude)
}

// The list that matches any code.
fn any_code(alloc: Global, part: Part) -> Result<PatternList, QueryFault>
    ensures list { IfOk result (λ list. IsPatternList part (codes "*") list) }
    ensures refused { IfErr result (λ fault. fault ≡ QueryFault.OutOfMemory) }
{
    match PatternList::read(alloc, b"*", part) {
        Ok(list) => Ok(list),
        Err(_) => Err(QueryFault::OutOfMemory),
    }
}

// Takes the list of a word out, if it is one; else the list that matches any code.
fn list_in(
    alloc: Global,
    words: &mut Vec<Option<ParameterValue>>,
    row: usize,
    part: Part,
) -> Result<PatternList, QueryFault>
    requires { row < length words.old.items }
    ensures list { IfOk result (IsListWord part (get_or words.old.items row None)) }
    ensures refused { IfErr result (λ fault. fault ≡ QueryFault.OutOfMemory) }
    ensures taken { words.new.items ≡ set words.old.items row None }
{
    match words[row].take() {
        Some(ParameterValue::Patterns(list)) => Ok(list),
        _ => any_code(alloc, part),
    }
}

/// The selection of four words from that place on, in a window.
pub fn selection_in(
    alloc: Global,
    words: &mut Vec<Option<ParameterValue>>,
    first: usize,
    start: Option<Moment>,
    end: Option<Moment>,
) -> Result<Selection, QueryFault>
    requires { first + 4 ≤ length words.old.items }
    ensures lists { IfOk result (AreLists words.old.items first) }
    ensures start { IfOk result (λ s. s.start ≡ start) }
    ensures end { IfOk result (λ s. s.end ≡ end) }
    ensures refused { IfErr result (λ fault. fault ≡ QueryFault.OutOfMemory) }
{
    let network = list_in(alloc, words, first, Part::Network)?;
    let station = list_in(alloc, words, first + 1, Part::Station)?;
    let location = list_in(alloc, words, first + 2, Part::Location)?;
    let channel = list_in(alloc, words, first + 3, Part::Channel)?;
    Ok(Selection {
        network,
        station,
        location,
        channel,
        start,
        end,
    })
}
