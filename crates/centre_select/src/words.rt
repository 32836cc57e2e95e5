//! The query that the words of `select` spell.
ghost use Rattle.std.specs.Prelude.{◌≡◌, ◌++◌, [], ◌∷◌, Some, IfOk, IfErr};
ghost use Rattle.exact_time.specs.MomentText.{IsMoment};
ghost use Rattle.channel_globs.specs.PatternText.{IsPatternList};
ghost use Rattle.query_parameters.specs.Values.{quality_of, flag_of, IsMinimum};
ghost use Rattle.command_words.specs.Arguments.{words_at};
ghost use Rattle.centre_select.specs.Words.{stop_for, code_words, time_words, CanReadWords, IsList, IsTime, IsQuality, IsLength, IsFlag, IsNamed, AreSelectOptions, IsSelectQuery, RefusesSelectWords, StopsWith};

use crate::ending::{SelectRefusal, SelectStop, Word};
use channel_globs::{GlobFault, Part, PatternList};
use command_words::SelectArguments;
use dataselect::{DataQuery, Nodata, Selection};
use exact_time::{Many, Moment};
use mseed_header::Quality;
use query_parameters::{read_flag, read_minimum, read_quality};
use std::alloc::Global;

// How a fault of a code word stops the run.
fn stop_for(fault: GlobFault, word: Word) -> SelectStop
    ensures { result ≡ stop_for fault word }
{
    match fault {
        GlobFault::OutOfMemory => SelectStop::OutOfMemory,
        _ => SelectStop::Refused(SelectRefusal::Value(word)),
    }
}

// The pattern list of a code word.
fn patterns(alloc: Global, text: &str, part: Part, word: Word) -> Result<PatternList, SelectStop>
    ensures ok { IfOk result (λ list. IsPatternList part text.now list) }
    ensures err { IfErr result (StopsWith (λ refusal. (refusal ≡ SelectRefusal.Value word) × (¬ (IsList part text.now)))) }
{
    match PatternList::read(alloc, text.as_bytes(), part) {
        Ok(list) => Ok(list),
        Err(fault) => Err(stop_for(fault, word)),
    }
}

// The moment of a time word.
fn moment(text: &str, word: Word) -> Result<Moment, SelectRefusal>
    ensures ok { IfOk result (λ m. IsMoment text.now m.micros) }
    ensures err { IfErr result (λ refusal. (refusal ≡ SelectRefusal.Value word) × (¬ (IsTime text.now))) }
{
    match Moment::read(text.as_bytes()) {
        Ok(moment) => Ok(moment),
        Err(_) => Err(SelectRefusal::Value(word)),
    }
}

// The quality that a word asks for.
fn quality(text: &str) -> Result<Option<Quality>, SelectRefusal>
    ensures ok { IfOk result (λ quality. quality_of text.now ≡ Some quality) }
    ensures err { IfErr result (λ refusal. (refusal ≡ SelectRefusal.Value Word.Quality) × (¬ (IsQuality text.now))) }
{
    match read_quality(text.as_bytes()) {
        Ok(quality) => Ok(quality),
        Err(_) => Err(SelectRefusal::Value(Word::Quality)),
    }
}

// The least length that a word asks for, in microseconds.
fn minimum(text: &str) -> Result<u64, SelectRefusal>
    ensures ok { IfOk result (λ minimum. IsMinimum text.now minimum) }
    ensures err { IfErr result (λ refusal. (refusal ≡ SelectRefusal.Value Word.Minimum) × (¬ (IsLength text.now))) }
{
    match read_minimum(text.as_bytes()) {
        Ok(minimum) => Ok(minimum),
        Err(_) => Err(SelectRefusal::Value(Word::Minimum)),
    }
}

// Whether a word asks for the longest segments alone.
fn longest(text: &str) -> Result<bool, SelectRefusal>
    ensures ok { IfOk result (λ longest. flag_of text.now ≡ Some longest) }
    ensures err { IfErr result (λ refusal. (refusal ≡ SelectRefusal.Value Word.Longest) × (¬ (IsFlag text.now))) }
{
    match read_flag(text.as_bytes()) {
        Ok(longest) => Ok(longest),
        Err(_) => Err(SelectRefusal::Value(Word::Longest)),
    }
}

// The selection of the four code words, without a window.
fn names(alloc: Global, arguments: &SelectArguments) -> Result<Selection, SelectStop>
    ensures ok { IfOk result (λ s. IsNamed (words_at arguments.now) s) }
    ensures err { IfErr result (StopsWith (RefusesSelectWords (words_at arguments.now))) }
{
    let network = patterns(alloc, arguments.network, Part::Network, Word::Network)?;
    let station = patterns(alloc, arguments.station, Part::Station, Word::Station)?;
    let location = patterns(alloc, arguments.location, Part::Location, Word::Location)?;
    let channel = patterns(alloc, arguments.channel, Part::Channel, Word::Channel)?;
    Ok(Selection {
        network,
        station,
        location,
        channel,
        start: None,
        end: None,
    })
}

// The moments of the two time words. The words before them can be read.
fn times(arguments: &SelectArguments) -> Result<(Moment, Moment), SelectRefusal>
    requires { CanReadWords (words_at arguments.now) code_words }
    ensures from { IfOk result (λ times. IsMoment arguments.now.start.now times.0.micros) }
    ensures to { IfOk result (λ times. IsMoment arguments.now.end.now times.1.micros) }
    ensures err { IfErr result (RefusesSelectWords (words_at arguments.now)) }
{
    let from = match moment(arguments.start, Word::Start) {
        Ok(from) => from,
        Err(refusal) => return Err(refusal),
    };
    match moment(arguments.end, Word::End) {
        Ok(to) => Ok((from, to)),
        Err(late) => Err(late),
    }
}

// What the option words ask for. The words before them can be read.
fn options(arguments: &SelectArguments) -> Result<(Option<Quality>, u64, bool), SelectRefusal>
    requires { CanReadWords (words_at arguments.now) (code_words ++ time_words) }
    ensures ok { IfOk result (λ options. AreSelectOptions (words_at arguments.now) options.0 options.1 options.2) }
    ensures err { IfErr result (RefusesSelectWords (words_at arguments.now)) }
{
    let quality = match quality(arguments.quality) {
        Ok(quality) => quality,
        Err(first) => return Err(first),
    };
    let minimum = match minimum(arguments.minimum) {
        Ok(minimum) => minimum,
        Err(second) => return Err(second),
    };
    match longest(arguments.longest) {
        Ok(longest) => Ok((quality, minimum, longest)),
        Err(third) => Err(third),
    }
}

// The list of one selection.
fn only(alloc: Global, selection: Selection) -> Result<Many<Selection>, SelectStop>
    ensures ok { IfOk result (λ selections. selections ≡ selection ∷ []) }
    ensures err { IfErr result (λ stop. stop ≡ SelectStop.OutOfMemory) }
{
    let mut selections = Many::new(alloc);
    selections.push(selection)?;
    Ok(selections)
}

/// The query of the words of `select`, or why they spell none.
pub fn select_query(alloc: Global, arguments: &SelectArguments) -> Result<DataQuery, SelectStop>
    ensures ok { IfOk result (λ query. IsSelectQuery (words_at arguments.now) query) }
    ensures err { IfErr result (StopsWith (RefusesSelectWords (words_at arguments.now))) }
{
    let mut selection = names(alloc, arguments)?;
    let (from, to) = match times(arguments) {
        Ok(times) => times,
        Err(untimely) => return Err(SelectStop::Refused(untimely)),
    };
    let (quality, minimum, longest) = match options(arguments) {
        Ok(options) => options,
        Err(refusal) => return Err(SelectStop::Refused(refusal)),
    };
    if from.micros > to.micros {
        return Err(SelectStop::Refused(SelectRefusal::Order));
    }
    selection.start = Some(from);
    selection.end = Some(to);
    let selections = only(alloc, selection)?;
    Ok(DataQuery {
        selections,
        quality,
        minimum,
        longest,
        nodata: Nodata::Quiet,
    })
}
