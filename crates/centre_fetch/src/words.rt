//! The words of `fetch`, read as those of `select`.
ghost use Rattle.std.specs.Prelude.{◌≡◌, ◌≢◌, None, Some, IfOk, IfErr};
ghost use Rattle.command_words.specs.Arguments.{words_at, fetch_words_at};
ghost use Rattle.command_words.specs.Commands.{FetchWords};
ghost use Rattle.centre_select.specs.Words.{RefusesSelectWords, StopsWith as SelectStopsWith};
ghost use Rattle.split_fetch.specs.declared.window.Window.{Window};
ghost use Rattle.centre_fetch.specs.Words.{as_select, codes_of, IsAsked, IsWindowOf, RefusesFetchWords, StopsWith};

use crate::ending::{FetchRefusal, FetchStop};
use centre_select::{SelectRefusal, SelectStop, select_query};
use command_words::{FetchArguments, SelectArguments};
use dataselect::DataQuery;
use exact_time::{Moment, OutOfMemory, Text};
use split_fetch::{Codes, Window};
use std::alloc::Global;

// The words of `select` with the same positions and no option.
fn as_select<'a>(arguments: &FetchArguments<'a>) -> SelectArguments<'a>
    ensures { words_at result ≡ as_select (fetch_words_at arguments.now) }
{
    SelectArguments {
        network: arguments.network,
        station: arguments.station,
        location: arguments.location,
        channel: arguments.channel,
        start: arguments.start,
        end: arguments.end,
        quality: "B",
        minimum: "0",
        longest: "false",
        limit: 268_435_456,
    }
}

// How what stops `select` at its words stops `fetch`.
fn stop_at(stop: SelectStop) -> FetchStop
    ensures { (w : FetchWords) → SelectStopsWith (RefusesSelectWords (as_select w)) stop → StopsWith (RefusesFetchWords w) result }
{
    match stop {
        SelectStop::Refused(SelectRefusal::Value(word)) => {
            FetchStop::Refused(FetchRefusal::Value(word))
        }
        SelectStop::Refused(SelectRefusal::Order) => FetchStop::Refused(FetchRefusal::Order),
        _ => FetchStop::OutOfMemory,
    }
}

// The moment of a limit that is there.
fn moment_of(limit: Option<Moment>) -> Moment
    requires { limit ≢ None }
    ensures { limit ≡ Some result }
{
    match limit {
        Some(moment) => moment,
        None => unreachable!(),
    }
}

// The window of the query's one selection.
fn window_of(query: &DataQuery) -> Window
    requires { (window : Window) × IsWindowOf query.now window }
    ensures { IsWindowOf query.now result }
{
    let selection = &query.selections.as_slice()[0];
    Window {
        start: moment_of(selection.start),
        end: moment_of(selection.end),
    }
}

/// The window that the words ask for, or why they spell none.
pub(crate) fn asked_window(alloc: Global, arguments: &FetchArguments) -> Result<Window, FetchStop>
    ensures ok { IfOk result (IsAsked (fetch_words_at arguments.now)) }
    ensures err { IfErr result (StopsWith (RefusesFetchWords (fetch_words_at arguments.now))) }
{
    match select_query(alloc, &as_select(arguments)) {
        Ok(query) => Ok(window_of(&query)),
        Err(stop) => Err(stop_at(stop)),
    }
}

fn text_of(alloc: Global, text: &str) -> Result<Text, OutOfMemory>
    ensures { IfOk result (λ copy. copy ≡ text.now) }
{
    let mut copy = Text::new(alloc);
    copy.push(text)?;
    Ok(copy)
}

/// The codes as the words spell them.
pub(crate) fn codes_of(alloc: Global, arguments: &FetchArguments) -> Result<Codes, OutOfMemory>
    ensures { IfOk result (λ codes. codes ≡ codes_of (fetch_words_at arguments.now)) }
{
    Ok(Codes {
        network: text_of(alloc, arguments.network)?,
        station: text_of(alloc, arguments.station)?,
        location: text_of(alloc, arguments.location)?,
        channel: text_of(alloc, arguments.channel)?,
    })
}
