//! All that the program of `select` alone does.
ghost use Rattle.std.specs.Prelude.{◌≡◌, map, string_bytes};
ghost use Rattle.command_words.specs.Arguments.{words_at};
ghost use Rattle.command_words.specs.Commands.{command_of};
ghost use Rattle.centre_select.specs.Table.{streams, IsHelpRun, IsRun, IsSelectRun, ShowRow, ToldSo};

use crate::ending::SelectStop;
use crate::help::SELECT_HELP;
use crate::selecting::select;
use crate::telling::{out_of_memory, tell_stop, unknown_command};
use command_words::{CommandName, CommandWords, SelectArguments, Shown, command_in};
use exact_time::OutOfMemory;
use std::alloc::Global;
use streams::{Sink, Source, put_all};

// Shows a text, by the same path as data.
fn show<S: Source, K: Sink>(text: &str, source: &S, sink: &mut K) -> Result<(), SelectStop>
    ensures row { ShowRow text.now
        (streams (S.view source.now) (K.view sink.old)) (streams (S.view source.now) (K.view sink.new))
        result }
{
    match put_all(sink, text.as_bytes()) {
        Ok(()) => Ok(()),
        Err(_) => Err(SelectStop::WriteFault),
    }
}

// The status of an ending. What is told in its stead is want of memory alone.
fn end_run<E: Sink>(alloc: Global, errors: &mut E, ending: Result<(), SelectStop>) -> u8
    ensures { ToldSo ending (E.view errors.old) (E.view errors.new) result }
{
    match ending {
        Ok(()) => 0,
        Err(stop) => tell_stop(alloc, errors, stop).status(),
    }
}

// The words of `select`.
fn run_words<S: Source, K: Sink, E: Sink>(
    alloc: Global,
    arguments: &SelectArguments,
    source: &mut S,
    sink: &mut K,
    errors: &mut E,
) -> u8
    ensures { IsSelectRun (words_at arguments.now)
        (streams (S.view source.old) (K.view sink.old)) (streams (S.view source.new) (K.view sink.new))
        (E.view errors.old) (E.view errors.new) result }
{
    let ending = select(alloc, arguments, source, sink);
    end_run(alloc, errors, ending)
}

// The words that show what those of `select` are.
fn run_help<S: Source, K: Sink, E: Sink>(
    alloc: Global,
    source: &S,
    sink: &mut K,
    errors: &mut E,
) -> u8
    ensures { IsHelpRun
        (streams (S.view source.now) (K.view sink.old)) (streams (S.view source.now) (K.view sink.new))
        (E.view errors.old) (E.view errors.new) result }
{
    let ending = show(SELECT_HELP, source, sink);
    end_run(alloc, errors, ending)
}

/// Does what the words ask for where they are those of `select`, and answers the exit status. `words` are those after the
/// program's name. On `errors` it tells why it stopped; a fault there leaves the status. Words that aren't those of `select`
/// are no command here.
///
/// | status | comes where |
/// |---|---|
/// | 0 | the sink got the whole answer, or what the words of `select` are |
/// | 1 | the words aren't those of `select` |
/// | 2 | a word of the query, or a record of the input, is refused |
/// | 3 | no record is picked |
/// | 4 | the answer is longer than the limit |
/// | 5, 6 | the source, the sink failed |
/// | 10 | the input is longer than 67,108,864 bytes |
/// | 70 | memory ran out |
pub fn run_select<S: Source, K: Sink, E: Sink>(
    alloc: Global,
    words: &[String],
    source: &mut S,
    sink: &mut K,
    errors: &mut E,
) -> u8
    ensures { IsRun (command_of (map string_bytes words.now))
        (streams (S.view source.old) (K.view sink.old)) (streams (S.view source.new) (K.view sink.new))
        (E.view errors.old) (E.view errors.new) result }
{
    let command = match command_in(alloc, words) {
        Ok(command) => command,
        Err(OutOfMemory) => return out_of_memory(errors),
    };
    match command {
        Some(CommandWords::Select(arguments)) => {
            run_words(alloc, &arguments, source, sink, errors)
        }
        Some(CommandWords::Show(Shown::HelpOf(CommandName::Select))) => {
            run_help(alloc, source, sink, errors)
        }
        _ => unknown_command(errors),
    }
}
