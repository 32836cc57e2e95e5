//! The command `select`.
ghost use Rattle.std.specs.Prelude.{◌≡◌};
ghost use Rattle.command_words.specs.Arguments.{words_at};
ghost use Rattle.centre_select.specs.Answers.{stop_for_data};
ghost use Rattle.centre_select.specs.Table.{streams, SelectRow};

use crate::ending::{SelectRefusal, SelectStop};
use crate::intake::take_records;
use crate::output::put_rows;
use crate::words::select_query;
use command_words::SelectArguments;
use dataselect::{All, DataRefusal, answer_places};
use std::alloc::Global;
use streams::{Sink, Source};
use time_index::TimeIndex;

// How a refusal of the answer stops it.
fn stop_for_data(limit: u64, refusal: DataRefusal) -> SelectStop
    ensures { result ≡ stop_for_data limit refusal }
{
    match refusal {
        DataRefusal::Empty => SelectStop::Refused(SelectRefusal::NoData),
        DataRefusal::TooLarge(bytes) => {
            SelectStop::Refused(SelectRefusal::TooLarge { bytes, limit })
        }
        DataRefusal::OutOfMemory => SelectStop::OutOfMemory,
    }
}

/// The command `select`: query, input, records, answer, output.
pub fn select<S: Source, K: Sink>(
    alloc: Global,
    arguments: &SelectArguments,
    source: &mut S,
    sink: &mut K,
) -> Result<(), SelectStop>
    ensures row { SelectRow (words_at arguments.now)
        (streams (S.view source.old) (K.view sink.old)) (streams (S.view source.new) (K.view sink.new))
        result }
{
    let query = match select_query(alloc, arguments) {
        Ok(query) => query,
        Err(stop) => return Err(stop),
    };
    let mut shelf = TimeIndex::new(alloc);
    match take_records(alloc, &query, source, &mut shelf) {
        Ok(()) => (),
        Err(untaken) => return Err(untaken),
    }
    let places = match answer_places(&shelf, &All, &query, arguments.limit) {
        Ok(places) => places,
        Err(refusal) => return Err(stop_for_data(arguments.limit, refusal)),
    };
    match put_rows(sink, &shelf, places.as_slice()) {
        Ok(()) => Ok(()),
        Err(_) => Err(SelectStop::WriteFault),
    }
}
