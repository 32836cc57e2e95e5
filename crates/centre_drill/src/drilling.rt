//! Makes an archive of made records, and tells what is counted of it.
ghost use Rattle.std.specs.Prelude.{◌≡◌, ◌++◌, ◌≤◌, string_bytes, IfOk, OnOk};
ghost use Rattle.archive_state.specs.History.{arrived_of};
ghost use Rattle.centre_drill.specs.Drill.{DrillRow, TellsFigures};
ghost use Rattle.centre_drill.specs.Figures.{figures_text, figures_with, line_of};

use crate::ending::DrillStop;
use crate::figures::Figures;
use crate::making::Making;
use archive_state::State;
use disk_model::Disk;
use exact_time::OutOfMemory;
use std::alloc::{AllocError, Global};
use streams::{Sink, put_all};

// Puts a line behind a text: a name and a number.
fn put_line(alloc: Global, text: &mut String, name: &str, number: u64) -> Result<(), AllocError>
    ensures { OnOk result (string_bytes text.new ≡ string_bytes text.old ++ line_of name.now number) }
{
    let line = format!(in alloc; "{name} {number}\n")?;
    text.push_str(line.as_str())
}

fn text_of(alloc: Global, figures: &Figures) -> Result<String, AllocError>
    ensures { IfOk result (λ text. string_bytes text ≡ figures_text figures.now) }
{
    let mut text = String::new(alloc);
    put_line(alloc, &mut text, "entries", figures.entries)?;
    put_line(alloc, &mut text, "records", figures.records)?;
    put_line(alloc, &mut text, "bytes", figures.bytes)?;
    put_line(alloc, &mut text, "spans", figures.spans)?;
    put_line(alloc, &mut text, "selected", figures.selected)?;
    Ok(text)
}

// The text of the figures of a state and of all records that have arrived.
fn told(alloc: Global, state: &State) -> Result<String, OutOfMemory>
    ensures { IfOk result (λ text. string_bytes text ≡ figures_text (figures_with state.now (arrived_of state.now))) }
{
    let figures = Figures::of(alloc, state)?;
    match text_of(alloc, &figures) {
        Ok(text) => Ok(text),
        Err(_) => Err(OutOfMemory),
    }
}

// Writes these figures.
fn tell<K: Sink>(alloc: Global, state: &State, sink: &mut K) -> Result<(), DrillStop>
    ensures { TellsFigures (figures_with state.now (arrived_of state.now)) (K.view sink.old) (K.view sink.new) result }
{
    let text = told(alloc, state)?;
    match put_all(sink, text.as_bytes()) {
        Ok(()) => Ok(()),
        Err(_) => Err(DrillStop::WriteFault),
    }
}

/// How a drill ended, and the disk that was handed in.
#[derive(Drop)]
pub struct Drilled<D: Disk> {
    pub ending: Result<(), DrillStop>,
    pub disk: D,
}

/// Makes an archive of so many made records, from 1 to 200,000, in the empty file of a disk, and then writes its figures
/// on a sink, each on a line.
pub fn drill<K: Sink, D: Disk>(alloc: Global, count: u32, sink: &mut K, disk: D) -> Drilled<D>
    requires { count ≤ 200_000 }
    ensures row { DrillRow count (K.view sink.old) (K.view sink.new) (D.view disk) (D.view result.disk) result.ending }
{
    let making = match Making::make(alloc, count, disk) {
        Ok(making) => making,
        Err((disk, stop)) => {
            return Drilled {
                ending: Err(stop),
                disk,
            };
        }
    };
    let Making { intake, state } = making;
    Drilled {
        ending: tell(alloc, &state, sink),
        disk: intake.close(),
    }
}
