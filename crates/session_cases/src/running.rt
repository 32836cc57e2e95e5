//! A run of a command over objects in memory.
ghost use Rattle.std.specs.Prelude.{◌≡◌, IfOk, length};

use crate::told::{Told, images_of, links_back};
use case_lines::{escaped, unescaped};
use centre::{Ended, MemorySink, MemorySource, Sink, Source, Worker, run};
use centre_session::FixedClock;
use disk_model::MemoryDisk;
use exact_time::{Bytes, Many, Moment, OutOfMemory};
use http_wire::MemoryLink;
use link_ports::MemoryPort;
use sample_data::{NOW, SECRET};
use snapshot_hall::OpenGate;
use std::alloc::Global;
use std::sync::Wait;
use std::thread::Threads;

/// What a run is given.
#[derive(Drop)]
pub struct Given {
    pub source: MemorySource,
    pub sink: MemorySink,
    pub disk: MemoryDisk,
    pub port: MemoryPort<MemoryLink>,
    /// The second of the clock, which stands still, behind 2024-03-01T00:00:00.
    pub second: u64,
}

/// The words of a command, of which each may be empty.
pub fn words_of(alloc: Global, text: &str) -> Result<Vec<String>, OutOfMemory> {
    let mut words = Vec::new(alloc);
    if text.is_empty() {
        return Ok(words);
    }
    'words: for word in text.split(' ') {
        let word = unescaped(alloc, word)?;
        let word = str::from_utf8(word.as_slice()).unwrap_or("");
        words.push(String::from_str(alloc, word)?)?;
    }
    Ok(words)
}

fn clock_at(second: u64) -> FixedClock {
    let micros = i64::try_from(second.saturating_mul(1_000_000)).unwrap_or(0);
    let moment = Moment {
        micros: NOW.micros.saturating_add(micros),
    };
    if moment.is_clock_moment() {
        return FixedClock::new(moment);
    }
    FixedClock::new(Moment { micros: 0 })
}

// One worker with this port.
fn worker_at(
    alloc: Global,
    port: MemoryPort<MemoryLink>,
    second: u64,
) -> Result<Vec<Worker<MemoryPort<MemoryLink>, FixedClock, OpenGate>>, OutOfMemory>
    ensures { IfOk result (λ workers. length workers.items ≡ 1) }
{
    let mut workers = Vec::new(alloc);
    workers.push(Worker {
        port,
        clock: clock_at(second),
        gate: OpenGate,
    })?;
    Ok(workers)
}

// What a run came to: what the links got, and how it ended in words.
fn told_of(
    alloc: Global,
    ended: &Ended<MemoryDisk, MemoryPort<MemoryLink>>,
    errors: &MemorySink,
) -> Result<Told, OutOfMemory> {
    let mut written = Bytes::new(alloc);
    let links = links_back(alloc, ended.ports.as_slice(), &mut written)?;
    let status = ended.status;
    let turns = match &ended.trail {
        Some(trail) => {
            let count = trail.as_slice().len();
            format!(in alloc; " turns {count}")?
        }
        None => String::new(alloc),
    };
    let text = escaped(alloc, errors.told().unwrap_or(b"lost"))?;
    let between = if text.is_empty() { "" } else { " " };
    Ok(Told {
        ending: format!(in alloc; "{status}{turns}{links}{between}{text}")?,
        written,
        images: images_of(alloc, &ended.disk)?,
    })
}

/// Runs the words over a source and a sink, a disk, a port and a second of the clock.
pub fn run_over<R: Threads + Wait + Sync, S: Source, K: Sink>(
    rt: &R,
    alloc: Global,
    words: &[String],
    source: &mut S,
    sink: &mut K,
    disk: MemoryDisk,
    port: MemoryPort<MemoryLink>,
    second: u64,
) -> Result<Told, OutOfMemory> {
    let workers = worker_at(alloc, port, second)?;
    let mut clock = clock_at(second);
    let mut errors = MemorySink::new(alloc, Many::new(alloc));
    let ended = run(
        rt,
        alloc,
        words,
        SECRET,
        source,
        sink,
        &mut errors,
        disk,
        &mut clock,
        workers,
    );
    told_of(alloc, &ended, &errors)
}

/// Runs the words over what is given. What the sink got comes before what the links got.
pub fn ran<R: Threads + Wait + Sync>(
    rt: &R,
    alloc: Global,
    words: &[String],
    given: Given,
) -> Result<Told, OutOfMemory> {
    let Given {
        mut source,
        mut sink,
        disk,
        port,
        second,
    } = given;
    let mut told = run_over(rt, alloc, words, &mut source, &mut sink, disk, port, second)?;
    let mut written = Bytes::new(alloc);
    written.extend(sink.told().unwrap_or(b"lost"))?;
    written.extend(told.written.as_slice())?;
    told.written = written;
    Ok(told)
}
