//! Runs over streams of their own kinds: a source of zeros that tells nothing, and a reader and a writer of std.
ghost use Rattle.std.specs.Prelude.{None};

use crate::running::{Given, run_over};
use case_lines::escaped;
use centre::{Source, StdSink, StdSource, Stream};
use exact_time::{Bytes, Failed, OutOfMemory};
use std::alloc::Global;
use std::sync::Wait;
use std::thread::Threads;

// Gives so many zeros, and tells nothing.
#[derive(Drop)]
struct Zeros {
    left: usize,
}

impl Stream for Zeros {
    ghost view = { λ _. record { left = None; written = None; faults = 0 } };

    fn faults(&self) -> u64 {
        0
    }
}

impl Source for Zeros {
    fn take(&mut self, into: &mut [u8]) -> Result<usize, Failed> {
        let count = self.left.min(into.len());
        into[..count].fill(0);
        self.left -= count;
        Ok(count)
    }
}

/// How a run over so many zeros ends.
pub fn over_zeros<R: Threads + Wait + Sync>(
    rt: &R,
    alloc: Global,
    words: &[String],
    count: usize,
    given: Given,
) -> Result<String, OutOfMemory> {
    let Given {
        source: _,
        mut sink,
        disk,
        port,
        second,
    } = given;
    let mut source = Zeros { left: count };
    let told = run_over(rt, alloc, words, &mut source, &mut sink, disk, port, second)?;
    Ok(told.ending)
}

/// How a run from a reader to a writer of std ends, and what the writer got.
pub fn over_std<R: Threads + Wait + Sync>(
    rt: &R,
    alloc: Global,
    words: &[String],
    input: &Bytes,
    given: Given,
) -> Result<String, OutOfMemory> {
    let Given {
        source: _,
        sink: _,
        disk,
        port,
        second,
    } = given;
    let mut output: Vec<u8> = Vec::new(alloc);
    let mut source = StdSource::new(input.as_slice());
    let mut sink = StdSink::telling(&mut output);
    let told = run_over(rt, alloc, words, &mut source, &mut sink, disk, port, second)?;
    drop(sink);
    let ending = told.ending.as_str();
    let text = escaped(alloc, output.as_slice())?;
    Ok(format!(in alloc; "{ending} {text}")?)
}
