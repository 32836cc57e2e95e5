//! Cases of what the disk keeps: disks in memory, the journal's bytes, the spelling of entries, verdicts, archives, replicas.
//!
//! The cases are the steps of the files that the words name. It prints each step that gives something else than is wanted,
//! and how many steps each file has.
#![tactic(auto)]

mod archives;
mod bench;
mod disks;
mod entries;
mod histories;
mod journals;
mod names;
mod replicas;
mod scarce;

use bench::Bench;
use case_lines::Step;
use exact_time::OutOfMemory;
use std::alloc::{AllocError, Global};
use std::fs::Files;
use std::rt::Env;
use std::{env, fs, io};

// A file of cases.
#[derive(Drop)]
struct Cases {
    name: String,
    text: String,
}

// The files that the words name.
fn read_files(rt: &(impl Env + Files + AllocGlobal)) -> io::Result<Vec<Cases>> {
    let mut files = Vec::new(rt.alloc());
    'words: for name in env::args(rt)?.skip(1) {
        let text = fs::read_to_string(rt, name.as_str())?;
        files.push(Cases { name, text })?;
    }
    Ok(files)
}

// Goes through the steps of a file.
fn run_file(bench: &mut Bench, cases: &Cases, report: &mut String) -> Result<(), OutOfMemory> {
    let name = cases.name.as_str();
    let mut number = 0usize;
    let mut steps = 0usize;
    'lines: for line in cases.text.as_str().split('\n') {
        number = number.saturating_add(1);
        if let Some(step) = Step::of(number, line) {
            bench.run(name, &step, report)?;
            steps = steps.saturating_add(1);
        }
    }
    writeln!(report, "{name}: {steps} steps")?;
    Ok(())
}

// What is to be said of the files.
fn report_of(alloc: Global, files: &[Cases]) -> Result<String, OutOfMemory> {
    let mut bench = Bench::new(alloc);
    let mut report = String::new(alloc);
    'files: for cases in files {
        run_file(&mut bench, cases, &mut report)?;
    }
    Ok(report)
}

fn main(rt: HostRuntime) -> io::Result<()> {
    let files = read_files(&rt)?;
    match report_of(rt.alloc(), files.as_slice()) {
        Ok(report) => print!(rt; "{report}"),
        Err(OutOfMemory) => Err(AllocError.into()),
    }
}
