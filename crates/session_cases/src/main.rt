//! Cases of the commands, over objects in memory: `select`, `init`, `talk`, `serve`, `drill` and `fetch` are run as the program runs
//! them, on a file, an input and calls that fail, and what they print and leave is compared with what the case wants.
//!
//! The words of the program are the names of its files of cases.
#![tactic(auto)]

mod aside;
mod asking;
mod desks;
mod names;
mod records;
mod running;
mod told;
mod world;

use case_lines::Step;
use exact_time::OutOfMemory;
use std::process::ExitCode;
use std::sync::Wait;
use std::thread::Threads;
use std::{env, fs, io};
use world::World;

// What became of a file of cases: how many steps it has, and how many gave something else than is wanted.
#[derive(Clone, Copy)]
struct Count {
    steps: usize,
    failed: usize,
}

// Makes the steps of a file, and prints each that gives something else.
fn try_file<R: AllocGlobal + Print + Threads + Wait + Sync>(
    rt: &R,
    name: &str,
    text: &str,
) -> io::Result<Count> {
    let mut world = World::new(rt.alloc());
    let mut count = Count {
        steps: 0,
        failed: 0,
    };
    'lines: for (place, line) in text.lines().enumerate() {
        let Some(step) = Step::of(place.saturating_add(1), line) else {
            continue 'lines;
        };
        count.steps = count.steps.saturating_add(1);
        let given = match world.given(rt, step) {
            Ok(given) => given,
            Err(OutOfMemory) => return Err(io::ErrorKind::OutOfMemory.into()),
        };
        if let Some(given) = given {
            count.failed = count.failed.saturating_add(1);
            let line = step.line;
            println!(rt; "{name}:{line}: {given}")?;
        }
    }
    Ok(count)
}

fn main(rt: HostRuntime) -> io::Result<ExitCode> {
    let alloc = rt.alloc();
    let words: Vec<String> = env::args(&rt)?.collect(alloc)?;
    let mut failed = false;
    'files: for name in words.iter().skip(1) {
        let text = fs::read_to_string(&rt, name.as_str())?;
        let count = try_file(&rt, name.as_str(), text.as_str())?;
        failed = failed || count.failed > 0;
        let steps = count.steps;
        println!(rt; "{name}: {steps} steps")?;
    }
    Ok(ExitCode::from(u8::from(failed)))
}
