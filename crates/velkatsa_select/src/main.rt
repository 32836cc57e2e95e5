//! The program of `select` alone: its words, standard input, output and error, and [`centre_select::run_select`] over them.
//!
//! What those streams give and take is not proved, since a real one tells nothing.
#![tactic(auto)]

use centre_select::{StdSink, StdSource, out_of_memory, run_select};
use std::alloc::Global;
use std::process::ExitCode;
use std::rt::Env;
use std::{env, io};

// The words after the program's name.
fn words_after(rt: &(impl Env + AllocGlobal), alloc: Global) -> io::Result<Vec<String>> {
    let mut words: Vec<String> = env::args(rt)?.collect(alloc)?;
    if !words.is_empty() {
        words.remove(0);
    }
    Ok(words)
}

fn main(rt: HostRuntime) -> ExitCode {
    let alloc = rt.alloc();
    let mut source = StdSource::new(rt.stdin());
    let mut sink = StdSink::new(rt.stdout());
    let mut errors = StdSink::new(rt.stderr());
    let words = match words_after(&rt, alloc) {
        Ok(words) => words,
        Err(error) if error.kind() == io::ErrorKind::OutOfMemory => {
            return ExitCode::from(out_of_memory(&mut errors));
        }
        // A word that is no text makes no command, as no words make none.
        Err(_) => Vec::new(alloc),
    };
    ExitCode::from(run_select(alloc, &words, &mut source, &mut sink, &mut errors))
}
