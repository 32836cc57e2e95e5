//! Cases of single values and of what goes over a link as values. The cases are text, in the files of `data/`: what is called, what it is
//! given, and what it has to give. The program prints each step that gives something else, and how many steps each file has.
//!
//! A program that is proved once runs them, so a case more costs no proof. The README says how a step is written.
#![tactic(auto)]

mod answers;
mod credentials;
mod fields;
mod given;
mod globs;
mod paths;
mod queries;
mod replies;
mod revisions;
mod times;
mod wire;

use case_lines::Step;
use exact_time::{OutOfMemory, Text};
use std::alloc::Global;
use std::{fs, io};
use wire::Wire;

// What the steps of a file are about.
#[derive(Clone, Copy)]
enum Family {
    Times,
    Globs,
    Revisions,
    Queries,
    Paths,
    Credentials,
    Replies,
    Wire,
}

const FILES: [(&str, Family); 10] = [
    ("times.txt", Family::Times),
    ("globs.txt", Family::Globs),
    ("revisions.txt", Family::Revisions),
    ("queries.txt", Family::Queries),
    ("paths.txt", Family::Paths),
    ("credentials.txt", Family::Credentials),
    ("replies.txt", Family::Replies),
    ("streams.txt", Family::Wire),
    ("requests.txt", Family::Wire),
    ("answers.txt", Family::Wire),
];

// What a step gives.
fn shown(
    alloc: Global,
    wire: &mut Wire,
    family: Family,
    step: &Step<'_>,
) -> Result<Text, OutOfMemory> {
    let mut out = Text::new(alloc);
    let given = given::given_of(alloc, step.args)?;
    let bytes = given.as_slice();
    match family {
        Family::Times => times::show(alloc, step.call, bytes, &mut out)?,
        Family::Globs => globs::show(alloc, step.call, bytes, &mut out)?,
        Family::Revisions => revisions::show(alloc, step.call, bytes, &mut out)?,
        Family::Queries => queries::show(alloc, step.call, bytes, &mut out)?,
        Family::Paths => paths::show(alloc, step.call, bytes, &mut out)?,
        Family::Credentials => credentials::show(alloc, step.call, bytes, &mut out)?,
        Family::Replies => replies::show(alloc, step.call, bytes, &mut out)?,
        Family::Wire => wire.show(step.call, bytes, &mut out)?,
    }
    Ok(out)
}

// What is to be said of the steps of a file, which act on one stream.
fn report_on(
    alloc: Global,
    wire: &mut Wire,
    name: &str,
    family: Family,
    text: &str,
) -> Result<String, OutOfMemory> {
    let mut said = String::new(alloc);
    let mut count: u32 = 0;
    'lines: for (place, line) in text.lines().enumerate() {
        let Some(step) = Step::of(place.saturating_add(1), line) else {
            continue 'lines;
        };
        count = count.saturating_add(1);
        let given = shown(alloc, wire, family, &step)?;
        if given.as_str() != step.wanted {
            writeln!(said, "{name}:{}: {}", step.line, given.as_str())?;
        }
    }
    writeln!(said, "{name}: {count} steps")?;
    Ok(said)
}

fn report(alloc: Global, name: &str, family: Family, text: &str) -> Result<String, OutOfMemory> {
    let mut wire = Wire::new(alloc)?;
    report_on(alloc, &mut wire, name, family, text)
}

fn main(rt: HostRuntime) -> io::Result<()> {
    'files: for (name, family) in FILES {
        let text = fs::read_to_string(&rt, name)?;
        match report(rt.alloc(), name, family, text.as_str()) {
            Ok(said) => print!(rt; "{said}")?,
            Err(fault) => println!(rt; "{name}: {fault}")?,
        }
    }
    Ok(())
}
