//! What the steps act on, and which call each of them is.
use crate::disks::{self, Drives};
use crate::histories::{self, Held};
use crate::names::{Names, told};
use crate::{archives, entries, journals, replicas};
use archive_journal::Journal;
use case_lines::{Step, escaped};
use disk_model::FuseDisk;
use exact_time::OutOfMemory;
use std::alloc::Global;

/// What the steps act on, from one to the next.
#[derive(Drop)]
pub struct Bench {
    alloc: Global,
    names: Names,
    drives: Drives,
    journal: Option<Journal<FuseDisk>>,
    held: Held,
}

impl Bench {
    pub fn new(alloc: Global) -> Bench {
        Bench {
            alloc,
            names: Names::new(alloc),
            drives: Drives {
                disk: None,
                fuse: None,
            },
            journal: None,
            held: Held::new(alloc),
        }
    }

    // What a step gives.
    fn given(&mut self, step: &Step<'_>) -> Result<String, OutOfMemory> {
        let alloc = self.alloc;
        let words = self.names.words(step.args)?;
        let words = words.as_slice();
        match step.call {
            "define" => self.names.define(words),
            "disk" => disks::given(alloc, &mut self.drives, words),
            "journal" => journals::given(alloc, &mut self.drives, &mut self.journal, words),
            "entry" => entries::given(alloc, words),
            "history" => histories::given(alloc, &mut self.held, words),
            "archive" => archives::given(alloc, &mut self.drives, words),
            "replica" => replicas::given(alloc, &mut self.drives, words),
            _ => told(alloc, "no such call"),
        }
    }

    /// Reports what a step gives, where that isn't what is wanted.
    pub fn run(
        &mut self,
        file: &str,
        step: &Step<'_>,
        report: &mut String,
    ) -> Result<(), OutOfMemory> {
        let given = self.given(step)?;
        let wanted = self.names.expanded(step.wanted)?;
        let wanted = escaped(self.alloc, wanted.as_slice())?;
        if given.as_str() != wanted.as_str() {
            writeln!(report, "{file}:{}: {given}", step.line)?;
        }
        Ok(())
    }
}
