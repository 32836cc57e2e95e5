//! What the steps act on, and which call each of them is.
use crate::names::{Names, told};
use crate::shelves::{self, Shelves};
use crate::{access, catalogs, queries, texts};
use case_lines::{Step, escaped};
use dataselect::DataQuery;
use epoch_catalog::Catalog;
use exact_time::OutOfMemory;
use std::alloc::Global;

/// What the steps act on, from one to the next.
#[derive(Drop)]
pub struct Bench {
    alloc: Global,
    names: Names,
    catalog: Catalog,
    shelves: Shelves,
    queries: Vec<DataQuery>,
}

impl Bench {
    pub fn new(alloc: Global) -> Bench {
        Bench {
            alloc,
            names: Names::new(alloc),
            catalog: Catalog::new(alloc),
            shelves: Shelves::new(alloc),
            queries: Vec::new(alloc),
        }
    }

    // What a step gives.
    fn given(&mut self, step: &Step<'_>) -> Result<String, OutOfMemory> {
        let alloc = self.alloc;
        let words = self.names.words(step.args)?;
        let words = words.as_slice();
        match step.call {
            "define" => self.names.define(words),
            "catalog" => catalogs::given(alloc, &mut self.catalog, words),
            "query" => queries::given(alloc, &mut self.queries, words),
            "shelf" => shelves::given(alloc, &mut self.shelves, self.queries.as_slice(), words),
            "access" => access::given(
                alloc,
                &self.catalog,
                &self.shelves,
                self.queries.as_slice(),
                words,
            ),
            "text" => texts::given(alloc, &self.catalog, &self.shelves.plain, words),
            _ => told(alloc, "no such call"),
        }
    }

    /// Reports what a step gives, where that isn't what is wanted.
    pub fn run(
        &mut self,
        file: &str,
        step: &Step<'_>,
        report: &mut String,
    ) -> Result<(), OutOfMemory> {
        let given = self.given(step)?;
        let wanted = self.names.expanded(step.wanted)?;
        let wanted = escaped(self.alloc, wanted.as_slice())?;
        if given.as_str() != wanted.as_str() {
            writeln!(report, "{file}:{}: {given}", step.line)?;
        }
        Ok(())
    }
}
