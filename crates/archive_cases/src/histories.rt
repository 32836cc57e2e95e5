//! Verdicts on what is posted over a history, its next entries, and what it holds.
ghost use Rattle.archive_state.specs.Admits.{IsAdmit};
ghost use Rattle.archive_state.specs.Lawful.{IsLawful};

use crate::names::{copy, number, text, told, word};
use archive_entry::{Entry, Kind};
use archive_state::{Admit, Limits, Posted, State, Verdict, the_next_entry_can_be_absorbed};
use dataselect::Shelf;
use exact_time::{Bytes, Moment, OutOfMemory, Text};
use http_digest::Credentials;
use sample_data::{NOW, SECRET};
use std::alloc::Global;

/// A history: what judges the next entry, and what holds the others.
#[derive(Drop)]
pub struct Held {
    alloc: Global,
    admit: Admit,
    state: State,
    ghost stands: { IsAdmit admit state },
    ghost lawful: { IsLawful state },
}

impl Held {
    /// Of no entries.
    pub fn new(alloc: Global) -> Held {
        Held {
            alloc,
            admit: Admit::new(alloc),
            state: State::new(alloc),
        }
    }

    // Takes in an entry, and says whether it is the next one. Where memory is missing, it may forget all.
    fn take(&mut self, entry: &Entry) -> Result<bool, OutOfMemory> {
        if !self.admit.next_lawful(entry)? {
            return Ok(false);
        }
        the_next_entry_can_be_absorbed();
        self.state.absorb(entry)?;
        match self.admit.note(entry) {
            Ok(()) => Ok(true),
            Err(OutOfMemory) => {
                self.admit = Admit::new(self.alloc);
                self.state = State::new(self.alloc);
                Err(OutOfMemory)
            }
        }
    }

    // The verdict on what is posted.
    fn judged(
        &self,
        posted: &Posted,
        name: &[u8],
        limits: &Limits,
    ) -> Result<Verdict, OutOfMemory> {
        let number = if posted.seq == 0 {
            None
        } else {
            self.admit.earlier(name, posted.seq)
        };
        let earlier = match number {
            Some(number) => self
                .state
                .entries()
                .get((number as usize).saturating_sub(1)),
            None => None,
        };
        self.admit.judge(posted, earlier, NOW, &SECRET, limits)
    }

    // The number of an author's entry.
    fn earlier(&self, author: &[u8], seq: u64) -> Option<u64> {
        if seq == 0 {
            return None;
        }
        self.admit.earlier(author, seq)
    }

    // How many entries, rows and live lines it has, by what judges and by what holds.
    fn sizes(&self) -> Result<String, OutOfMemory> {
        Ok(format!(in self.alloc;
            "{} {} entries, {} {} lines, {} rows",
            self.admit.count(),
            self.state.entries().len(),
            self.admit.catalog().lines().len(),
            self.state.catalog().lines().len(),
            self.state.shelf().len(),
        )?)
    }

    // The entry, the moment and the place of a row.
    fn row(&self, n: u64) -> Result<String, OutOfMemory> {
        let shelf = self.state.shelf();
        if n >= shelf.len() as u64 {
            return told(self.alloc, "none");
        }
        let row = shelf.row(n as usize);
        Ok(format!(in self.alloc; "{} {} {}", row.entry, row.moment.micros, row.place)?)
    }
}

fn kind_of(words: &[Bytes], n: usize) -> Kind {
    match word(words, n) {
        b"batch" => Kind::Batch,
        _ => Kind::Revise,
    }
}

// An entry: its number, its moment in microseconds, its author, its number among the author's, its kind and its body.
fn entry_of(alloc: Global, words: &[Bytes]) -> Result<Entry, OutOfMemory> {
    let mut author = Text::new(alloc);
    author.push(text(words, 3))?;
    Ok(Entry {
        number: number(words, 1),
        moment: Moment {
            micros: i64::try_from(number(words, 2)).unwrap_or(0),
        },
        author,
        seq: number(words, 4),
        kind: kind_of(words, 5),
        body: copy(alloc, word(words, 6)),
    })
}

// What a user posts: the header, the sequence number, the kind and the body.
fn posted_of(alloc: Global, words: &[Bytes]) -> Posted {
    Posted {
        credentials: Credentials {
            header: Some(copy(alloc, word(words, 2))),
            method: copy(alloc, b"POST"),
            target: copy(alloc, b"/feed/1/batch?seq=1"),
        },
        kind: kind_of(words, 4),
        seq: number(words, 3),
        body: copy(alloc, word(words, 5)),
    }
}

// How many records, and how many bytes, an archive may have; the greatest limits where none are given.
fn limits_of(words: &[Bytes]) -> Limits {
    let max_records = number(words, 6);
    let max_archive = number(words, 7);
    if max_records == 0 || max_records > 2_097_152 {
        return Limits::FULL;
    }
    if max_archive == 0 || max_archive > 536_870_912 {
        return Limits::FULL;
    }
    Limits {
        max_bytes: 67_108_864,
        max_lines: 100_000,
        max_records,
        max_archive,
    }
}

fn judged(alloc: Global, held: &Held, words: &[Bytes]) -> Result<String, OutOfMemory> {
    let posted = posted_of(alloc, words);
    Ok(
        match held.judged(&posted, word(words, 1), &limits_of(words))? {
            Verdict::BadRecord { at, fault } => format!(in alloc; "BadRecord at {at}: {fault:?}")?,
            Verdict::BadLine { line, fault } => format!(in alloc; "BadLine {line}: {fault:?}")?,
            Verdict::Broken { line, rule } => format!(in alloc; "Broken {line}: {rule:?}")?,
            verdict => format!(in alloc; "{verdict:?}")?,
        },
    )
}

/// What a step gives.
pub fn given(alloc: Global, held: &mut Held, words: &[Bytes]) -> Result<String, OutOfMemory> {
    match word(words, 0) {
        b"new" => {
            *held = Held::new(alloc);
            held.sizes()
        }
        b"take" => {
            let is_next = held.take(&entry_of(alloc, words)?)?;
            Ok(format!(in alloc; "{is_next}")?)
        }
        b"judge" => judged(alloc, held, words),
        b"earlier" => {
            let number = held.earlier(word(words, 1), number(words, 2));
            Ok(format!(in alloc; "{number:?}")?)
        }
        b"sizes" => held.sizes(),
        b"arrived" => held.row(number(words, 1)),
        _ => told(alloc, "no such call"),
    }
}
