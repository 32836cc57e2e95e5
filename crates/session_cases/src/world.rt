//! What the steps of a case set and look at.
use crate::aside::{over_std, over_zeros};
use crate::asking::{credentials, cut_word, plain, posted, put_reply};
use crate::desks::{calls_of, submitted};
use crate::names::Names;
use crate::records::{answered, chosen, count_of, header_of, inserted, rows_of, sample_at};
use crate::running::{Given, ran, words_of};
use crate::told::{Told, disk_of, recovered};
use case_lines::{Step, escaped};
use centre::{MemorySink, MemorySource};
use disk_model::MemoryDisk;
use exact_time::{Bytes, Many, OutOfMemory};
use http_wire::MemoryLink;
use link_ports::MemoryPort;
use std::alloc::Global;
use std::mem;
use std::sync::Wait;
use std::thread::Threads;

// 2024-03-01T00:00:00
const NOW: u64 = 1_709_251_200;

// Which calls fail, from 1, and how many bytes a sink takes.
#[derive(Drop)]
struct Faults {
    disk: Many<u64>,
    source: Many<u64>,
    sink: Many<u64>,
    link: Many<u64>,
    port: Many<u64>,
    room: Option<u64>,
}

impl Faults {
    fn none(alloc: Global) -> Faults {
        Faults {
            disk: Many::new(alloc),
            source: Many::new(alloc),
            sink: Many::new(alloc),
            link: Many::new(alloc),
            port: Many::new(alloc),
            room: None,
        }
    }
}

/// What the next run is given, what is wanted of it, and what the last one came to.
#[derive(Drop)]
pub struct World {
    names: Names,
    file: Bytes,
    input: Bytes,
    links: Many<Bytes>,
    piece: usize,
    second: u64,
    faults: Faults,
    wanted: Bytes,
    size: Option<usize>,
    told: Option<Told>,
}

// The numbers that a text lists, as `9,11`; `9-` are the forty from 9 on.
fn numbers(alloc: Global, text: &str) -> Result<Many<u64>, OutOfMemory> {
    let mut numbers = Many::new(alloc);
    if let Some((first, _)) = text.split_once('-') {
        let first: u64 = first.parse().unwrap_or(0);
        'calls: for call in first..first.saturating_add(40) {
            numbers.push(call)?;
        }
        return Ok(numbers);
    }
    'numbers: for number in text.split(',') {
        numbers.push(number.parse().unwrap_or(0))?;
    }
    Ok(numbers)
}

// Bytes in pieces of a size.
fn pieces(alloc: Global, bytes: &[u8], size: usize) -> Result<Many<Bytes>, OutOfMemory> {
    let mut pieces = Many::new(alloc);
    if size == 0 {
        return Ok(pieces);
    }
    'pieces: for chunk in bytes.chunks(size) {
        let mut piece = Bytes::new(alloc);
        piece.extend(chunk)?;
        pieces.push(piece)?;
    }
    Ok(pieces)
}

// A link that gives these bytes in pieces of a size, and fails at these calls.
fn link_of(
    alloc: Global,
    bytes: &[u8],
    size: usize,
    fails: Many<u64>,
) -> Result<MemoryLink, OutOfMemory> {
    let pieces = pieces(alloc, bytes, size)?;
    Ok(MemoryLink::new(alloc, pieces, fails))
}

// Whether a text names each path of the service.
fn names_paths(text: &str) -> bool {
    service_paths::routes()
        .iter()
        .all(|route| text.contains(route.path))
}

impl World {
    pub fn new(alloc: Global) -> World {
        World {
            names: Names::new(alloc),
            file: Bytes::new(alloc),
            input: Bytes::new(alloc),
            links: Many::new(alloc),
            piece: 1_000_000,
            second: 0,
            faults: Faults::none(alloc),
            wanted: Bytes::new(alloc),
            size: None,
            told: None,
        }
    }

    /// Makes a step. What it gives, unless that is what is wanted.
    pub fn given<R: AllocGlobal + Threads + Wait + Sync>(
        &mut self,
        rt: &R,
        step: Step,
    ) -> Result<Option<String>, OutOfMemory> {
        let alloc = rt.alloc();
        match step.call {
            "run" => self.run(rt, alloc, step),
            "entries" | "images" => self.look(alloc, step),
            "left" | "paths" => self.hold(alloc, step),
            "zeros" | "std" | "calls" | "submit" => {
                let given = self.aside(rt, alloc, step)?;
                Ok((given.as_str() != step.wanted).then_some(given))
            }
            "header" | "sample" | "count" | "rows" | "insert" | "choose" => {
                let given = self.read(alloc, step)?;
                Ok((given.as_str() != step.wanted).then_some(given))
            }
            "answer" => self.answer(alloc, step),
            "plain" | "signed" | "posted" | "command" | "want" | "want-text" => {
                self.ask(alloc, step)?;
                Ok(None)
            }
            "let" | "file" | "save" | "crash" | "in" | "link" => self.put(alloc, step),
            _ => self.set(alloc, step),
        }
    }

    // Sets what the next run is given beside its input.
    fn set(&mut self, alloc: Global, step: Step) -> Result<Option<String>, OutOfMemory> {
        let number = step.args.parse().ok();
        match step.call {
            "disk" => self.faults.disk = numbers(alloc, step.args)?,
            "source" => self.faults.source = numbers(alloc, step.args)?,
            "sink" => self.faults.sink = numbers(alloc, step.args)?,
            "breaks" => self.faults.link = numbers(alloc, step.args)?,
            "port" => self.faults.port = numbers(alloc, step.args)?,
            "room" => self.faults.room = step.args.parse().ok(),
            "size" => self.size = number,
            "pieces" => self.piece = number.unwrap_or(0),
            "clock" => self.second = step.args.parse().unwrap_or(0),
            _ => return Ok(Some(String::from_str(alloc, "no such call")?)),
        }
        Ok(None)
    }

    // Gives bytes a name, or takes them for the file or the input.
    fn put(&mut self, alloc: Global, step: Step) -> Result<Option<String>, OutOfMemory> {
        match step.call {
            "let" => {
                let (name, text) = cut_word(step.args);
                let bytes = self.names.expanded(alloc, text)?;
                self.names.give(alloc, name, bytes)?;
            }
            "file" => self.file = self.names.expanded(alloc, step.args)?,
            "save" => self.names.give(alloc, step.args, self.file.copy(alloc)?)?,
            "crash" => self.file = self.image(alloc, step.args)?,
            "in" => {
                let bytes = self.names.expanded(alloc, step.args)?;
                self.input.extend(bytes.as_slice())?;
                let wanted = self.names.expanded(alloc, step.wanted)?;
                self.wanted.extend(wanted.as_slice())?;
            }
            _ => {
                let input = mem::replace(&mut self.input, Bytes::new(alloc));
                self.links.push(input)?;
            }
        }
        Ok(None)
    }

    // The image of this number that the last run left, from 0.
    fn image(&self, alloc: Global, number: &str) -> Result<Bytes, OutOfMemory> {
        let number: usize = number.parse().unwrap_or(0);
        match &self.told {
            Some(told) => match told.images.as_slice().get(number) {
                Some(image) => image.copy(alloc),
                None => Ok(Bytes::new(alloc)),
            },
            None => Ok(Bytes::new(alloc)),
        }
    }

    // Adds a request to the input, and the reply that is wanted of it.
    fn ask(&mut self, alloc: Global, step: Step) -> Result<(), OutOfMemory> {
        let second = NOW.saturating_add(self.second);
        let (first, behind) = cut_word(step.args);
        match step.call {
            "plain" => {
                let (line, fields) = step.args.split_once(" | ").unwrap_or((step.args, ""));
                let fields = self.names.expanded(alloc, fields)?;
                let fields = str::from_utf8(fields.as_slice()).unwrap_or("");
                self.input.extend(plain(alloc, line, fields)?.as_bytes())?;
            }
            "signed" => {
                let fields = credentials(alloc, first, "GET", behind, second)?;
                let line = format!(in alloc; "GET {behind}")?;
                let request = plain(alloc, line.as_str(), fields.as_str())?;
                self.input.extend(request.as_bytes())?;
            }
            "posted" => self.post(alloc, first, "", behind)?,
            "want" | "want-text" => return self.want(alloc, step.call, step.args),
            _ => {
                let (target, body) = cut_word(behind);
                let fields = credentials(alloc, first, "POST", target, second)?;
                self.post(alloc, target, fields.as_str(), body)?;
            }
        }
        if step.wanted.is_empty() {
            return Ok(());
        }
        self.want(alloc, step.call, step.wanted)
    }

    fn post(
        &mut self,
        alloc: Global,
        target: &str,
        fields: &str,
        body: &str,
    ) -> Result<(), OutOfMemory> {
        let body = self.names.expanded(alloc, body)?;
        let head = posted(alloc, target, fields, body.len())?;
        self.input.extend(head.as_bytes())?;
        self.input.extend(body.as_slice())
    }

    // A reply: `whole` and its text; or its status, its front and its body, of records where that begins with a brace (but for
    // `want-text`).
    fn want(&mut self, alloc: Global, call: &str, reply: &str) -> Result<(), OutOfMemory> {
        let (status, behind) = cut_word(reply);
        if status == "whole" {
            let bytes = self.names.expanded(alloc, behind)?;
            return self.wanted.extend(bytes.as_slice());
        }
        let (front, body) = cut_word(behind);
        let is_records = body.starts_with('{') && call != "want-text";
        let body = self.names.expanded(alloc, body)?;
        put_reply(
            alloc,
            &mut self.wanted,
            status,
            front,
            is_records,
            body.as_slice(),
        )
    }

    // What the last run left: how many entries are recovered of each image, or whether each is these bytes.
    fn look(&self, alloc: Global, step: Step) -> Result<Option<String>, OutOfMemory> {
        let mut given = String::new(alloc);
        let wanted = self.names.expanded(alloc, step.args)?;
        if let Some(told) = &self.told {
            'images: for image in told.images.as_slice() {
                let between = if given.is_empty() { "" } else { " " };
                given.push_str(between)?;
                if step.call == "entries" {
                    given.push_str(recovered(alloc, image.as_slice())?.as_str())?;
                    continue 'images;
                }
                let is_same = image.as_slice() == wanted.as_slice();
                given.push_str(if is_same { "same" } else { "other" })?;
            }
        }
        Ok((given.as_str() != step.wanted).then_some(given))
    }

    // Whether an image that the last run left is these bytes, or a text names each path of the service.
    fn hold(&self, alloc: Global, step: Step) -> Result<Option<String>, OutOfMemory> {
        let (number, text) = cut_word(step.args);
        let given = if step.call == "left" {
            let wanted = self.names.expanded(alloc, text)?;
            let image = self.image(alloc, number)?;
            if image.as_slice() == wanted.as_slice() {
                "same"
            } else {
                "other"
            }
        } else {
            let text = self.names.expanded(alloc, step.args)?;
            if names_paths(str::from_utf8(text.as_slice()).unwrap_or("")) {
                "all"
            } else {
                "not all"
            }
        };
        if given == step.wanted {
            return Ok(None);
        }
        Ok(Some(String::from_str(alloc, given)?))
    }

    // What a desk by itself tells of a batch that a user posts so many times.
    fn submit<R: Wait>(
        &mut self,
        rt: &R,
        alloc: Global,
        step: Step,
    ) -> Result<String, OutOfMemory> {
        let (times, behind) = cut_word(step.args);
        let (user, behind) = cut_word(behind);
        let (seq, body) = cut_word(behind);
        let body = self.names.expanded(alloc, body)?;
        let Given { disk, .. } = self.take(alloc)?;
        let times = times.parse().unwrap_or(0);
        let (text, left) = submitted(rt, alloc, disk, times, user, seq, body)?;
        self.file = left;
        Ok(text)
    }

    // A run over zeros, or from a reader to a writer of std; or the calls of a desk that the request takes which the input is.
    fn aside<R: Threads + Wait + Sync>(
        &mut self,
        rt: &R,
        alloc: Global,
        step: Step,
    ) -> Result<String, OutOfMemory> {
        if step.call == "submit" {
            return self.submit(rt, alloc, step);
        }
        if step.call == "calls" {
            let input = mem::replace(&mut self.input, Bytes::new(alloc));
            self.wanted = Bytes::new(alloc);
            return calls_of(rt, alloc, self.file.as_slice(), input.as_slice());
        }
        let input = self.input.copy(alloc)?;
        let given = self.take(alloc)?;
        let (count, words) = cut_word(step.args);
        if step.call == "zeros" {
            let words = words_of(alloc, words)?;
            return over_zeros(rt, alloc, &words, count.parse().unwrap_or(0), given);
        }
        over_std(rt, alloc, &words_of(alloc, step.args)?, &input, given)
    }

    // What is read of a record, or of the file as a batch of records.
    fn read(&self, alloc: Global, step: Step) -> Result<String, OutOfMemory> {
        let (first, behind) = cut_word(step.args);
        let file = self.file.as_slice();
        if step.call == "sample" {
            let (micros, record) = cut_word(behind);
            let record = self.names.expanded(alloc, record)?;
            return sample_at(alloc, first, micros, record.as_slice());
        }
        if step.call == "choose" {
            let query = self.names.expanded(alloc, behind)?;
            return chosen(alloc, first, query.as_slice(), file);
        }
        match step.call {
            "header" => {
                let record = self.names.expanded(alloc, step.args)?;
                header_of(alloc, record.as_slice())
            }
            "count" => count_of(alloc, file),
            "rows" => rows_of(alloc, file),
            _ => inserted(alloc, file),
        }
    }

    // The records that a query chooses of the file as a batch.
    fn answer(&self, alloc: Global, step: Step) -> Result<Option<String>, OutOfMemory> {
        let (limit, query) = cut_word(step.args);
        let query = self.names.expanded(alloc, query)?;
        let body = answered(alloc, limit, query.as_slice(), self.file.as_slice())?;
        let wanted = self.names.expanded(alloc, step.wanted)?;
        if body.as_slice() == wanted.as_slice() {
            return Ok(None);
        }
        Ok(Some(escaped(alloc, body.as_slice())?))
    }

    // The links of the port. Calls of the last one alone fail.
    fn linked(&mut self, alloc: Global) -> Result<Many<MemoryLink>, OutOfMemory> {
        let mut links = Many::new(alloc);
        'links: for bytes in self.links.as_slice() {
            links.push(link_of(alloc, bytes.as_slice(), self.piece, Many::new(alloc))?)?;
        }
        let fails = mem::replace(&mut self.faults.link, Many::new(alloc));
        links.push(link_of(alloc, self.input.as_slice(), self.piece, fails)?)?;
        Ok(links)
    }

    fn port(&mut self, alloc: Global) -> Result<MemoryPort<MemoryLink>, OutOfMemory> {
        let links = self.linked(alloc)?;
        let fails = mem::replace(&mut self.faults.port, Many::new(alloc));
        Ok(MemoryPort::new(alloc, links, fails))
    }

    fn source(&mut self, alloc: Global) -> Result<MemorySource, OutOfMemory> {
        let input = pieces(alloc, self.input.as_slice(), self.piece)?;
        let fails = mem::replace(&mut self.faults.source, Many::new(alloc));
        Ok(MemorySource::new(input, fails))
    }

    fn sink(&mut self, alloc: Global) -> MemorySink {
        match self.faults.room {
            Some(room) => MemorySink::limited(alloc, room),
            None => {
                let fails = mem::replace(&mut self.faults.sink, Many::new(alloc));
                MemorySink::new(alloc, fails)
            }
        }
    }

    fn disk(&mut self, alloc: Global) -> Result<MemoryDisk, OutOfMemory> {
        let fails = mem::replace(&mut self.faults.disk, Many::new(alloc));
        disk_of(alloc, self.file.as_slice(), fails)
    }

    // What a run is given; the next one is given no input and no fault.
    fn take(&mut self, alloc: Global) -> Result<Given, OutOfMemory> {
        let source = self.source(alloc)?;
        let disk = self.disk(alloc)?;
        let port = self.port(alloc)?;
        let sink = self.sink(alloc);
        self.faults = Faults::none(alloc);
        self.input = Bytes::new(alloc);
        self.links = Many::new(alloc);
        Ok(Given {
            source,
            sink,
            disk,
            port,
            second: self.second,
        })
    }

    // Runs words, and compares how that ended and what was written. The file is then what a crash leaves of before the last
    // sync.
    fn run<R: Threads + Wait + Sync>(
        &mut self,
        rt: &R,
        alloc: Global,
        step: Step,
    ) -> Result<Option<String>, OutOfMemory> {
        let words = words_of(alloc, step.args)?;
        let given = self.take(alloc)?;
        let told = ran(rt, alloc, &words, given)?;
        let found = self.compare(alloc, &told, step.wanted)?;
        self.told = Some(told);
        self.file = self.image(alloc, "0")?;
        self.wanted = Bytes::new(alloc);
        self.size = None;
        Ok(found)
    }

    fn compare(
        &self,
        alloc: Global,
        told: &Told,
        wanted: &str,
    ) -> Result<Option<String>, OutOfMemory> {
        let written = told.written.as_slice();
        let is_written = match self.size {
            Some(size) => written.len() == size && written.starts_with(self.wanted.as_slice()),
            None => written == self.wanted.as_slice(),
        };
        if is_written && told.ending.as_str() == wanted {
            return Ok(None);
        }
        let ending = told.ending.as_str();
        let text = escaped(alloc, written)?;
        Ok(Some(format!(in alloc; "{ending}, written: {text}")?))
    }
}
