//! Steps on streams and links in memory, and on the requests and replies that come over a link.
use crate::answers::put_got;
use crate::fields::put;
use crate::given::text_of;
use case_lines::escaped;
use exact_time::{Bytes, Failed, Many, OutOfMemory, Text};
use http_answers::{Got, GotEnd, read_reply};
use http_wire::{Inbox, ReadEnd, Request, read_request};
use std::alloc::Global;
use streams::{MemoryLink, MemorySink, MemorySource, Sink, Source, Stream, put_all};

// The most bytes of a body.
const MOST: u64 = 1_048_576;

// The stream that the steps act on.
#[derive(Drop)]
enum Outside {
    Source(MemorySource),
    Sink(MemorySink),
    Link(MemoryLink),
}

/// A stream, and what was taken of it and not used yet.
#[derive(Drop)]
pub struct Wire {
    alloc: Global,
    outside: Outside,
    inbox: Inbox,
}

// What a take into three bytes gives.
#[derive(Clone, Copy)]
struct Taken {
    bytes: [u8; 3],
    count: Result<usize, Failed>,
}

fn put_taken(alloc: Global, out: &mut Text, taken: &Taken) -> Result<(), OutOfMemory> {
    match taken.count {
        Ok(count) => put(
            alloc,
            out,
            format_args!("{:?}", text_of(taken.bytes.get(..count).unwrap_or(b""))),
        ),
        Err(Failed) => out.push("fault"),
    }
}

fn word_of(is_ok: bool) -> &'static str {
    if is_ok { "ok" } else { "fault" }
}

fn put_told(alloc: Global, out: &mut Text, told: Option<&[u8]>) -> Result<(), OutOfMemory> {
    match told {
        Some(bytes) => out.push(escaped(alloc, bytes)?.as_str()),
        None => out.push("not told"),
    }
}

/// The numbers of the calls that fail, which stand between commas. A word that is no number is no call.
pub fn calls_of(alloc: Global, word: &str) -> Result<Many<u64>, OutOfMemory> {
    let mut calls = Many::new(alloc);
    'calls: for call in word.split(',') {
        calls.push(call.parse().unwrap_or(0))?;
    }
    Ok(calls)
}

/// Bytes of their own.
pub fn bytes_of(alloc: Global, piece: &[u8]) -> Result<Bytes, OutOfMemory> {
    let mut bytes = Bytes::new(alloc);
    bytes.extend(piece)?;
    Ok(bytes)
}

// The pieces of a text that stand between bars.
fn pieces_of(alloc: Global, text: &str) -> Result<Many<Bytes>, OutOfMemory> {
    let mut pieces = Many::new(alloc);
    'pieces: for piece in text.split('|') {
        pieces.push(bytes_of(alloc, piece.as_bytes())?)?;
    }
    Ok(pieces)
}

// A text in pieces of so many bytes.
fn chunks_of(alloc: Global, text: &[u8], size: usize) -> Result<Many<Bytes>, OutOfMemory> {
    let mut pieces = Many::new(alloc);
    if size > 0 {
        'pieces: for piece in text.chunks(size) {
            pieces.push(bytes_of(alloc, piece)?)?;
        }
    }
    Ok(pieces)
}

fn put_field(out: &mut Text, alloc: Global, name: &[u8], value: &[u8]) -> Result<(), OutOfMemory> {
    put(
        alloc,
        out,
        format_args!("|{}: {}", text_of(name), text_of(value)),
    )
}

// How many bytes the body has, how many fields there are, and whether the connection closes.
fn put_shape(alloc: Global, out: &mut Text, request: &Request) -> Result<(), OutOfMemory> {
    put(
        alloc,
        out,
        format_args!(
            "{} {} {}",
            request.body.len(),
            request.headers.len(),
            request.close
        ),
    )
}

// The method, the target, the fields, the body and the shape.
fn put_request(alloc: Global, out: &mut Text, request: &Request) -> Result<(), OutOfMemory> {
    out.push(text_of(request.method.as_slice()))?;
    out.push(" ")?;
    out.push(text_of(request.target.as_slice()))?;
    'fields: for field in request.headers.as_slice() {
        put_field(out, alloc, field.name.as_slice(), field.value.as_slice())?;
    }
    out.push("|")?;
    out.push(escaped(alloc, request.body.as_slice())?.as_str())?;
    out.push("|")?;
    put_shape(alloc, out, request)
}

fn put_read(
    alloc: Global,
    out: &mut Text,
    read: &Result<Request, ReadEnd>,
    is_whole: bool,
) -> Result<(), OutOfMemory> {
    match read {
        Ok(request) if is_whole => put_request(alloc, out, request),
        Ok(request) => put_shape(alloc, out, request),
        Err(end) => put(alloc, out, format_args!("{end:?}")),
    }
}

impl Wire {
    /// A link that gives nothing.
    pub fn new(alloc: Global) -> Result<Wire, OutOfMemory> {
        Ok(Wire {
            alloc,
            outside: Outside::Link(MemoryLink::new(alloc, Many::new(alloc), Many::new(alloc))),
            inbox: Inbox::new(alloc)?,
        })
    }

    // Sets a new stream, of these pieces and calls that fail, or of the room that a word is.
    fn set(
        &mut self,
        call: &str,
        room: &str,
        pieces: Many<Bytes>,
        fails: Many<u64>,
    ) -> &'static str {
        let alloc = self.alloc;
        self.outside = match call {
            "source" => Outside::Source(MemorySource::new(pieces, fails)),
            "link" => Outside::Link(MemoryLink::new(alloc, pieces, fails)),
            "sink" => Outside::Sink(MemorySink::new(alloc, fails)),
            "sink-of" => Outside::Sink(MemorySink::limited(alloc, room.parse().unwrap_or(0))),
            _ => return "no such call",
        };
        "ok"
    }

    // The same, where the calls that fail or the room stand in front of the pieces.
    fn set_given(&mut self, call: &str, given: &str) -> Result<&'static str, OutOfMemory> {
        let (first, text) = given.split_once(' ').unwrap_or((given, ""));
        let pieces = pieces_of(self.alloc, text)?;
        let fails = calls_of(self.alloc, first)?;
        Ok(self.set(call, first, pieces, fails))
    }

    // A link that gives a text in pieces of so many bytes, and fails at these calls.
    fn cut(&mut self, size: usize, fails: &str, text: &[u8]) -> Result<(), OutOfMemory> {
        let alloc = self.alloc;
        self.inbox = Inbox::new(alloc)?;
        let pieces = chunks_of(alloc, text, size)?;
        let calls = calls_of(alloc, fails)?;
        self.outside = Outside::Link(MemoryLink::new(alloc, pieces, calls));
        Ok(())
    }

    // The same, where the size and the calls stand in front of the text.
    fn cut_given(&mut self, given: &str) -> Result<(), OutOfMemory> {
        let (size, rest) = given.split_once(' ').unwrap_or(("", ""));
        let (fails, text) = rest.split_once(' ').unwrap_or((rest, ""));
        self.cut(size.parse().unwrap_or(0), fails, text.as_bytes())
    }

    fn take(&mut self) -> Taken {
        let mut bytes = [0; 3];
        let count = match &mut self.outside {
            Outside::Source(source) => source.take(&mut bytes),
            Outside::Link(link) => link.take(&mut bytes),
            Outside::Sink(_) => Err(Failed),
        };
        Taken { bytes, count }
    }

    fn put(&mut self, bytes: &[u8]) -> Result<(), Failed> {
        match &mut self.outside {
            Outside::Sink(sink) => put_all(sink, bytes),
            Outside::Link(link) => put_all(link, bytes),
            Outside::Source(_) => Err(Failed),
        }
    }

    fn put_once(&mut self, piece: &[u8]) -> Result<usize, Failed> {
        match &mut self.outside {
            Outside::Sink(sink) => sink.put(piece),
            Outside::Link(link) => link.put(piece),
            Outside::Source(_) => Err(Failed),
        }
    }

    fn told(&self) -> Option<&[u8]> {
        match &self.outside {
            Outside::Sink(sink) => sink.told(),
            Outside::Link(link) => link.told(),
            Outside::Source(_) => None,
        }
    }

    fn faults(&self) -> u64 {
        match &self.outside {
            Outside::Source(source) => source.faults(),
            Outside::Sink(sink) => sink.faults(),
            Outside::Link(link) => link.faults(),
        }
    }

    fn read(&mut self) -> Result<Request, ReadEnd> {
        match &mut self.outside {
            Outside::Link(link) => read_request(self.alloc, link, &mut self.inbox, MOST),
            _ => Err(ReadEnd::End),
        }
    }

    // The next reply, whose body has so many bytes at most.
    fn answer(&mut self, most: u64) -> Result<Got, GotEnd> {
        match &mut self.outside {
            Outside::Link(link) => read_reply(self.alloc, link, &mut self.inbox, most),
            _ => Err(GotEnd::Cut),
        }
    }

    // In how many of all sizes of pieces a text is read as a reply with so long a body.
    fn answers(&mut self, size: usize, text: &[u8]) -> Result<usize, OutOfMemory> {
        let mut whole: usize = 0;
        'sizes: for piece in 1..=text.len() {
            self.cut(piece, "", text)?;
            let is_whole = match self.answer(MOST) {
                Ok(got) => got.body.len() == size,
                Err(_) => false,
            };
            if is_whole {
                whole = whole.saturating_add(1);
            }
        }
        Ok(whole)
    }

    // The same, where the size of the body stands in front of the text.
    fn answers_given(&mut self, given: &str) -> Result<usize, OutOfMemory> {
        let (size, text) = given.split_once(' ').unwrap_or((given, ""));
        self.answers(size.parse().unwrap_or(0), text.as_bytes())
    }

    // At how many lengths, of all that are less than the whole, a text is cut inside a reply.
    fn answer_cuts(&mut self, text: &[u8]) -> Result<usize, OutOfMemory> {
        let mut cuts: usize = 0;
        'lengths: for length in 0..text.len() {
            self.cut(1000, "", &text[..length])?;
            if self.answer(MOST).err() == Some(GotEnd::Cut) {
                cuts = cuts.saturating_add(1);
            }
        }
        Ok(cuts)
    }

    // At how many lengths, of all that are less than the whole, a text is cut inside a request.
    fn cuts(&mut self, text: &[u8]) -> Result<usize, OutOfMemory> {
        let mut cuts: usize = 0;
        'lengths: for length in 1..text.len() {
            self.cut(1000, "", &text[..length])?;
            if self.read().err() == Some(ReadEnd::Cut) {
                cuts = cuts.saturating_add(1);
            }
        }
        Ok(cuts)
    }

    // What a step that reads or writes the stream gives.
    fn put_use(&mut self, call: &str, given: &[u8], out: &mut Text) -> Result<(), OutOfMemory> {
        let alloc = self.alloc;
        match call {
            "take" => put_taken(alloc, out, &self.take()),
            "put" => out.push(word_of(self.put(given).is_ok())),
            "put-once" => out.push(word_of(self.put_once(given).is_ok())),
            "told" => put_told(alloc, out, self.told()),
            "faults" => put(alloc, out, self.faults()),
            "request" | "shape" => put_read(alloc, out, &self.read(), call == "request"),
            "answer" => put_got(
                alloc,
                out,
                &self.answer(text_of(given).parse().unwrap_or(MOST)),
            ),
            _ => out.push(self.set_given(call, text_of(given))?),
        }
    }

    /// What a step on streams and requests gives.
    pub fn show(&mut self, call: &str, given: &[u8], out: &mut Text) -> Result<(), OutOfMemory> {
        match call {
            "cut" => {
                self.cut_given(text_of(given))?;
                out.push("ok")
            }
            "first" => {
                self.cut(1000, "", given)?;
                self.put_use("shape", given, out)
            }
            "cuts" => put(self.alloc, out, self.cuts(given)?),
            "heard" => {
                self.cut(1000, "", given)?;
                self.put_use("answer", b"", out)
            }
            "heard-whole" => put(self.alloc, out, self.answers_given(text_of(given))?),
            "heard-cut" => put(self.alloc, out, self.answer_cuts(given)?),
            _ => self.put_use(call, given, out),
        }
    }
}
