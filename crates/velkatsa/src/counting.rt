//! A port that counts what comes, and shows it on a terminal while it goes.
use exact_time::Failed;
use http_wire::Turn;
use link_ports::Port;
use std::alloc::Global;
use streams::{Link, Sink, Source, Stream, put_all};

// How many bytes come between two lines that are shown.
const STEP: u64 = 1_048_576;

/// What came, and where it is shown: a line that is written again and again over itself. What the sink answers changes nothing.
#[derive(Drop)]
pub struct Progress<K> {
    alloc: Global,
    errors: K,
    requests: u64,
    bytes: u64,
    // How many bytes there were in the line that is shown.
    shown: u64,
}

impl<K: Sink> Progress<K> {
    /// Nothing came yet, and nothing is shown.
    pub fn new(alloc: Global, errors: K) -> Self {
        Progress {
            alloc,
            errors,
            requests: 0,
            bytes: 0,
            shown: 0,
        }
    }

    // Writes what came over the line. Without memory it shows nothing.
    fn show(&mut self, end: &str) {
        self.shown = self.bytes;
        let (requests, bytes) = (self.requests, self.bytes);
        let plural = if requests == 1 { "" } else { "s" };
        if let Ok(line) = format!(in self.alloc;
            "\r\x1b[Kcentre: {requests} request{plural}, {bytes} bytes{end}"
        ) {
            let _written = put_all(&mut self.errors, line.as_bytes());
        }
    }

    // Takes the line away.
    fn clear(&mut self) {
        let _written = put_all(&mut self.errors, b"\r\x1b[K");
    }

    fn add_request(&mut self) {
        self.requests = self.requests.saturating_add(1);
        self.show("");
    }

    fn add_bytes(&mut self, count: u64) {
        self.bytes = self.bytes.saturating_add(count);
        if self.bytes.saturating_sub(self.shown) >= STEP {
            self.show("");
        }
    }
}

/// The port behind it, with links that count what comes over them. Where it has a `Progress`, that is shown while a link is away,
/// and no line stands there while all are back; at the end the last one stays.
pub struct CountingPort<P: Port + Drop, K: Sink + Drop> {
    /// The port that gives the links.
    pub port: P,
    /// What is shown, unless nothing is, or a link that is away has it.
    pub progress: Option<Progress<K>>,
}

impl<P: Port + Drop, K: Sink + Drop> Port for CountingPort<P, K> {
    type Given = CountingLink<P::Given, K>;

    ghost view = { λ counting. P.view counting.port };

    fn accept(&mut self) -> Result<Option<CountingLink<P::Given, K>>, Failed> {
        if let Some(progress) = &mut self.progress {
            progress.show("");
        }
        match self.port.accept() {
            Ok(Some(link)) => {
                if let Some(progress) = &mut self.progress {
                    progress.add_request();
                }
                Ok(Some(CountingLink {
                    link,
                    progress: self.progress.take(),
                }))
            }
            Ok(None) => {
                if let Some(progress) = &mut self.progress {
                    progress.clear();
                }
                Ok(None)
            }
            Err(failed) => {
                if let Some(progress) = &mut self.progress {
                    progress.clear();
                }
                Err(failed)
            }
        }
    }

    fn give_back(&mut self, link: CountingLink<P::Given, K>, turns: &[Turn]) {
        let CountingLink { link, progress } = link;
        if let Some(mut progress) = progress {
            progress.clear();
            self.progress = Some(progress);
        }
        self.port.give_back(link, turns);
    }
}

impl<P: Port + Drop, K: Sink + Drop> Drop for CountingPort<P, K> {
    fn drop(self) {
        let CountingPort { port: _, progress } = self;
        if let Some(mut progress) = progress {
            if progress.requests > 0 {
                progress.show("\n");
            }
        }
    }
}

/// The link behind it, which counts the bytes that come.
pub struct CountingLink<L, K> {
    link: L,
    progress: Option<Progress<K>>,
}

impl<L: Link, K: Sink> Stream for CountingLink<L, K> {
    ghost view = { λ counting. L.view counting.link };

    fn faults(&self) -> u64 {
        self.link.faults()
    }
}

impl<L: Link, K: Sink> Source for CountingLink<L, K> {
    fn take(&mut self, into: &mut [u8]) -> Result<usize, Failed> {
        let count = self.link.take(into)?;
        if let Some(progress) = &mut self.progress {
            progress.add_bytes(count as u64);
        }
        Ok(count)
    }
}

impl<L: Link, K: Sink> Sink for CountingLink<L, K> {
    fn put(&mut self, piece: &[u8]) -> Result<usize, Failed> {
        self.link.put(piece)
    }
}

impl<L: Link, K: Sink> Link for CountingLink<L, K> {}
