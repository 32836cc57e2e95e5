//! Three workers in memory: a commit that waits at its gate, with the lock in hand; a reader that is answered meanwhile, from
//! before that commit; and another post, which comes to its gate only once the first has left its own.
ghost use Rattle.std.specs.Prelude.{◌≡◌, IfOk, length};

use archive_state::Limits;
use centre_serve::{Served, Worker, serve};
use centre_session::FixedClock;
use disk_model::MemoryDisk;
use exact_time::{Failed, Many};
use http_wire::MemoryLink;
use link_ports::MemoryPort;
use sample_data::{FOUNDED, NOW, SECRET, bytes};
use snapshot_hall::Gate;
use std::alloc::Global;
use std::sync::Wait;
use std::sync::atomic::{AtomicBool, Ordering};
use std::test::Fail;
use std::thread::Threads;
use streams::{Link, Sink, Source, Stream};

// The operator adds a network. The response was made with Python's hashlib.
const REVISE: &[u8] =
    b"POST /feed/1/revise?seq=1 HTTP/1.1\r\nContent-Length: 23\r\nAuthorization: Digest username=\"op\", realm=\"FDSN\", nonce=\"0000000065e11a80c4b9ad505cad33331a9629a94b60ee48\", uri=\"/feed/1/revise?seq=1\", response=\"4dac88c1b78e084c45391b644a0cdfc2\"\r\n\r\nNET|IU|GSN|1988-01-01|\n";

const REVISED: &[u8] =
    b"HTTP/1.1 200 OK\r\nContent-Type: text/plain\r\nContent-Length: 11\r\nX-Archive-Front: 2\r\n\r\naccepted 2\n";

const NETWORKS: &[u8] = b"GET /fdsnws/station/1/query?level=network HTTP/1.1\r\n\r\n";

const NO_NETWORK: &[u8] = b"HTTP/1.1 204 No Content\r\nX-Archive-Front: 1\r\n\r\n";

fn clock() -> Result<FixedClock, Fail> {
    if !NOW.is_clock_moment() {
        return Err("no moment".into());
    }
    Ok(FixedClock::new(NOW))
}

// Set by one worker, and awaited by another; and how each wait ended.
#[derive(Drop)]
struct Signals {
    at_gate: AtomicBool,
    replying: AtomicBool,
    at_other_gate: AtomicBool,
    gate_waited: AtomicBool,
    link_waited: AtomicBool,
    overtaken: AtomicBool,
}

// Within a few seconds, and within a moment.
const LONG: u32 = 1_000_000_000;

const SHORT: u32 = 5_000_000;

// Whether it came within so many looks.
fn await_signal(signal: &AtomicBool, looks: u32) -> bool {
    'waits: for _ in 0..looks {
        if signal.load(Ordering::SeqCst) {
            return true;
        }
        std::hint::spin_loop();
    }
    false
}

// Who a worker is for.
#[derive(Clone, Copy, PartialEq, Eq)]
enum Part {
    // Posts, and waits at its gate.
    First,
    Reader,
    // Posts once the first is at its gate.
    Second,
}

// The gate of the first worker waits until the reply of the reader is being written, and then a moment for the other post, which
// mustn't come to its gate.
#[derive(Drop)]
struct SlowGate<'a> {
    part: Part,
    signals: &'a Signals,
}

impl<'a> Gate for SlowGate<'a> {
    ghost passed = { λ before after. Unit {0} };

    fn pass<W: Wait>(&mut self, _rt: &W) {
        if self.part != Part::First {
            self.signals.at_other_gate.store(true, Ordering::SeqCst);
            return;
        }
        self.signals.at_gate.store(true, Ordering::SeqCst);
        let came = await_signal(&self.signals.replying, LONG);
        self.signals.gate_waited.store(came, Ordering::SeqCst);
        let overtaken = await_signal(&self.signals.at_other_gate, SHORT);
        self.signals.overtaken.store(overtaken, Ordering::SeqCst);
    }
}

// The others give what they have only once the first worker is at its gate, and the reader tells when it is written to.
#[derive(Drop)]
struct SignalLink<'a> {
    link: MemoryLink,
    part: Part,
    signals: &'a Signals,
}

impl<'a> Stream for SignalLink<'a> {
    ghost view = { λ s. ⟦<MemoryLink as Stream>⟧.view s.link };

    fn faults(&self) -> u64 {
        self.link.faults()
    }
}

impl<'a> Source for SignalLink<'a> {
    fn take(&mut self, into: &mut [u8]) -> Result<usize, Failed> {
        if self.part != Part::First {
            let came = await_signal(&self.signals.at_gate, LONG);
            self.signals.link_waited.store(came, Ordering::SeqCst);
        }
        self.link.take(into)
    }
}

impl<'a> Sink for SignalLink<'a> {
    fn put(&mut self, piece: &[u8]) -> Result<usize, Failed> {
        if self.part == Part::Reader {
            self.signals.replying.store(true, Ordering::SeqCst);
        }
        self.link.put(piece)
    }
}

impl<'a> Link for SignalLink<'a> {}

type SlowWorker<'a> = Worker<MemoryPort<SignalLink<'a>>, FixedClock, SlowGate<'a>>;

fn link_of<'a>(alloc: Global, signals: &'a Signals, part: Part) -> Result<SignalLink<'a>, Fail> {
    let input = match part {
        Part::Reader => bytes(alloc, NETWORKS)?,
        Part::First | Part::Second => bytes(alloc, REVISE)?,
    };
    let mut pieces = Many::new(alloc);
    pieces.push(input)?;
    Ok(SignalLink {
        link: MemoryLink::new(alloc, pieces, Many::new(alloc)),
        part,
        signals,
    })
}

fn worker_of<'a>(alloc: Global, signals: &'a Signals, part: Part) -> Result<SlowWorker<'a>, Fail> {
    let mut links = Many::new(alloc);
    links.push(link_of(alloc, signals, part)?)?;
    Ok(Worker {
        port: MemoryPort::new(alloc, links, Many::new(alloc)),
        clock: clock()?,
        gate: SlowGate { part, signals },
    })
}

fn workers_of<'a>(alloc: Global, signals: &'a Signals) -> Result<Vec<SlowWorker<'a>>, Fail>
    ensures { IfOk result (λ workers. length workers.items ≡ 3) }
{
    let mut workers = Vec::new(alloc);
    workers.push(worker_of(alloc, signals, Part::First)?)?;
    workers.push(worker_of(alloc, signals, Part::Reader)?)?;
    workers.push(worker_of(alloc, signals, Part::Second)?)?;
    Ok(workers)
}

// Whether the one link of a port came back with this written.
fn is_told(port: &MemoryPort<SignalLink<'_>>, wanted: &[u8]) -> bool {
    match port.back() {
        Some([returned]) => returned.link.link.told() == Some(wanted),
        _ => false,
    }
}

// Serves the three, and says whether it ended in order, with all replies.
fn serve_all<R: Threads + Wait + Sync>(
    rt: &R,
    alloc: Global,
    signals: &Signals,
) -> Result<bool, Fail> {
    let disk = MemoryDisk::new(alloc, bytes(alloc, FOUNDED)?, Many::new(alloc))?;
    let workers = workers_of(alloc, signals)?;
    let room = Vec::with_capacity(alloc, workers.len())?;
    let Served { ending, ports, .. } = serve(
        rt,
        alloc,
        disk,
        workers,
        room,
        &SECRET,
        &Limits::FULL,
    );
    Ok(match ports.as_slice() {
        [one, two, three] => {
            ending.is_ok()
                && (is_told(one, REVISED) && is_told(two, NO_NETWORK) && is_told(three, REVISED))
        }
        _ => false,
    })
}

#[test]
fn answers_while_a_commit_waits(rt: HostRuntime) -> Result<(), Fail> {
    let signals = Signals {
        at_gate: AtomicBool::new(false),
        replying: AtomicBool::new(false),
        at_other_gate: AtomicBool::new(false),
        gate_waited: AtomicBool::new(false),
        link_waited: AtomicBool::new(false),
        overtaken: AtomicBool::new(false),
    };
    assert!(&rt; serve_all(&rt, rt.alloc(), &signals)?);
    // The reader was answered while the first waited, and the other post wasn't let in.
    assert!(&rt; signals.gate_waited.load(Ordering::SeqCst));
    assert!(&rt; signals.link_waited.load(Ordering::SeqCst));
    assert!(&rt; !signals.overtaken.load(Ordering::SeqCst));
    Ok(())
}
