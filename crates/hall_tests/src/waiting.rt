//! Sessions with a client that waits for what it is told before it sends more. That nothing is taken while a whole request is in
//! hand is a clause of `read_request`; in which order a session takes and writes, no view of a stream says.
use archive_state::Limits;
use centre_session::{FixedClock, Trail, serve_session};
use disk_model::MemoryDisk;
use exact_time::{Bytes, Failed, Many};
use owned_desk::OwnedDesk;
use sample_data::{FOUNDED, NOW, SECRET, bytes};
use std::alloc::Global;
use std::sync::Wait;
use std::test::Fail;
use streams::{Link, MemoryLink, Sink, Source, Stream};

const INTERIM: &[u8] = b"HTTP/1.1 100 Continue\r\n\r\n";

// A batch without a number, which is refused once its body has come.
const ASKING: &[u8] =
    b"POST /feed/1/batch HTTP/1.1\r\nContent-Length: 3\r\nExpect: 100-continue\r\n\r\n";

const VERSION: &[u8] = b"GET /fdsnws/event/1/version HTTP/1.1\r\n\r\n";

const REPLY: &[u8] =
    b"HTTP/1.1 200 OK\r\nContent-Type: text/plain\r\nContent-Length: 6\r\nX-Archive-Front: 1\r\n\r\n1.2.0\n";

// A client that sends its second piece only once it was written so many bytes: a take before that finds it silent, and fails, as
// a socket does whose time is up.
#[derive(Drop)]
struct Waiting {
    link: MemoryLink,
    is_first: bool,
    wants: usize,
    has: usize,
    faults: u64,
}

impl Stream for Waiting {
    ghost use Rattle.std.specs.Prelude.{None};

    ghost view = { λ waiting. record { left = None; written = None; faults = waiting.faults } };

    fn faults(&self) -> u64 {
        self.faults
    }
}

impl Waiting {
    ghost use Rattle.std.specs.Prelude.{◌≤◌};
    ghost use Rattle.exact_time.specs.Causes.{Rose};

    fn fail(&mut self) -> Failed
        ensures rose { Rose self.old.faults self.new.faults }
        ensures later { self.old.faults ≤ self.new.faults }
    {
        self.faults = self.faults.saturating_add(1);
        Failed
    }
}

impl Source for Waiting {
    fn take(&mut self, into: &mut [u8]) -> Result<usize, Failed> {
        if !self.is_first && self.has < self.wants {
            return Err(self.fail());
        }
        match self.link.take(into) {
            Ok(count) => {
                self.is_first = false;
                Ok(count)
            }
            Err(_) => Err(self.fail()),
        }
    }
}

impl Sink for Waiting {
    fn put(&mut self, piece: &[u8]) -> Result<usize, Failed> {
        match self.link.put(piece) {
            Ok(count) => {
                self.has = self.has.saturating_add(count);
                Ok(count)
            }
            Err(_) => Err(self.fail()),
        }
    }
}

impl Link for Waiting {}

// A client that sends the first piece, and the second once it was written so many bytes.
fn client_of(alloc: Global, first: &[u8], wants: usize, second: &[u8]) -> Result<Waiting, Fail> {
    let mut pieces = Many::new(alloc);
    'pieces: for piece in [first, second] {
        let mut bytes = Bytes::new(alloc);
        bytes.extend(piece)?;
        pieces.push(bytes)?;
    }
    Ok(Waiting {
        link: MemoryLink::new(alloc, pieces, Many::new(alloc)),
        is_first: true,
        wants,
        has: 0,
        faults: 0,
    })
}

// The desk of the founding file.
fn desk_of(alloc: Global) -> Result<OwnedDesk<MemoryDisk>, Fail> {
    let disk = MemoryDisk::new(alloc, bytes(alloc, FOUNDED)?, Many::new(alloc))?;
    match OwnedDesk::start(alloc, disk) {
        Ok(desk) => Ok(desk),
        Err((_, fault)) => Err(fault.into()),
    }
}

// Serves the client to the end of its input: how many turns that were.
fn serve<R: Wait>(rt: &R, alloc: Global, client: &mut Waiting) -> Result<usize, Fail> {
    if !NOW.is_clock_moment() {
        return Err("no moment".into());
    }
    let mut clock = FixedClock::new(NOW);
    let mut desk = desk_of(alloc)?;
    let mut trail = Trail::new(alloc)?;
    let limits = Limits::FULL;
    let _end = serve_session(
        rt, alloc, &mut desk, client, &mut clock, &SECRET, &limits, &mut trail,
    );
    Ok(trail.as_slice().len())
}

#[test]
fn a_body_comes_once_the_interim_reply_was_written(rt: HostRuntime) -> Result<(), Fail> {
    let alloc = rt.alloc();
    let mut client = client_of(alloc, ASKING, INTERIM.len(), b"abc")?;
    let turns = serve(&rt, alloc, &mut client)?;
    let told = client.link.told().unwrap_or(&[]);
    assert!(&rt;
        turns == 1 && told.starts_with(b"HTTP/1.1 100 Continue\r\n\r\nHTTP/1.1 400 Bad Request\r\n")
    );
    Ok(())
}

#[test]
fn a_request_comes_once_the_one_before_was_answered(rt: HostRuntime) -> Result<(), Fail> {
    let alloc = rt.alloc();
    let mut client = client_of(alloc, VERSION, REPLY.len(), VERSION)?;
    let turns = serve(&rt, alloc, &mut client)?;
    let told = client.link.told().unwrap_or(&[]);
    assert!(&rt;
        turns == 2
            && told.len() == 2 * REPLY.len()
            && told.starts_with(REPLY)
            && told.ends_with(REPLY)
    );
    Ok(())
}
