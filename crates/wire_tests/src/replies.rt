//! Replies over a link of the test's own. What is written of each kind of reply are cases of `word_cases`.
ghost use Rattle.http_replies.specs.Replies.{IsSendable};
ghost use Rattle.streams.specs.Memory.{link_view};

use crate::samples::VERSION;
use exact_time::{Bytes, Failed, Many, OutOfMemory};
use http_replies::{BodyKind, Reply, write_reply};
use std::alloc::Global;
use std::test::Fail;
use streams::{Link, MemoryLink, Sink, Source, Stream};

// A link that takes one byte of each piece.
#[derive(Drop)]
struct OneByte {
    link: MemoryLink,
}

impl Stream for OneByte {
    ghost view = { λ one. link_view one.link };

    fn faults(&self) -> u64 {
        self.link.faults()
    }
}

impl Source for OneByte {
    fn take(&mut self, into: &mut [u8]) -> Result<usize, Failed> {
        self.link.take(into)
    }
}

impl Sink for OneByte {
    fn put(&mut self, piece: &[u8]) -> Result<usize, Failed> {
        let size = piece.len().min(1);
        self.link.put(&piece[..size])
    }
}

impl Link for OneByte {}

// The reply that tells a version.
fn version_of(body: Bytes) -> Reply
    ensures { IsSendable result }
{
    Reply {
        status: 200,
        kind: BodyKind::Plain,
        challenge: None,
        allow: None,
        front: 1,
        body,
        close: true,
        head_only: false,
    }
}

// A link whose call of this number fails.
fn failing(alloc: Global, number: u64) -> Result<MemoryLink, OutOfMemory> {
    let mut fails = Many::new(alloc);
    fails.push(number)?;
    Ok(MemoryLink::new(alloc, Many::new(alloc), fails))
}

// Whether exactly this is written of a reply, byte by byte, and the end is told where it is the whole.
fn is_written(link: MemoryLink, reply: &Reply, wanted: &[u8]) -> bool
    requires { IsSendable reply.now }
{
    let mut one = OneByte { link };
    let is_whole = write_reply(&mut one, reply).is_ok();
    is_whole == (wanted.len() == VERSION.len()) && one.link.told() == Some(wanted)
}

#[test]
fn a_fault_leaves_a_first_part(rt: HostRuntime) -> Result<(), Fail> {
    let alloc = rt.alloc();
    let mut body = Bytes::new(alloc);
    body.extend(b"1.2.0\n")?;
    let reply = version_of(body);
    'places: for place in 0..VERSION.len() {
        let link = failing(alloc, place as u64 + 1)?;
        assert!(&rt; is_written(link, &reply, &VERSION[..place]), "{place}");
    }
    assert!(&rt; is_written(failing(alloc, 0)?, &reply, VERSION));
    Ok(())
}
