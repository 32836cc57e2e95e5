//! A sink of the test's own, which takes puts in part. What streams in memory do are cases of `word_cases`.
use exact_time::{Failed, Many};
use std::test::Fail;
use streams::{MemorySink, Sink, Stream, put_all};

// A sink that takes two bytes of each piece.
#[derive(Drop)]
struct TwoBytes {
    sink: MemorySink,
}

impl Stream for TwoBytes {
    ghost use Rattle.streams.specs.Memory.{sink_view};

    ghost view = { λ two. sink_view two.sink };

    fn faults(&self) -> u64 {
        self.sink.faults()
    }
}

impl Sink for TwoBytes {
    fn put(&mut self, piece: &[u8]) -> Result<usize, Failed> {
        let size = piece.len().min(2);
        self.sink.put(&piece[..size])
    }
}

#[test]
fn a_fault_in_mid_stream_leaves_a_first_part(rt: HostRuntime) -> Result<(), Fail> {
    let alloc = rt.alloc();
    let mut calls = Many::new(alloc);
    calls.push(3)?;
    let mut two = TwoBytes {
        sink: MemorySink::new(alloc, calls),
    };
    let first = put_all(&mut two, b"IU ANMO").is_err();
    let first = first && two.sink.told() == Some(b"IU A");
    let second = put_all(&mut two, b"NMO").is_ok();
    assert!(&rt; first);
    assert!(&rt; second && two.sink.told() == Some(b"IU ANMO"));
    Ok(())
}
