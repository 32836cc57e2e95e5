//! A source and a sink as one link.
ghost use Rattle.std.specs.Prelude.{◌≡◌, zero};
ghost use Rattle.std.specs.Borrow.{GName};
ghost use Rattle.centre_talk.specs.Link.{joined};

use exact_time::Failed;
use std::marker::{Brand, PhantomData};
use streams::{Link, Sink, Source, Stream};

/// Which source and which sink a link holds, so that they are known to be the same when it is taken apart.
pub(crate) trait Lent {
    ghost source: { GName };

    ghost sink: { GName };
}

impl Lent for Brand {
    ghost source = { zero };

    ghost sink = { zero };
}

/// A source and a sink that are lent, as one link. Its faults are those of both together.
#[derive(Drop)]
pub(crate) struct StreamLink<'a, 'b, S: Source, K: Sink, N: Lent> {
    pub(crate) source: &'a mut S,
    pub(crate) sink: &'b mut K,
    pub(crate) of: PhantomData<N>,
    ghost same_source: { source.ghost_name ≡ N.source },
    ghost same_sink: { sink.ghost_name ≡ N.sink },
}

impl<'a, 'b, S: Source, K: Sink, N: Lent> Stream for StreamLink<'a, 'b, S, K, N> {
    ghost view = { λ link. joined (S.view link.source.now) (K.view link.sink.now) };

    fn faults(&self) -> u64 {
        self.source.faults().saturating_add(self.sink.faults())
    }
}

impl<'a, 'b, S: Source, K: Sink, N: Lent> Source for StreamLink<'a, 'b, S, K, N> {
    fn take(&mut self, into: &mut [u8]) -> Result<usize, Failed> {
        self.source.take(into)
    }
}

impl<'a, 'b, S: Source, K: Sink, N: Lent> Sink for StreamLink<'a, 'b, S, K, N> {
    fn put(&mut self, piece: &[u8]) -> Result<usize, Failed> {
        self.sink.put(piece)
    }
}

impl<'a, 'b, S: Source, K: Sink, N: Lent> Link for StreamLink<'a, 'b, S, K, N> {}
