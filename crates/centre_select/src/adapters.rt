//! Adapters over std's readers and writers. They count each error, and tell what the reader or the writer
//! tells: of one in memory the bytes, of a real stream nothing.
ghost use Rattle.std.specs.Prelude.{◌≡◌, take, None, IfOk, IsSome, IsTrue};
ghost use Rattle.std.specs.Io.KnownBytes.{Appends};
ghost use Rattle.streams.specs.Effects.{Puts};
ghost use Rattle.streams.specs.View.{told_if};

use exact_time::Failed;
use std::io::{Read, Write};
use streams::{Sink, Source, Stream};

/// A source over a reader, as standard input. What it tells is what the reader tells.
#[derive(Drop)]
pub struct StdSource<R> {
    inner: R,
    faults: u64,
}

impl<R: Read> StdSource<R> {
    /// A source that gives what the reader gives.
    pub fn new(inner: R) -> Self
        ensures { ⟦<StdSource<R> as Stream>⟧.view result ≡ record { left = R.remaining inner; written = None; faults = 0 } }
    {
        StdSource { inner, faults: 0 }
    }
}

impl<R: Read> Stream for StdSource<R> {
    ghost view = { λ s. record { left = R.remaining s.inner; written = None; faults = s.faults } };

    fn faults(&self) -> u64 {
        self.faults
    }
}

impl<R: Read> Source for StdSource<R> {
    fn take(&mut self, into: &mut [u8]) -> Result<usize, Failed> {
        match self.inner.read(into) {
            Ok(count) => Ok(count),
            Err(_) => {
                self.faults = self.faults.saturating_add(1);
                Err(Failed)
            }
        }
    }
}

/// A sink over a writer, as standard output. A write of 0 bytes is a fault. What it tells it tells for good.
#[derive(Drop)]
pub struct StdSink<W: Write> {
    inner: W,
    faults: u64,
    // Whether it tells what the writer holds, which is then known.
    tells: bool,
    ghost known: { IsTrue tells → IsSome (W.contents inner) },
}

impl<W: Write> StdSink<W> {
    /// A sink that gives to any writer, and tells nothing: a writer that doesn't say what it holds may
    /// say it later.
    pub fn new(inner: W) -> Self
        ensures { ⟦<StdSink<W> as Stream>⟧.view result ≡ record { left = None; written = None; faults = 0 } }
    {
        StdSink {
            inner,
            faults: 0,
            tells: false,
        }
    }

    /// A sink that gives to a writer whose bytes are known, as a `Vec`, and tells them.
    pub fn telling(inner: W) -> Self
        requires { IsSome (W.contents inner) }
        ensures { ⟦<StdSink<W> as Stream>⟧.view result ≡ record { left = None; written = W.contents inner; faults = 0 } }
    {
        StdSink {
            inner,
            faults: 0,
            tells: true,
        }
    }
}

impl<W: Write> Stream for StdSink<W> {
    ghost view = { λ s. record { left = None; written = told_if s.tells (W.contents s.inner); faults = s.faults } };

    fn faults(&self) -> u64 {
        self.faults
    }
}

impl<W: Write> Sink for StdSink<W> {
    fn put(&mut self, piece: &[u8]) -> Result<usize, Failed>
        ensures tells { IsSome (⟦<StdSink<W> as Stream>⟧.view self.old).written → IsSome (⟦<StdSink<W> as Stream>⟧.view self.new).written }
        ensures put { Puts (⟦<StdSink<W> as Stream>⟧.view self.old) (⟦<StdSink<W> as Stream>⟧.view self.new) result piece.now }
        // Whether it tells that or not, the writer got what was put.
        ensures given { IfOk result (λ count. Appends (W.contents self.old.inner) (W.contents self.new.inner) (take count piece.now)) }
    {
        if piece.is_empty() {
            return Ok(0);
        }
        match self.inner.write(piece) {
            Ok(count) if count > 0 => Ok(count),
            _ => {
                self.faults = self.faults.saturating_add(1);
                Err(Failed)
            }
        }
    }
}
