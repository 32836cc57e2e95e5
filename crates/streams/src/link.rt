//! A link in memory.
ghost use Rattle.std.specs.Prelude.{◌≡◌, [], Some, length};
ghost use Rattle.std.specs.List.{flat_map};
ghost use Rattle.std.specs.Option.{option_map};
ghost use Rattle.streams.specs.Calls.{fresh};
ghost use Rattle.streams.specs.Effects.{Takes, Puts};
ghost use Rattle.streams.specs.Memory.{link_view, tally_of_link, pieces_of_link, TakesPiece, TakesWhole};
ghost use Rattle.streams.specs.Pieces.{with_bytes};

use crate::kept::Kept;
use crate::pieces::Pieces;
use crate::stream::{Link, Sink, Source, Stream};
use crate::tally::Tally;
use exact_time::{Bytes, Failed, Many};
use std::alloc::Global;

/// Gives its pieces in order, of one piece a call, and keeps what is put, each piece whole. It fails at
/// the calls numbered in `fails`; takes and puts are numbered together, from 1. Where memory doesn't
/// suffice to keep a piece, it takes the piece, and from then on doesn't tell what was written.
#[derive(Drop)]
pub struct MemoryLink {
    pieces: Pieces,
    kept: Kept,
    tally: Tally,
}

impl MemoryLink {
    /// A link that has these pieces to give, to which nothing was written yet, and which fails at these
    /// calls.
    pub fn new(alloc: Global, pieces: Many<Bytes>, fails: Many<u64>) -> Self
        ensures view { ⟦<MemoryLink as Stream>⟧.view result ≡ record { left = Some (flat_map (λ piece. piece) pieces); written = Some []; faults = 0 } }
        ensures pieces { pieces_of_link result ≡ with_bytes pieces }
        ensures calls { tally_of_link result ≡ fresh fails }
    {
        MemoryLink {
            pieces: Pieces::new(pieces),
            kept: Kept::new(alloc),
            tally: Tally::new(fails),
        }
    }

    /// What was written, unless a piece of it was lost.
    pub fn told(&self) -> Option<&[u8]>
        ensures { option_map (λ slice. slice.now) result ≡ (⟦<MemoryLink as Stream>⟧.view self.now).written }
    {
        self.kept.told()
    }
}

impl Stream for MemoryLink {
    ghost view = { link_view };

    fn faults(&self) -> u64 {
        self.tally.faults()
    }
}

impl Source for MemoryLink {
    fn take(&mut self, into: &mut [u8]) -> Result<usize, Failed>
        ensures call { TakesPiece (tally_of_link self.old) (tally_of_link self.new) (pieces_of_link self.old) (pieces_of_link self.new) result (length into.old) }
        ensures told { Takes (link_view self.old) (link_view self.new) result into.new }
    {
        if self.tally.is_failing() {
            return Err(self.tally.refuse());
        }
        Ok(self.pieces.give(into))
    }
}

impl Sink for MemoryLink {
    fn put(&mut self, piece: &[u8]) -> Result<usize, Failed>
        ensures call { TakesWhole self.old self.new result piece.now }
        ensures told { Puts (link_view self.old) (link_view self.new) result piece.now }
    {
        if self.tally.is_failing() {
            return Err(self.tally.refuse());
        }
        self.kept.add(piece);
        Ok(piece.len())
    }
}

impl Link for MemoryLink {}
