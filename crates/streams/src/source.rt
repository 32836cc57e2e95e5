//! A source in memory.
ghost use Rattle.std.specs.Prelude.{◌≡◌, None, Some, length};
ghost use Rattle.std.specs.List.{flat_map};
ghost use Rattle.streams.specs.Calls.{fresh};
ghost use Rattle.streams.specs.Effects.{Takes};
ghost use Rattle.streams.specs.Memory.{source_view, tally_of_source, pieces_of_source, TakesPiece};
ghost use Rattle.streams.specs.Pieces.{with_bytes};

use crate::pieces::Pieces;
use crate::stream::{Source, Stream};
use crate::tally::Tally;
use exact_time::{Bytes, Failed, Many};

/// Gives its pieces in order, of one piece a call, and fails at the calls numbered in `fails`, from 1.
#[derive(Drop)]
pub struct MemorySource {
    pieces: Pieces,
    tally: Tally,
}

impl MemorySource {
    /// A source of these pieces, which fails at these calls.
    pub fn new(pieces: Many<Bytes>, fails: Many<u64>) -> Self
        ensures view { ⟦<MemorySource as Stream>⟧.view result ≡ record { left = Some (flat_map (λ piece. piece) pieces); written = None; faults = 0 } }
        ensures pieces { pieces_of_source result ≡ with_bytes pieces }
        ensures calls { tally_of_source result ≡ fresh fails }
    {
        MemorySource {
            pieces: Pieces::new(pieces),
            tally: Tally::new(fails),
        }
    }
}

impl Stream for MemorySource {
    ghost view = { source_view };

    fn faults(&self) -> u64 {
        self.tally.faults()
    }
}

impl Source for MemorySource {
    fn take(&mut self, into: &mut [u8]) -> Result<usize, Failed>
        ensures call { TakesPiece (tally_of_source self.old) (tally_of_source self.new) (pieces_of_source self.old) (pieces_of_source self.new) result (length into.old) }
        ensures told { Takes (source_view self.old) (source_view self.new) result into.new }
    {
        if self.tally.is_failing() {
            return Err(self.tally.refuse());
        }
        Ok(self.pieces.give(into))
    }
}
