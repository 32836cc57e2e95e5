//! A sink in memory.
ghost use Rattle.std.specs.Prelude.{◌≡◌, [], None, Some};
ghost use Rattle.std.specs.Option.{option_map};
ghost use Rattle.streams.specs.Calls.{fresh};
ghost use Rattle.streams.specs.Effects.{Puts};
ghost use Rattle.streams.specs.Memory.{sink_view, tally_of_sink, room_of, part_for, room_behind, TakesWhatFits};

use crate::kept::Kept;
use crate::stream::{Sink, Stream};
use crate::tally::Tally;
use exact_time::{Failed, Many};
use std::alloc::Global;

/// Takes whole pieces, and fails at the calls numbered in `fails`, from 1; or takes what there is room
/// for, and then fails. Where memory doesn't suffice for a piece, it takes the piece and from then on
/// doesn't tell what was written.
#[derive(Drop)]
pub struct MemorySink {
    kept: Kept,
    tally: Tally,
    // How many bytes more it takes, where that is limited.
    room: Option<u64>,
}

impl MemorySink {
    /// A sink to which nothing was written yet, which fails at these calls.
    pub fn new(alloc: Global, fails: Many<u64>) -> Self
        ensures view { ⟦<MemorySink as Stream>⟧.view result ≡ record { left = None; written = Some []; faults = 0 } }
        ensures calls { tally_of_sink result ≡ fresh fails }
        ensures room { room_of result ≡ None }
    {
        MemorySink {
            kept: Kept::new(alloc),
            tally: Tally::new(fails),
            room: None,
        }
    }

    /// A sink to which nothing was written yet, which fails once it took `room` bytes.
    pub fn limited(alloc: Global, room: u64) -> Self
        ensures view { ⟦<MemorySink as Stream>⟧.view result ≡ record { left = None; written = Some []; faults = 0 } }
        ensures calls { tally_of_sink result ≡ fresh [] }
        ensures room { room_of result ≡ Some room }
    {
        MemorySink {
            kept: Kept::new(alloc),
            tally: Tally::new(Many::new(alloc)),
            room: Some(room),
        }
    }

    /// What was written, unless a piece was lost.
    pub fn told(&self) -> Option<&[u8]>
        ensures { option_map (λ slice. slice.now) result ≡ (⟦<MemorySink as Stream>⟧.view self.now).written }
    {
        self.kept.told()
    }
}

// How many bytes of a piece there is room for.
fn fitting(room: Option<u64>, size: usize) -> usize
    ensures { result ≡ part_for room size }
{
    match room {
        Some(room) if room < size as u64 => room as usize,
        _ => size,
    }
}

// The room that is left after so many bytes.
fn left(room: Option<u64>, count: usize) -> Option<u64>
    ensures { result ≡ room_behind room count }
{
    match room {
        Some(room) => Some(room.saturating_sub(count as u64)),
        None => None,
    }
}

impl Stream for MemorySink {
    ghost view = { sink_view };

    fn faults(&self) -> u64 {
        self.tally.faults()
    }
}

impl Sink for MemorySink {
    fn put(&mut self, piece: &[u8]) -> Result<usize, Failed>
        ensures call { TakesWhatFits self.old self.new result piece.now }
        ensures told { Puts (sink_view self.old) (sink_view self.new) result piece.now }
    {
        let is_failing = self.tally.is_failing();
        let count = fitting(self.room, piece.len());
        let is_full = count == 0 && !piece.is_empty();
        if is_full || is_failing {
            return Err(self.tally.refuse());
        }
        self.kept.add(&piece[..count]);
        self.room = left(self.room, count);
        Ok(count)
    }
}
