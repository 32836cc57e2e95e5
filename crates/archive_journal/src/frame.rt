//! What a commit writes behind its gate.
ghost use Rattle.std.specs.Prelude.{◌≡◌, ◌+◌, ◌++◌, [], ◌∷◌, length, IfOk};
ghost use Rattle.archive_journal.specs.Frames.{IsSized, body_of, closed_gate};

use exact_time::{Bytes, OutOfMemory};
use std::alloc::Global;
use std::marker::Model;

/// A payload ready to be committed, seen as the payload.
#[derive(Drop)]
pub struct Frame {
    // The payload's length, the payload, and the next closed gate.
    bytes: Bytes,
}

impl Model for Frame {
    ghost use Rattle.std.specs.Prelude.{◌≡◌, ℕ, ◌-◌, List, length, take, drop};
    ghost use Rattle.archive_journal.specs.Frames.{IsFrame};

    ghost Value = { List ℕ };

    ghost view = { λ frame. take (length frame.bytes - 5) (drop 4 frame.bytes) };

    ghost invariant = { λ frame. IsFrame frame.bytes (take (length frame.bytes - 5) (drop 4 frame.bytes)) };
}

impl Frame {
    /// Copies a payload of 1 to 2,097,152 bytes.
    pub fn of(alloc: Global, payload: &[u8]) -> Result<Frame, OutOfMemory>
        requires { IsSized payload.now }
        ensures { IfOk result (λ frame. frame ≡ payload.now) }
    {
        let size = payload.len() as u32;
        let mut bytes = Bytes::new(alloc);
        bytes.extend(&size.to_be_bytes())?;
        bytes.extend(payload)?;
        bytes.push(CLOSED)?;
        Ok(Frame { bytes })
    }

    // What is written behind the gate.
    pub(crate) fn as_slice(&self) -> &[u8]
        ensures bytes { result.now ≡ body_of self.now ++ closed_gate ∷ [] }
        ensures sized { IsSized self.now }
        ensures len { length result.now ≡ length self.now + 5 }
    {
        self.bytes.as_slice()
    }

    // How many bytes the frame has, its gate with them.
    pub(crate) fn size(&self) -> u64
        ensures { result ≡ length self.now + 5 }
    {
        self.bytes.len() as u64
    }
}

// A gate that isn't open.
const CLOSED: u8 = 0;

// A gate whose frame counts.
pub(crate) const OPEN: u8 = 1;

// What a journal's file begins with.
pub(crate) const MAGIC: [u8; 16] = *b"FDSNARCHIVE-0001";

// The most bytes of a payload.
pub(crate) const LIMIT: u32 = 2_097_152;
