//! What a stream in memory keeps of what is written to it.
ghost use Rattle.std.specs.Prelude.{◌≡◌, [], Some};
ghost use Rattle.std.specs.Option.{option_map};
ghost use Rattle.streams.specs.Effects.{Grew};

use exact_time::Bytes;
use std::alloc::Global;

/// The bytes that were written, and whether they are all.
#[derive(Drop)]
pub struct Kept {
    bytes: Bytes,
    // Whether no piece was lost for want of memory.
    tells: bool,
}

impl Kept {
    ghost use Rattle.streams.specs.Kept.{told_of};

    /// Nothing yet.
    pub(crate) fn new(alloc: Global) -> Self
        ensures { told_of result ≡ Some [] }
    {
        Kept {
            bytes: Bytes::new(alloc),
            tells: true,
        }
    }

    /// The bytes, unless a piece of them was lost.
    pub(crate) fn told(&self) -> Option<&[u8]>
        ensures { option_map (λ slice. slice.now) result ≡ told_of self.now }
    {
        if self.tells {
            Some(self.bytes.as_slice())
        } else {
            None
        }
    }

    /// Keeps a piece. Where memory doesn't suffice for it, it is lost, and nothing is told from then on.
    pub(crate) fn add(&mut self, piece: &[u8])
        ensures { Grew (told_of self.old) (told_of self.new) piece.now }
    {
        if self.bytes.extend(piece).is_err() {
            self.tells = false;
        }
    }
}
