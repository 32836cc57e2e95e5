//! What bytes come from and go to.
ghost use Rattle.std.specs.Prelude.{◌≡◌};
ghost use Rattle.streams.specs.View.{StreamView};
ghost use Rattle.streams.specs.Effects.{Takes, Puts};

use exact_time::Failed;

/// Something that gives bytes, takes them, or both. What its calls do to what is told of it is one
/// relation for each (`specs/Effects.antt`).
pub trait Stream {
    /// What is told of the stream (`specs/View.antt`). A real stream may tell nothing but its faults.
    ghost view: { Self → StreamView };

    /// How often the stream has failed, up to the greatest number of the type.
    fn faults(&self) -> u64
        ensures { result ≡ (view self.now).faults };
}

/// Where bytes come from.
pub trait Source: Stream {
    /// Gives a first part of what is left, at most as much as fits. For a slice that isn't empty, 0 is
    /// the end of the input. A call that fails is counted, and leaves what is left as it was. What was
    /// written stays in any case.
    fn take(&mut self, into: &mut [u8]) -> Result<usize, Failed>
        ensures { Takes (Self.view self.old) (Self.view self.new) result into.new };
}

/// Where bytes go to.
pub trait Sink: Stream {
    /// Takes a first part of the piece, at least one byte where there is one. A call that fails is
    /// counted, and takes nothing. What is left stays in any case.
    fn put(&mut self, piece: &[u8]) -> Result<usize, Failed>
        ensures { Puts (Self.view self.old) (Self.view self.new) result piece.now };
}

/// A connection: bytes come from the peer and go to it.
pub trait Link: Source + Sink {}
