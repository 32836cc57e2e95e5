//! The pieces that a stream in memory gives, of one piece a call.
ghost use Rattle.std.specs.Prelude.{◌≡◌, ◌≤◌, Some, take, min, length, Ok};
ghost use Rattle.std.specs.List.{flat_map};
ghost use Rattle.std.specs.Io.KnownBytes.{ReadConsumes};

use exact_time::{Bytes, Failed, Many};

/// Pieces, and how far they are given.
#[derive(Drop)]
pub struct Pieces {
    all: Many<Bytes>,
    // The piece that is next, and how many of its bytes are gone.
    at: usize,
    from: usize,
}

impl Pieces {
    ghost use Rattle.streams.specs.Pieces.{with_bytes, pieces_left, bytes_left, GivesPiece};

    /// All of these.
    pub(crate) fn new(all: Many<Bytes>) -> Self
        ensures bytes { bytes_left result ≡ flat_map (λ piece. piece) all }
        ensures pieces { pieces_left result ≡ with_bytes all }
    {
        Pieces {
            all,
            at: 0,
            from: 0,
        }
    }

    /// Gives bytes of the first piece, all that fit.
    pub(crate) fn give(&mut self, into: &mut [u8]) -> usize
        ensures piece { GivesPiece (pieces_left self.old) (pieces_left self.new) result (length into.old) }
        ensures bound { result ≤ length into.new }
        ensures bytes { ReadConsumes {E = Failed} (Some (bytes_left self.old)) (Some (bytes_left self.new)) (Ok result) into.new }
    {
        'spent: while self.at < self.all.len() {
            let piece = self.all.as_slice()[self.at].as_slice();
            if self.from < piece.len() {
                let count = copy_front(&piece[self.from..], into);
                self.from += count;
                return count;
            }
            self.from -= piece.len();
            self.at += 1;
        }
        0
    }
}

// Copies as many bytes as there are and as fit.
fn copy_front(bytes: &[u8], into: &mut [u8]) -> usize
    ensures count { result ≡ min (length bytes.now) (length into.old) }
    ensures given { take result into.new ≡ take result bytes.now }
{
    let count = bytes.len().min(into.len());
    into[..count].copy_from_slice(&bytes[..count]);
    count
}
