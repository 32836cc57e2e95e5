//! Writes the bytes of rows.
ghost use Rattle.std.specs.Prelude.{◌≡◌, ◌+◌, ◌++◌, ◌<◌, ◌≤◌, true, [], length, take};
ghost use Rattle.std.specs.List.{AllByRecursion};
ghost use Rattle.dataselect.specs.DataBody.{images_at};
ghost use Rattle.centre_select.specs.Output.{PutsFront};
ghost use Rattle.streams.specs.Effects.{PutsAll};

use dataselect::Shelf;
use exact_time::Failed;
use streams::{Sink, put_all};

// How many bytes are put together before they are written: as many as the longest record has.
const CHUNK: usize = 65_536;

// Bytes that wait to be written together.
#[derive(Drop)]
struct Chunk {
    bytes: [u8; 65_536],
    used: usize,
    ghost within: { used ≤ 65_536 },
}

impl Chunk {
    // No bytes.
    fn new() -> Self
        ensures { take result.used result.bytes ≡ [] }
    {
        Chunk {
            bytes: [0; CHUNK],
            used: 0,
        }
    }

    // Whether so many bytes more have room.
    fn has_room(&self, len: usize) -> bool
        ensures { result ≡ true → self.now.used + len ≤ 65_536 }
    {
        len <= CHUNK - self.used
    }

    fn as_slice(&self) -> &[u8]
        ensures { result.now ≡ take self.now.used self.now.bytes }
    {
        &self.bytes[..self.used]
    }

    // Puts bytes behind the others.
    fn extend(&mut self, more: &[u8])
        requires { self.old.used + length more.now ≤ 65_536 }
        ensures { take self.new.used self.new.bytes ≡ take self.old.used self.old.bytes ++ more.now }
    {
        let end = self.used + more.len();
        self.bytes[self.used..end].copy_from_slice(more);
        self.used = end;
    }

    fn clear(&mut self)
        ensures empty { take self.new.used self.new.bytes ≡ [] }
        ensures used { self.new.used ≡ 0 }
    {
        self.used = 0;
    }
}

// Puts a row's bytes into the chunk. Where they have no room, what waits is written first.
fn put_row<K: Sink>(sink: &mut K, chunk: &mut Chunk, image: &[u8]) -> Result<(), Failed>
    requires { length image.now ≤ 65_536 }
    ensures { PutsFront (K.view sink.old) (K.view sink.new) result
        (take chunk.old.used chunk.old.bytes ++ image.now) (take chunk.new.used chunk.new.bytes) }
{
    if chunk.has_room(image.len()) {
        chunk.extend(image);
        return Ok(());
    }
    put_all(sink, chunk.as_slice())?;
    chunk.clear();
    chunk.extend(image);
    Ok(())
}

/// Writes the bytes of the rows at these places, one after another, in pieces of up to 65,536 bytes. Where it
/// fails, a first part of them was written. Takes no memory.
pub fn put_rows<K: Sink, H: Shelf>(sink: &mut K, shelf: &H, places: &[usize]) -> Result<(), Failed>
    requires { AllByRecursion (λ i. i < length (H.rows shelf.now)) places.now }
    ensures { PutsAll (K.view sink.old) (K.view sink.new) result (images_at (H.rows shelf.now) places.now) }
{
    let mut chunk = Chunk::new();
    'places: for place in places {
        put_row(sink, &mut chunk, shelf.row(*place).image.as_slice())?;
    }
    put_all(sink, chunk.as_slice())
}
