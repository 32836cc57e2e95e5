ghost use Rattle.std.specs.Prelude.{◌≡◌, ℕ, ◌<◌, ◌≤◌, ◌↔◌, List, [], ◌∷◌, ◌++◌, length, slice_range, IsTrue, IsSome, IfOk, OnOk, OnErr, option_to_list};

use crate::OutOfMemory;
use crate::part::Part;
use std::alloc::Global;
use std::marker::Model;

#[derive(Debug, Drop)]
enum Held {
    Own(Vec<u8>),
    Shared(Part),
}

/// Bytes that can grow at their end.
#[derive(Debug, Drop)]
pub struct Bytes {
    held: Held,
}

impl Model for Bytes {
    ghost use Rattle.std.specs.Prelude.{List, ℕ};
    ghost use Rattle.exact_time.specs.Held.{held_bytes};

    ghost Value = { List ℕ };

    ghost view = { λ b. held_bytes b.held };
}

impl Bytes {
    /// No bytes. Takes no memory until something is pushed.
    pub fn new(alloc: Global) -> Bytes
        ensures { result ≡ [] }
    {
        Bytes {
            held: Held::Own(Vec::new(alloc)),
        }
    }

    /// These bytes as they lie. Copies nothing.
    pub fn from_vec(bytes: Vec<u8>) -> Bytes
        ensures { result ≡ bytes.items }
    {
        Bytes {
            held: Held::Own(bytes),
        }
    }

    /// The same bytes, which copies and parts of them share from now on. Copies nothing.
    pub fn share(self) -> Result<Bytes, OutOfMemory>
        ensures { IfOk result (λ shared. shared ≡ self) }
    {
        let Bytes { held } = self;
        let own = match held {
            Held::Own(own) => own,
            Held::Shared(part) => {
                return Ok(Bytes {
                    held: Held::Shared(part),
                });
            }
        };
        Ok(Bytes {
            held: Held::Shared(Part::of(own)?),
        })
    }

    /// The same bytes. Copies nothing where they are shared.
    pub fn copy(&self, alloc: Global) -> Result<Bytes, OutOfMemory>
        ensures { IfOk result (λ copy. copy ≡ self.now) }
    {
        self.part(alloc, 0, self.len())
    }

    /// The bytes from one place to another. Copies nothing where they are shared.
    pub fn part(&self, alloc: Global, from: usize, end: usize) -> Result<Bytes, OutOfMemory>
        requires { (from ≤ end) × (end ≤ length self.now) }
        ensures { IfOk result (λ part. part ≡ slice_range self.now from end) }
    {
        match &self.held {
            Held::Own(own) => {
                let mut copy = Vec::new(alloc);
                copy.extend_from_slice(&own.as_slice()[from..end])?;
                Ok(Bytes {
                    held: Held::Own(copy),
                })
            }
            Held::Shared(part) => {
                let part = part.part(from, end)?;
                Ok(Bytes {
                    held: Held::Shared(part),
                })
            }
        }
    }

    /// Puts a byte at the end. Copies what others share.
    pub fn push(&mut self, byte: u8) -> Result<(), OutOfMemory>
        ensures ok { OnOk result (self.new ≡ self.old ++ byte ∷ []) }
        ensures err { OnErr result (self.new ≡ self.old) }
    {
        match &mut self.held {
            Held::Own(own) => {
                own.push(byte)?;
            }
            Held::Shared(part) => {
                let mut own = part.copied()?;
                own.push(byte)?;
                self.held = Held::Own(own);
            }
        }
        Ok(())
    }

    /// Puts some bytes at the end, in one copy. Copies what others share.
    pub fn extend(&mut self, piece: &[u8]) -> Result<(), OutOfMemory>
        ensures ok { OnOk result (self.new ≡ self.old ++ piece.now) }
        ensures err { OnErr result (self.new ≡ self.old) }
    {
        match &mut self.held {
            Held::Own(own) => {
                own.extend_from_slice(piece)?;
            }
            Held::Shared(part) => {
                let mut own = part.copied()?;
                own.extend_from_slice(piece)?;
                self.held = Held::Own(own);
            }
        }
        Ok(())
    }

    /// The bytes.
    pub fn as_slice(&self) -> &[u8]
        ensures { result.now ≡ self.now }
    {
        match &self.held {
            Held::Own(own) => own.as_slice(),
            Held::Shared(part) => part.as_slice(),
        }
    }

    /// How many bytes there are.
    pub fn len(&self) -> usize
        ensures { result ≡ length self.now }
    {
        self.as_slice().len()
    }

    /// Whether there is no byte.
    pub fn is_empty(&self) -> bool
        ensures { IsTrue result ↔ (self.now ≡ []) }
    {
        self.as_slice().is_empty()
    }
}

/// Text in UTF-8 that can grow at its end, seen as its bytes.
#[derive(Debug, Drop)]
pub struct Text {
    inner: String,
}

impl Model for Text {
    ghost use Rattle.std.specs.Prelude.{List, ℕ, string_bytes};

    ghost Value = { List ℕ };

    ghost view = { λ t. string_bytes t.inner };
}

impl Text {
    /// No text. Takes no memory until something is pushed.
    pub fn new(alloc: Global) -> Text
        ensures { result ≡ [] }
    {
        Text {
            inner: String::new(alloc),
        }
    }

    /// A copy of the text.
    pub fn copy(&self, alloc: Global) -> Result<Text, OutOfMemory>
        ensures { IfOk result (λ copy. copy ≡ self.now) }
    {
        let mut copy = Text::new(alloc);
        copy.push(self.as_str())?;
        Ok(copy)
    }

    /// Where the text takes its memory.
    pub(crate) fn allocator(&self) -> Global {
        *self.inner.allocator()
    }

    /// Puts a piece of text at the end.
    pub fn push(&mut self, piece: &str) -> Result<(), OutOfMemory>
        ensures ok { OnOk result (self.new ≡ self.old ++ piece.now) }
        ensures err { OnErr result (self.new ≡ self.old) }
    {
        self.inner.push_str(piece)?;
        Ok(())
    }

    /// The bytes of the text.
    pub fn as_slice(&self) -> &[u8]
        ensures { result.now ≡ self.now }
    {
        self.inner.as_bytes()
    }

    /// The text.
    pub fn as_str(&self) -> &str
        ensures { result.now ≡ self.now }
    {
        self.inner.as_str()
    }

    /// How many bytes the text has.
    pub fn len(&self) -> usize
        ensures { result ≡ length self.now }
    {
        self.inner.len()
    }

    /// Whether the text has no byte.
    pub fn is_empty(&self) -> bool
        ensures { IsTrue result ↔ (self.now ≡ []) }
    {
        self.inner.is_empty()
    }
}

/// Values in a row that can grow at its end.
#[derive(Debug, Drop)]
pub struct Many<T> {
    inner: Vec<T>,
}

impl<T> Model for Many<T> {
    ghost Value = { List T };

    ghost view = { λ m. m.inner.items };
}

impl<T> Many<T> {
    /// No values. Takes no memory until something is pushed.
    pub fn new(alloc: Global) -> Many<T>
        ensures { result ≡ [] }
    {
        Many {
            inner: Vec::new(alloc),
        }
    }

    /// Puts a value at the end. Where memory runs out, the value is dropped.
    pub fn push(&mut self, item: T) -> Result<(), OutOfMemory>
    where
        T: Drop,
        ensures ok { OnOk result (self.new ≡ self.old ++ item ∷ []) }
        ensures err { OnErr result (self.new ≡ self.old) }
    {
        self.inner.push(item)?;
        Ok(())
    }

    /// Takes out the last value. Takes no memory.
    pub fn pop(&mut self) -> Option<T>
        ensures items { self.old ≡ self.new ++ option_to_list result }
        ensures some { IsSome result ↔ (0 < length self.old) }
    {
        self.inner.pop()
    }

    /// The values, in order.
    pub fn as_slice(&self) -> &[T]
        ensures { result.now ≡ self.now }
    {
        self.inner.as_slice()
    }

    /// How many values there are.
    pub fn len(&self) -> usize
        ensures { result ≡ length self.now }
    {
        self.inner.len()
    }

    /// Whether there is no value.
    pub fn is_empty(&self) -> bool
        ensures { IsTrue result ↔ (self.now ≡ []) }
    {
        self.inner.is_empty()
    }

    /// The values as a `Vec`, from which a `for` takes them in order. Copies nothing.
    pub fn into_vec(self) -> Vec<T>
        ensures { result.items ≡ self }
    {
        let Many { inner } = self;
        inner
    }
}
