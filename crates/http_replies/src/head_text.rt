//! The text of a head, in a buffer of fixed size.
ghost use Rattle.std.specs.Prelude.{◌≡◌, ◌≤◌, ◌+◌, ◌++◌, [], length, decimal};
ghost use Rattle.http_replies.specs.HeadTexts.{head_limit};
ghost use Rattle.http_replies.specs.Replies.{field_line};

use itoa::Buffer;
use std::marker::Model;

// How many bytes a head has at most.
const HEAD_LIMIT: usize = 512;

// The bytes of a head so far.
#[derive(Drop)]
pub struct HeadText {
    bytes: [u8; HEAD_LIMIT],
    count: usize,
}

impl Model for HeadText {
    ghost use Rattle.std.specs.Prelude.{List, ℕ, ◌≤◌, take};

    ghost Value = { List ℕ };

    ghost view = { λ head. take head.count head.bytes };

    ghost invariant = { λ head. head.count ≤ 512 };
}

impl HeadText {
    pub(crate) fn new() -> HeadText
        ensures { result ≡ [] }
    {
        HeadText {
            bytes: [0; HEAD_LIMIT],
            count: 0,
        }
    }

    pub(crate) fn as_slice(&self) -> &[u8]
        ensures same { result.now ≡ self.now }
        ensures bounded { length self.now ≤ head_limit }
    {
        &self.bytes[..self.count]
    }

    pub(crate) fn push(&mut self, piece: &[u8])
        requires room { length self.old + length piece.now ≤ head_limit }
        ensures added { self.new ≡ self.old ++ piece.now }
    {
        let end = self.count + piece.len();
        self.bytes[self.count..end].copy_from_slice(piece);
        self.count = end;
    }

    // Puts the line of a field at the end.
    pub(crate) fn push_field(&mut self, name: &[u8], value: &[u8])
        requires room { length self.old + length name.now + length value.now + 4 ≤ head_limit }
        ensures added { self.new ≡ self.old ++ field_line (name.now, value.now) }
        ensures size { length self.new ≤ length self.old + length name.now + length value.now + 4 }
    {
        self.push(name);
        self.push(b": ");
        self.push(value);
        self.push(b"\r\n");
    }

    // Puts the line of a field whose value is a number at the end.
    pub(crate) fn push_number(&mut self, name: &[u8], number: u64)
        requires room { length self.old + length name.now + 24 ≤ head_limit }
        ensures added { self.new ≡ self.old ++ field_line (name.now, decimal number) }
        ensures size { length self.new ≤ length self.old + length name.now + 24 }
    {
        let mut buffer = Buffer::new();
        self.push_field(name, buffer.format(number).as_bytes());
    }
}
