//! Writes a request to a link.
ghost use Rattle.std.specs.Prelude.{◌≡◌, ◌≤◌, ◌+◌, ◌++◌, [], length, flat_map, IsTrue};
ghost use Rattle.streams.specs.Effects.{PutsAll};
ghost use Rattle.http_replies.specs.Replies.{field_line};
ghost use Rattle.http_wire.specs.FieldPairs.{as_pair};
ghost use Rattle.http_answers.specs.Requests.{request_bytes, request_line, rest_of, lines_of};
ghost use Rattle.http_answers.specs.Sending.{Pushes};

use crate::asked::Asked;
use exact_time::Failed;
use http_replies::LinkFault;
use http_wire::Field;
use std::marker::Model;
use streams::{Link, put_all};

// How many bytes are put together before they are written.
const ROOM: usize = 1024;

// Bytes that are put together: a request is written in few pieces, since a connection sends each at once.
#[derive(Drop)]
pub struct Outbox {
    bytes: [u8; ROOM],
    count: usize,
}

impl Model for Outbox {
    ghost use Rattle.std.specs.Prelude.{List, ℕ, ◌≤◌, take};

    ghost Value = { List ℕ };

    ghost view = { λ outbox. take outbox.count outbox.bytes };

    ghost invariant = { λ outbox. outbox.count ≤ 1024 };
}

impl Outbox {
    fn new() -> Outbox
        ensures { result ≡ [] }
    {
        Outbox {
            bytes: [0; ROOM],
            count: 0,
        }
    }

    fn as_slice(&self) -> &[u8]
        ensures { result.now ≡ self.now }
    {
        &self.bytes[..self.count]
    }

    fn has_room(&self, count: usize) -> bool
        ensures { IsTrue result → length self.now + count ≤ 1024 }
    {
        count <= ROOM - self.count
    }

    // Puts a piece for which there is room behind what is held.
    fn add(&mut self, piece: &[u8])
        requires { length self.old + length piece.now ≤ 1024 }
        ensures { self.new ≡ self.old ++ piece.now }
    {
        let end = self.count + piece.len();
        self.bytes[self.count..end].copy_from_slice(piece);
        self.count = end;
    }

    // Writes what is held.
    fn flush<L: Link>(&mut self, link: &mut L) -> Result<(), Failed>
        ensures puts { PutsAll (L.view link.old) (L.view link.new) result self.old }
        ensures empty { self.new ≡ [] }
    {
        let written = put_all(link, self.as_slice());
        self.count = 0;
        written
    }

    // Puts a piece behind what is held. Where there is no room, both are written.
    fn push<L: Link>(&mut self, link: &mut L, piece: &[u8]) -> Result<(), Failed>
        ensures { Pushes (L.view link.old) (L.view link.new) self.old self.new result piece.now }
    {
        if self.has_room(piece.len()) {
            self.add(piece);
            return Ok(());
        }
        self.flush(link)?;
        put_all(link, piece)
    }

    // Puts pieces behind what is held.
    fn push_all<L: Link>(&mut self, link: &mut L, pieces: &[&[u8]]) -> Result<(), Failed>
        ensures { Pushes (L.view link.old) (L.view link.new) self.old self.new result (flat_map (λ piece. piece.now) pieces.now) }
    {
        'pieces: for piece in pieces {
            self.push(link, *piece)?;
        }
        Ok(())
    }

    // Puts the first line of a request behind what is held.
    fn push_line<L: Link>(&mut self, link: &mut L, asked: &Asked) -> Result<(), Failed>
        ensures { Pushes (L.view link.old) (L.view link.new) self.old self.new result (request_line asked.now) }
    {
        let method = asked.method.as_slice();
        let target = asked.target.as_slice();
        self.push_all(link, &[method, b" ", target, b" HTTP/1.1\r\n"])
    }

    // Puts the line of a field behind what is held.
    fn push_field<L: Link>(&mut self, link: &mut L, field: &Field) -> Result<(), Failed>
        ensures { Pushes (L.view link.old) (L.view link.new) self.old self.new result (field_line (as_pair field.now)) }
    {
        let name = field.name.as_slice();
        let value = field.value.as_slice();
        self.push_all(link, &[name, b": ", value, b"\r\n"])
    }

    // Puts the lines of fields behind what is held.
    fn push_fields<L: Link>(&mut self, link: &mut L, fields: &[Field]) -> Result<(), Failed>
        ensures { Pushes (L.view link.old) (L.view link.new) self.old self.new result (lines_of fields.now) }
    {
        'fields: for field in fields {
            self.push_field(link, field)?;
        }
        Ok(())
    }

    // Puts the lines of a request's fields behind what is held, and an empty line.
    fn push_rest<L: Link>(&mut self, link: &mut L, asked: &Asked) -> Result<(), Failed>
        ensures { Pushes (L.view link.old) (L.view link.new) self.old self.new result (rest_of asked.now) }
    {
        self.push_fields(link, asked.fields.as_slice())?;
        self.push(link, b"\r\n")
    }

    // Puts a request behind what is held.
    fn push_request<L: Link>(&mut self, link: &mut L, asked: &Asked) -> Result<(), Failed>
        ensures { Pushes (L.view link.old) (L.view link.new) self.old self.new result (request_bytes asked.now) }
    {
        self.push_line(link, asked)?;
        self.push_rest(link, asked)
    }
}

/// Writes a request without a body, in HTTP/1.1 (RFC 9112, section 3): its first line, a line for each field with its name as it
/// stands, which is lower case, and an empty line. Takes no memory. Where the link fails, a first part was written.
pub fn write_request<L: Link>(link: &mut L, asked: &Asked) -> Result<(), LinkFault>
    ensures { PutsAll (L.view link.old) (L.view link.new) result (request_bytes asked.now) }
{
    let mut outbox = Outbox::new();
    outbox.push_request(link, asked)?;
    outbox.flush(link)?;
    Ok(())
}
