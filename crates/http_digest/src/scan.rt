//! Credentials cut into items, byte by byte.
ghost use Rattle.std.specs.Prelude.{◌≡◌, MatchResult, IfOk};
ghost use Rattle.http_digest.specs.Credentials.{is_mark, is_token_byte};
ghost use Rattle.http_digest.specs.Items.{Refuses, in_name, in_value, with_item, before_step, name_step, value_step, behind_step, token_step, quoted_step, step_at, items_at, items_from, nothing_read};
ghost use Rattle.http_digest.specs.declared.scan.Place.TheVariants as place;

use crate::authorization::AuthFault;
use crate::item::Item;
use exact_time::{Bytes, Many, OutOfMemory};
use std::alloc::Global;
use std::mem;

// Where a byte stands.
#[derive(Clone, Copy)]
pub(crate) enum Place {
    // Before a name: spaces may come.
    Before,
    Name,
    // Behind the equals sign.
    Value,
    Token,
    Quoted,
    // Behind a backslash in a quoted text.
    Escaped,
    // Behind a quoted text.
    Closed,
    // Behind spaces that a comma has to follow.
    Gap,
}

// The items so far, and what was read of the next one.
#[derive(Drop)]
pub(crate) struct Scan {
    items: Many<Item>,
    name: Bytes,
    value: Bytes,
    place: Place,
}

fn is_mark(byte: u8) -> bool
    ensures { result ≡ is_mark byte }
{
    b"!#$%&'*+-.^_`|~".iter().any(|mark| *mark == byte)
}

// Whether a byte may stand in a token.
fn is_token_byte(byte: u8) -> bool
    ensures { result ≡ is_token_byte byte }
{
    byte.is_ascii_alphanumeric() || is_mark(byte)
}

impl Scan {
    fn new(alloc: Global) -> Scan
        ensures { result ≡ nothing_read }
    {
        Scan {
            items: Many::new(alloc),
            name: Bytes::new(alloc),
            value: Bytes::new(alloc),
            place: Place::Before,
        }
    }

    fn push_name(&mut self, byte: u8) -> Result<(), OutOfMemory>
        ensures { IfOk result (λ _. self.new ≡ in_name self.old byte) }
    {
        self.name.push(byte)?;
        self.place = Place::Name;
        Ok(())
    }

    fn push_value(&mut self, place: Place, byte: u8) -> Result<(), OutOfMemory>
        ensures { IfOk result (λ _. self.new ≡ in_value place self.old byte) }
    {
        self.value.push(byte)?;
        self.place = place;
        Ok(())
    }

    fn end_item(&mut self, alloc: Global) -> Result<(), OutOfMemory>
        ensures { IfOk result (λ _. self.new ≡ with_item self.old) }
    {
        let name = mem::replace(&mut self.name, Bytes::new(alloc));
        let value = mem::replace(&mut self.value, Bytes::new(alloc));
        self.items.push(Item { name, value })?;
        self.place = Place::Before;
        Ok(())
    }

    fn take_before(&mut self, byte: u8) -> Result<(), AuthFault>
        ensures { MatchResult result (λ _. before_step self.old byte ≡ Some self.new) (Refuses (before_step self.old byte)) }
    {
        if byte == b' ' {
            return Ok(());
        }
        if is_token_byte(byte) {
            self.push_name(byte)?;
            return Ok(());
        }
        Err(AuthFault::Unreadable)
    }

    fn take_name(&mut self, byte: u8) -> Result<(), AuthFault>
        ensures { MatchResult result (λ _. name_step self.old byte ≡ Some self.new) (Refuses (name_step self.old byte)) }
    {
        if byte == b'=' {
            self.place = Place::Value;
            return Ok(());
        }
        if is_token_byte(byte) {
            self.push_name(byte)?;
            return Ok(());
        }
        Err(AuthFault::Unreadable)
    }

    fn take_value(&mut self, byte: u8) -> Result<(), AuthFault>
        ensures { MatchResult result (λ _. value_step self.old byte ≡ Some self.new) (Refuses (value_step self.old byte)) }
    {
        if byte == b'"' {
            self.place = Place::Quoted;
            return Ok(());
        }
        if is_token_byte(byte) {
            self.push_value(Place::Token, byte)?;
            return Ok(());
        }
        Err(AuthFault::Unreadable)
    }

    // Behind a value there are spaces and a comma.
    fn take_behind(&mut self, alloc: Global, byte: u8) -> Result<(), AuthFault>
        ensures { MatchResult result (λ _. behind_step self.old byte ≡ Some self.new) (Refuses (behind_step self.old byte)) }
    {
        if byte == b' ' {
            self.place = Place::Gap;
            return Ok(());
        }
        if byte == b',' {
            self.end_item(alloc)?;
            return Ok(());
        }
        Err(AuthFault::Unreadable)
    }

    fn take_token(&mut self, alloc: Global, byte: u8) -> Result<(), AuthFault>
        ensures { MatchResult result (λ _. token_step self.old byte ≡ Some self.new) (Refuses (token_step self.old byte)) }
    {
        if is_token_byte(byte) {
            self.push_value(Place::Token, byte)?;
            return Ok(());
        }
        self.take_behind(alloc, byte)
    }

    fn take_quoted(&mut self, byte: u8) -> Result<(), AuthFault>
        ensures { MatchResult result (λ _. quoted_step self.old byte ≡ Some self.new) (Refuses (quoted_step self.old byte)) }
    {
        if byte == b'"' {
            self.place = Place::Closed;
            return Ok(());
        }
        if byte == b'\\' {
            self.place = Place::Escaped;
            return Ok(());
        }
        self.push_value(Place::Quoted, byte)?;
        Ok(())
    }

    // A byte behind a backslash is taken as it is.
    fn take_escaped(&mut self, byte: u8) -> Result<(), AuthFault>
        ensures { MatchResult result (λ _. step_at place.Escaped self.old byte ≡ Some self.new) (Refuses (step_at place.Escaped self.old byte)) }
    {
        self.push_value(Place::Quoted, byte)?;
        Ok(())
    }

    fn take(&mut self, alloc: Global, byte: u8) -> Result<(), AuthFault>
        ensures { MatchResult result (λ _. step_at self.old.place self.old byte ≡ Some self.new) (Refuses (step_at self.old.place self.old byte)) }
    {
        match self.place {
            Place::Before => self.take_before(byte),
            Place::Name => self.take_name(byte),
            Place::Value => self.take_value(byte),
            Place::Token => self.take_token(alloc, byte),
            Place::Quoted => self.take_quoted(byte),
            Place::Escaped => self.take_escaped(byte),
            Place::Closed => self.take_behind(alloc, byte),
            Place::Gap => self.take_behind(alloc, byte),
        }
    }

    // The items, where one may end here.
    fn into_items(mut self, alloc: Global) -> Result<Many<Item>, AuthFault>
        ensures { MatchResult result (λ items. items_at self.place self ≡ Some items) (Refuses (items_at self.place self)) }
    {
        match self.place {
            Place::Token | Place::Closed => {
                self.end_item(alloc)?;
                let Scan { items, .. } = self;
                Ok(items)
            }
            _ => Err(AuthFault::Unreadable),
        }
    }
}

/// The items of a text.
pub(crate) fn items_of(alloc: Global, text: &[u8]) -> Result<Many<Item>, AuthFault>
    ensures { MatchResult result (λ items. items_from nothing_read text.now ≡ Some items) (Refuses (items_from nothing_read text.now)) }
{
    let mut scan = Scan::new(alloc);
    'bytes: for byte in text {
        scan.take(alloc, *byte)?;
    }
    scan.into_items(alloc)
}
