//! What was taken from a link and isn't used yet.
ghost use Rattle.std.specs.Prelude.{◌≡◌, ◌==◌, ◌<◌, ◌≤◌, ◌+◌, [], length, take, drop, IfOk, OnOk, OnErr, Err, MatchBool};
ghost use Rattle.std.specs.Io.KnownBytes.{Consumes, IsAtEnd};
ghost use Rattle.http_wire.specs.Taking.{TookMore};
ghost use Rattle.streams.specs.Effects.{OnlyTakes};

use crate::taking::TakeStop;
use exact_time::{Bytes, OutOfMemory};
use std::alloc::Global;
use std::marker::Model;
use std::mem;
use streams::Link;

// How much room an inbox begins with, and the least that is made where none is left.
const PIECE: usize = 4096;

/// Bytes that were taken from a link and not used yet, in order.
#[derive(Drop)]
pub struct Inbox {
    // The held bytes, and room behind them. It is cleared once, and lent until it is full.
    room: Vec<u8>,
    // How many of these bytes are held.
    count: usize,
}

impl Model for Inbox {
    ghost use Rattle.std.specs.Prelude.{List, ℕ, ◌≤◌, length, take};

    ghost Value = { List ℕ };

    ghost view = { λ inbox. take inbox.count inbox.room.items };

    ghost invariant = { λ inbox. inbox.count ≤ length inbox.room.items };
}

impl Inbox {
    /// An inbox that holds nothing, with some room.
    pub fn new(alloc: Global) -> Result<Inbox, OutOfMemory>
        ensures { IfOk result (λ inbox. inbox ≡ []) }
    {
        let room = Vec::with_capacity(alloc, PIECE)?;
        Ok(Inbox { room, count: 0 })
    }

    /// The bytes that are held.
    pub fn as_slice(&self) -> &[u8]
        ensures { result.now ≡ self.now }
    {
        &self.room[..self.count]
    }

    /// How many bytes are held.
    pub fn len(&self) -> usize
        ensures { result ≡ length self.now }
    {
        self.count
    }

    /// Whether nothing is held.
    pub fn is_empty(&self) -> bool
        ensures { result ≡ (length self.now == 0) }
    {
        self.count == 0
    }

    /// Lets the first bytes of what is held go. The others move to the front, and the room stays.
    pub fn drop_front(&mut self, count: usize)
        requires { count ≤ length self.old }
        ensures { self.new ≡ drop count self.old }
    {
        self.room.copy_within(count..self.count, 0);
        self.count -= count;
    }

    /// Hands the first bytes of what is held on as they lie, without a copy of them. The others stay, in a new room.
    pub fn take_front(&mut self, alloc: Global, count: usize) -> Result<Bytes, OutOfMemory>
        requires { count ≤ length self.old }
        ensures front { IfOk result (λ front. (front ≡ take count self.old) × (self.new ≡ drop count self.old)) }
        ensures none { OnErr result (self.new ≡ self.old) }
    {
        let rest = room_with(alloc, &self.room[count..self.count])?;
        let mut front = mem::replace(&mut self.room, rest);
        front.truncate(count);
        self.count -= count;
        Ok(Bytes::from_vec(front))
    }

    /// Takes one piece behind what is held. False is the end of the input.
    pub fn take_piece<L: Link>(&mut self, link: &mut L) -> Result<bool, TakeStop>
        ensures took { OnOk result (TookMore (L.view link.old).left (L.view link.new).left self.old self.new) }
        ensures more { IfOk result (λ more. MatchBool more (length self.old < length self.new) (self.new ≡ self.old)) }
        ensures end { IfOk result (λ more. MatchBool more (Unit {0}) (IsAtEnd (L.view link.new).left)) }
        ensures takes { OnlyTakes (L.view link.old) (L.view link.new) (result ≡ Err TakeStop.LinkFault) }
    {
        let more = take_behind(link, &mut self.room, self.count)?;
        self.count += more;
        Ok(more > 0)
    }
}

// A room that begins with these bytes.
fn room_with(alloc: Global, bytes: &[u8]) -> Result<Vec<u8>, OutOfMemory>
    ensures { IfOk result (λ room. room.items ≡ bytes.now) }
{
    let mut room = Vec::with_capacity(alloc, PIECE)?;
    room.extend_from_slice(bytes)?;
    Ok(room)
}

// Makes the room as long as this, where it is shorter, by cleared bytes.
fn lengthen(room: &mut Vec<u8>, size: usize) -> Result<(), OutOfMemory>
    ensures front { take (length room.old.items) room.new.items ≡ room.old.items }
    ensures longer { length room.old.items ≤ length room.new.items }
    ensures size { OnOk result (size ≤ length room.new.items) }
{
    if room.len() < size {
        room.resize(size, 0)?;
    }
    Ok(())
}

// Makes room behind so many bytes, where there is none: as much again as they are, so that many bytes come in few pieces and
// no more is cleared than came.
fn make_place(room: &mut Vec<u8>, count: usize) -> Result<(), OutOfMemory>
    requires { count ≤ length room.old.items }
    ensures front { take (length room.old.items) room.new.items ≡ room.old.items }
    ensures longer { length room.old.items ≤ length room.new.items }
    ensures place { OnOk result (count < length room.new.items) }
{
    if room.len() == count {
        lengthen(room, count.saturating_add(count.max(PIECE)))?;
    }
    Ok(())
}

// Lends the link what lies behind so many bytes. Answers how many bytes it gave.
fn take_behind<L: Link>(link: &mut L, room: &mut Vec<u8>, count: usize) -> Result<usize, TakeStop>
    requires { count ≤ length room.old.items }
    ensures front { take count room.new.items ≡ take count room.old.items }
    ensures within { count ≤ length room.new.items }
    ensures fits { IfOk result (λ more. count + more ≤ length room.new.items) }
    ensures gave { IfOk result (λ more. Consumes (L.view link.old).left (L.view link.new).left (take more (drop count room.new.items))) }
    ensures end { IfOk result (λ more. more ≡ 0 → IsAtEnd (L.view link.new).left) }
    ensures takes { OnlyTakes (L.view link.old) (L.view link.new) (result ≡ Err TakeStop.LinkFault) }
{
    if make_place(room, count).is_err() {
        return Err(TakeStop::OutOfMemory);
    }
    match link.take(&mut room[count..]) {
        Ok(more) => Ok(more),
        Err(_) => Err(TakeStop::LinkFault),
    }
}
