//! The turns of a session.
ghost use Rattle.std.specs.Prelude.{◌≡◌, ◌≤◌, ◌<◌, [], ◌∷◌, ◌++◌, length, vec_capacity, IfOk};

use exact_time::OutOfMemory;
use http_wire::Turn;
use std::alloc::Global;
use std::marker::Model;

/// How many replies a session has at most.
pub(crate) const LIMIT: usize = 1000;

/// The turns of a session, 1000 at most, for which it has room.
#[derive(Drop)]
pub struct Trail {
    turns: Vec<Turn>,
    ghost room: { 1000 ≤ vec_capacity turns },
}

impl Model for Trail {
    ghost use Rattle.std.specs.Prelude.{List};
    ghost use Rattle.http_wire.specs.declared.turn.Turn.{Turn};

    ghost Value = { List Turn };

    ghost view = { λ trail. trail.turns.items };
}

impl Trail {
    /// No turns, and room for 1000.
    pub fn new(alloc: Global) -> Result<Trail, OutOfMemory>
        ensures { IfOk result (λ trail. trail ≡ []) }
    {
        let mut turns = Vec::new(alloc);
        turns.reserve(LIMIT)?;
        Ok(Trail { turns })
    }

    /// The turns in order.
    pub fn as_slice(&self) -> &[Turn]
        ensures { result.now ≡ self.now }
    {
        self.turns.as_slice()
    }

    pub(crate) fn len(&self) -> usize
        ensures { result ≡ length self.now }
    {
        self.turns.len()
    }

    pub(crate) fn clear(&mut self)
        ensures { self.new ≡ [] }
    {
        self.turns.clear();
    }

    pub(crate) fn push(&mut self, turn: Turn)
        requires { length self.old < 1000 }
        ensures { self.new ≡ self.old ++ turn ∷ [] }
    {
        self.turns.push_reserved(turn);
    }
}
