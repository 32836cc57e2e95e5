//! The place of one caller.
ghost use Rattle.std.specs.Prelude.{◌≡◌, [], IfSome, IfOk};
ghost use mathlib.Core.List.{IsPrefix};
ghost use Rattle.left_right.specs.Sides.{view};
ghost use Rattle.archive_state.specs.Lawful.{IsLawful};
ghost use Rattle.desk_words.specs.Counts.{RoseWithin};
ghost use Rattle.desk_words.specs.Setting.{setting};
ghost use Rattle.desk_words.specs.Stand.{answer_of};

use crate::carries::Carries;
use crate::looking::{Found, find, find_answer};
use crate::shares::Shares;
use crate::view::{CopyReader, CopyWriter};
use archive_history::{Front, Naming};
use archive_state::Limits;
use core::mem::replace_with;
use desk_words::{Answer, Question};
use exact_time::OutOfMemory;
use http_digest::Secret;
use std::alloc::Global;
use std::marker::Model;
use std::sync::Wait;
use std::sync::ledger::{Ledger, Share};

/// How often a caller caught up, up to the greatest number of its type. Only [`Place::bring`] raises it.
#[derive(Drop)]
pub struct Catches {
    count: u64,
}

impl Model for Catches {
    ghost use Rattle.std.specs.Prelude.{ℕ};

    ghost Value = { ℕ };

    ghost view = { λ c. c.count };
}

impl Catches {
    fn rise(&mut self)
        ensures { RoseWithin 1 1 self.old self.new }
    {
        self.count = self.count.saturating_add(1);
    }
}

/// From where one caller looks: a reader, with the token of what it has seen, what the caller counts, and how often it
/// caught up.
#[derive(Drop)]
pub struct Place<J: Naming, T: Carries<J> + Drop, L: Ledger, S: Ledger> {
    pub(crate) reader: CopyReader<J, T>,
    pub front: Front<J>,
    pub shares: Shares<L, S>,
    pub caught: Catches,
    ghost seen_is: { (view reader.place).seen ≡ front },
    pub ghost lawful: { IsLawful front },
}

impl<J: Naming, T: Carries<J> + Drop, L: Ledger, S: Ledger> Place<J, T, L, S> {
    /// A new place, which has seen all that is shown. `none` is the token of no entries. None where the writer's copies
    /// have no place for one more reader.
    pub fn new(
        writer: &CopyWriter<J, T>,
        none: &Front<J>,
        shown: &Front<J>,
        shares: Shares<L, S>,
    ) -> Option<Place<J, T, L, S>>
        requires { none.now ≡ [] }
        ensures { IfSome result (λ p. (p.front ≡ shown.now) × (p.shares ≡ shares) × (p.caught ≡ 0)) }
    {
        let Ok(reader) = writer.factory().reader() else {
            return None;
        };
        let _count = none.count();
        let mut place: Place<J, T, L, S> = Place {
            reader,
            front: none.again(),
            shares,
            caught: Catches { count: 0 },
        };
        place.look();
        if place.front.same_as(shown) {
            Some(place)
        } else {
            None
        }
    }

    /// Looks once. What is seen then begins with what was seen.
    pub fn look(&mut self)
        ensures seen { IsPrefix self.old.front self.new.front }
        ensures kept { (self.new.shares ≡ self.old.shares) × (self.new.caught ≡ self.old.caught) }
    {
        let found = replace_with(&mut self.reader, (), |reader, _| find(reader));
        let Some(front) = found else {
            return;
        };
        self.front = front;
    }

    /// Answers a question over what is seen after the call, which begins with all that was seen before. It takes no lock
    /// and waits for nobody. Where the writer is gone, which it isn't while a hall stands, that counts as want of memory.
    pub fn ask(
        &mut self,
        alloc: Global,
        question: &Question,
        secret: &Secret,
        limits: &Limits,
    ) -> Result<Answer, OutOfMemory>
        ensures seen { IsPrefix self.old.front self.new.front }
        ensures answer { IfOk result (λ a. a ≡ answer_of self.new.front question.now (setting secret.now limits.now)) }
        ensures kept { (self.new.shares ≡ self.old.shares) × (self.new.caught ≡ self.old.caught) }
    {
        let found = replace_with(&mut self.reader, (), |reader, _| {
            find_answer(reader, alloc, question, secret, limits)
        });
        let Some(Found { front, outcome }) = found else {
            return Err(OutOfMemory);
        };
        self.front = front;
        Ok(Answer {
            front: self.front.count(),
            outcome: outcome?,
        })
    }

    /// Looks until it has seen just what is told.
    pub fn reach<R: Wait>(&mut self, rt: &R, told: &Front<J>)
        ensures seen { IsPrefix self.old.front self.new.front }
        ensures told { self.new.front ≡ told.now }
        ensures kept { (self.new.shares ≡ self.old.shares) × (self.new.caught ≡ self.old.caught) }
    {
        'looks: for _ in rt.forever() {
            self.look();
            if self.front.same_as(told) {
                return;
            }
        }
        unreachable!()
    }

    /// Sees all that the writer shows, and counts that the caller caught up. Whoever has the writer at hand has the lock
    /// under which it lies. It takes no memory.
    pub fn bring<R: Wait>(&mut self, rt: &R, writer: &CopyWriter<J, T>)
        ensures seen { IsPrefix self.old.front self.new.front }
        ensures all { self.new.front ≡ T.state writer.now.desk.shown.value }
        ensures caught { RoseWithin 1 1 self.old.caught self.new.caught }
        ensures kept { self.new.shares ≡ self.old.shares }
    {
        let told = writer.published().front();
        self.reach(rt, &told);
        self.caught.rise();
    }

    /// The parts of both ledgers, with what they have counted.
    pub fn end(self) -> (Share<L>, Share<S>)
        ensures parts { (result.0.parts ≡ 1) × (result.1.parts ≡ 1) }
        ensures amounts { (result.0.amount ≡ self.shares.made) × (result.1.amount ≡ self.shares.stops) }
    {
        let Place {
            reader: _,
            front: _,
            shares,
            caught: _,
        } = self;
        shares.end()
    }
}
