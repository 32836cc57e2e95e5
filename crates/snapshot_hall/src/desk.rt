//! A desk over a hall.
ghost use Rattle.std.specs.Prelude.{◌≡◌, true};
ghost use mathlib.Core.List.{IsPrefix};
ghost use Rattle.archive_world.specs.Submitting.{Learns, NoEvents, Reads, SubmitMakes, ask_told, submit_told};
ghost use Rattle.archive_world.specs.Submitting.Answered.{without};
ghost use Rattle.desk_words.specs.Posting.{can_be_posted};
ghost use Rattle.desk_words.specs.Setting.{setting};
ghost use Rattle.desk_words.specs.Stand.{Asks, Submits, CatchesUp};
ghost use Rattle.snapshot_hall.specs.Shared.{shared_stand};

use crate::gate::Gate;
use crate::hall::Hall;
use archive_history::Naming;
use archive_state::{Limits, Posted};
use committer::Committer;
use desk_words::{Answer, Desk, Question, SubmitFault, Submitted};
use disk_model::Disk;
use exact_time::{Moment, OutOfMemory};
use http_digest::Secret;
use std::alloc::Global;
use std::sync::ledger::Ledger;
use std::sync::{Mutex, Wait};
use two_copies::{Carries, Place};

/// The desk of one place of a hall.
#[derive(Drop)]
pub struct SharedDesk<'a, D: Disk, G: Gate, J: Naming, T: Carries<J> + Drop, L: Ledger, S: Ledger> {
    lock: &'a Mutex<Box<Committer<D, J, T, L, S>>>,
    /// From where it looks.
    pub place: Place<J, T, L, S>,
    gate: G,
}

impl<'a, D: Disk, G: Gate, J: Naming, T: Carries<J> + Drop, L: Ledger, S: Ledger> SharedDesk<
    'a,
    D,
    G,
    J,
    T,
    L,
    S,
> {
    /// A desk at a place of the hall.
    pub fn new(
        hall: &'a Hall<D, J, T, L, S>,
        place: Place<J, T, L, S>,
        gate: G,
    ) -> SharedDesk<'a, D, G, J, T, L, S>
        ensures { result.place ≡ place }
    {
        SharedDesk {
            lock: &hall.lock,
            place,
            gate,
        }
    }
}

impl<'a, D: Disk, G: Gate + Drop, J: Naming, T: Carries<J> + Drop, L: Ledger, S: Ledger> SharedDesk<
    'a,
    D,
    G,
    J,
    T,
    L,
    S,
> {
    /// Its place.
    pub fn end(self) -> Place<J, T, L, S>
        ensures { result ≡ self.entry.place }
    {
        let SharedDesk {
            lock: _,
            place,
            gate: _,
        } = self;
        place
    }
}

// Submits under the lock, and shows the place all that is committed.
fn submit_under<D: Disk, J: Naming, T: Carries<J> + Drop, L: Ledger, S: Ledger, R: Wait>(
    rt: &R,
    alloc: Global,
    committer: &mut Committer<D, J, T, L, S>,
    place: &mut Place<J, T, L, S>,
    posted: &Posted,
    moment: Moment,
    secret: &Secret,
    limits: &Limits,
) -> Result<Submitted, SubmitFault>
    requires fit { can_be_posted posted.now moment ≡ true }
    requires covers { IsPrefix place.old.front committer.old.front }
    ensures row { Submits (shared_stand J.told J.faults place.old.front place.old.shares place.old.caught)
        (shared_stand J.told J.faults place.new.front place.new.shares place.new.caught) posted.now moment (setting secret.now limits.now) result }
    ensures steps { Learns place.old.front place.new.front (SubmitMakes posted.now moment (setting secret.now limits.now) result) (submit_told result) }
{
    let _count = committer.count();
    let made = committer.submit(rt, alloc, &mut place.shares, posted, moment, secret, limits);
    let told = committer.front.again();
    place.reach(rt, &told);
    made
}

// Submits once what is published is no shorter than what the place has seen. The gate is passed exactly once.
fn submit_at<D: Disk, G: Gate, J: Naming, T: Carries<J> + Drop, L: Ledger, S: Ledger, R: Wait>(
    rt: &R,
    alloc: Global,
    lock: &Mutex<Box<Committer<D, J, T, L, S>>>,
    place: &mut Place<J, T, L, S>,
    gate: &mut G,
    posted: &Posted,
    moment: Moment,
    secret: &Secret,
    limits: &Limits,
) -> Result<Submitted, SubmitFault>
    requires { can_be_posted posted.now moment ≡ true }
    ensures row { Submits (shared_stand J.told J.faults place.old.front place.old.shares place.old.caught)
        (shared_stand J.told J.faults place.new.front place.new.shares place.new.caught) posted.now moment (setting secret.now limits.now) result }
    ensures steps { Learns place.old.front place.new.front (SubmitMakes posted.now moment (setting secret.now limits.now) result) (submit_told result) }
    ensures gate { G.passed gate.old gate.new }
{
    'tries: for _ in rt.forever() {
        let mut guard = lock.lock(rt);
        let committer = &mut **guard;
        if committer.front.covers(&place.front) {
            gate.pass(rt);
            return submit_under(rt, alloc, committer, place, posted, moment, secret, limits);
        }
    }
    unreachable!()
}

// Sees all that is shown while the lock is held.
fn catch_up_at<D: Disk, J: Naming, T: Carries<J> + Drop, L: Ledger, S: Ledger, R: Wait>(
    rt: &R,
    lock: &Mutex<Box<Committer<D, J, T, L, S>>>,
    place: &mut Place<J, T, L, S>,
)
    ensures row { CatchesUp (shared_stand J.told J.faults place.old.front place.old.shares place.old.caught)
        (shared_stand J.told J.faults place.new.front place.new.shares place.new.caught) }
    ensures steps { Learns place.old.front place.new.front NoEvents without }
{
    let mut guard = lock.lock(rt);
    let committer = &mut **guard;
    let _count = committer.count();
    committer.bring(rt, place);
}

impl<'a, D: Disk, G: Gate, J: Naming, T: Carries<J> + Drop, L: Ledger, S: Ledger> SharedDesk<
    'a,
    D,
    G,
    J,
    T,
    L,
    S,
> {
    /// `submit` of [`Desk`]: that calls this, and says by the trait's clause alone what this says by `row`.
    pub fn submit_told<R: Wait>(
        &mut self,
        rt: &R,
        alloc: Global,
        posted: &Posted,
        moment: Moment,
        secret: &Secret,
        limits: &Limits,
    ) -> Result<Submitted, SubmitFault>
        requires { can_be_posted posted.now moment ≡ true }
        ensures row { Submits (shared_stand J.told J.faults self.old.place.front self.old.place.shares self.old.place.caught)
            (shared_stand J.told J.faults self.new.place.front self.new.place.shares self.new.place.caught) posted.now moment (setting secret.now limits.now) result }
        // What happens under the lock, event by event, and what its caller learns there.
        ensures steps { Learns self.old.place.front self.new.place.front (SubmitMakes posted.now moment (setting secret.now limits.now) result) (submit_told result) }
    {
        let SharedDesk { lock, place, gate } = self;
        submit_at(rt, alloc, lock, place, gate, posted, moment, secret, limits)
    }

    /// `catch_up` of [`Desk`], in the same way.
    pub fn catch_up_told<R: Wait>(&mut self, rt: &R)
        ensures row { CatchesUp (shared_stand J.told J.faults self.old.place.front self.old.place.shares self.old.place.caught)
            (shared_stand J.told J.faults self.new.place.front self.new.place.shares self.new.place.caught) }
        ensures steps { Learns self.old.place.front self.new.place.front NoEvents without }
    {
        let SharedDesk { lock, place, .. } = self;
        catch_up_at(rt, lock, place);
    }
}

impl<'a, D: Disk, G: Gate, J: Naming, T: Carries<J> + Drop, L: Ledger, S: Ledger> Desk
    for SharedDesk<'a, D, G, J, T, L, S> {
    ghost stand = { λ d. shared_stand J.told J.faults d.place.front d.place.shares d.place.caught };

    ghost lawful = { λ d. d.place.lawful };

    fn ask(
        &mut self,
        alloc: Global,
        question: &Question,
        secret: &Secret,
        limits: &Limits,
    ) -> Result<Answer, OutOfMemory>
        ensures row { Asks (shared_stand J.told J.faults self.old.place.front self.old.place.shares self.old.place.caught)
            (shared_stand J.told J.faults self.new.place.front self.new.place.shares self.new.place.caught) question.now (setting secret.now limits.now) result }
        // What its caller sees, event by event, wherever all of it is published.
        ensures steps { Reads self.old.place.front self.new.place.front (ask_told result) }
    {
        self.place.ask(alloc, question, secret, limits)
    }

    fn submit<R: Wait>(
        &mut self,
        rt: &R,
        alloc: Global,
        posted: &Posted,
        moment: Moment,
        secret: &Secret,
        limits: &Limits,
    ) -> Result<Submitted, SubmitFault> {
        self.submit_told(rt, alloc, posted, moment, secret, limits)
    }

    fn catch_up<R: Wait>(&mut self, rt: &R) {
        self.catch_up_told(rt);
    }

    fn front(&self) -> u64 {
        self.place.front.count()
    }

    fn stops(&self) -> u64 {
        self.place.shares.stops()
    }
}
