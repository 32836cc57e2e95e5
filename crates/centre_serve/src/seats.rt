//! Workers take their desks, and leave them.
ghost use Rattle.std.specs.Prelude.{◌≡◌, ◌≤◌, [], length, map, vec_capacity};
ghost use Rattle.std.specs.List.{AllByRecursion, list_any};
ghost use Rattle.snapshot_hall.specs.Starts.{IsNew};
ghost use Rattle.centre_serve.specs.Rows.{was_stopped};

use crate::worker::{Job, Worker};
use archive_history::Naming;
use centre_session::Trail;
use desk_words::Desk;
use disk_model::Disk;
use snapshot_hall::{Gate, Hall, SharedDesk};
use std::sync::ledger::Ledger;
use two_copies::{Carries, Place};

/// Each worker gets a desk at one of the places, and a trail. There are as many of these as workers.
pub(crate) fn seat_all<
    'a,
    D: Disk,
    J: Naming,
    T: Carries<J> + Drop,
    L: Ledger,
    S: Ledger,
    P: Drop,
    C: Drop,
    G: Gate + Drop,
>(
    hall: &'a Hall<D, J, T, L, S>,
    places: &mut Vec<Place<J, T, L, S>>,
    workers: Vec<Worker<P, C, G>>,
    trails: Vec<Trail>,
    room: Vec<Job<SharedDesk<'a, D, G, J, T, L, S>, P, C>>,
) -> Vec<Job<SharedDesk<'a, D, G, J, T, L, S>, P, C>>
    requires places { length places.old.items ≡ length workers.items }
    requires new { AllByRecursion (λ p. IsNew J.opening p.front p.shares p.caught) places.old.items }
    requires trails { length trails.items ≡ length workers.items }
    requires room { (room.items ≡ []) × (length workers.items ≤ vec_capacity room) }
    ensures ports { map (λ job. job.port) result.items ≡ map (λ worker. worker.port) workers.items }
    ensures new { AllByRecursion (λ job. IsNew J.opening job.desk.place.front job.desk.place.shares job.desk.place.caught) result.items }
    ensures places { (places.new.items ≡ []) × (length workers.items ≤ vec_capacity places.new) }
{
    let mut jobs = room;
    let mut trails = trails;
    let mut rest = workers.into_iter();
    'seats: while let Some(worker) = rest.next() {
        let Some(trail) = trails.pop() else {
            unreachable!()
        };
        let Some(place) = places.pop() else {
            unreachable!()
        };
        let Worker { port, clock, gate } = worker;
        jobs.push_reserved(Job {
            desk: SharedDesk::new(hall, place, gate),
            port,
            clock,
            trail,
            failed: false,
        });
    }
    jobs
}

/// What became of all workers: whether the port of one failed, and whether a command of one was stopped.
#[derive(Clone, Copy)]
pub(crate) struct Course {
    pub(crate) failed: bool,
    pub(crate) stopped: bool,
}

/// The workers leave: their ports, in order, their places, and what became of them.
pub(crate) fn rise_all<
    'a,
    D: Disk,
    J: Naming,
    T: Carries<J> + Drop,
    L: Ledger,
    S: Ledger,
    P: Drop,
    C: Drop,
    G: Gate + Drop,
>(
    jobs: Vec<Job<SharedDesk<'a, D, G, J, T, L, S>, P, C>>,
    ports: &mut Vec<P>,
    places: &mut Vec<Place<J, T, L, S>>,
) -> Course
    requires ports { (ports.old.items ≡ []) × (length jobs.items ≤ vec_capacity ports.old) }
    requires places { (places.old.items ≡ []) × (length jobs.items ≤ vec_capacity places.old) }
    ensures ports { ports.new.items ≡ map (λ job. job.port) jobs.entry.items }
    ensures places { places.new.items ≡ map (λ job. job.desk.place) jobs.entry.items }
    ensures failed { result.failed ≡ list_any (λ job. job.failed) jobs.entry.items }
    ensures stopped { result.stopped ≡ list_any (λ job. was_stopped job.desk.place.shares) jobs.entry.items }
{
    let mut course = Course {
        failed: false,
        stopped: false,
    };
    let mut rest = jobs.into_iter();
    'ends: while let Some(job) = rest.next() {
        let Job {
            desk,
            port,
            clock: _,
            trail: _,
            failed,
        } = job;
        course = Course {
            failed: course.failed || failed,
            stopped: course.stopped || 0 < desk.stops(),
        };
        let SharedDesk { place, .. } = desk;
        ports.push_reserved(port);
        places.push_reserved(place);
    }
    course
}

/// The ports of workers that don't serve, in order.
pub fn ports_of<P: Drop, C: Drop, G: Drop>(workers: Vec<Worker<P, C, G>>, room: Vec<P>) -> Vec<P>
    requires room { (room.items ≡ []) × (length workers.items ≤ vec_capacity room) }
    ensures { result.items ≡ map (λ worker. worker.port) workers.items }
{
    let mut ports = room;
    let mut rest = workers.into_iter();
    'ports: while let Some(worker) = rest.next() {
        let Worker {
            port,
            clock: _,
            gate: _,
        } = worker;
        ports.push_reserved(port);
    }
    ports
}
