//! A service over the archive of a disk.
ghost use Rattle.std.specs.Prelude.{◌≡◌, ◌≤◌, [], length, map, vec_capacity, Err, IfOk};
ghost use Rattle.disk_model.specs.View.{is_told};
ghost use Rattle.desk_words.specs.Setting.{setting};
ghost use Rattle.archive_log.specs.Opening.{IsStarted};
ghost use Rattle.centre_serve.specs.Service.{site, ServeRow, StartedRow};

use crate::ending::{ServeStop, ending_of, stop_for_start};
use crate::seats::{ports_of, rise_all, seat_all};
use crate::worker::{Job, Worker, serve_all};
use archive_entry::Entry;
use archive_history::{Naming, Opened};
use archive_log::Archive;
use archive_state::{Admit, Limits};
use centre_session::{Clock, Trail};
use disk_model::Disk;
use exact_time::{Many, OutOfMemory};
use http_digest::Secret;
use link_ports::Port;
use snapshot_hall::{Gate, Hall};
use std::alloc::Global;
use std::marker::Brand;
use std::sync::Wait;
use std::sync::ledger::{Blank, Ledger};
use std::thread::Threads;
use two_copies::HeldState;

/// How a service ended, the disk that was handed in, and the ports of the workers, in their order.
#[derive(Drop)]
pub struct Served<D: Disk, P> {
    pub ending: Result<(), ServeStop>,
    pub disk: D,
    pub ports: Vec<P>,
}

// So many trails.
fn trails_for(alloc: Global, count: usize) -> Result<Vec<Trail>, OutOfMemory>
    ensures { IfOk result (λ trails. length trails.items ≡ count) }
{
    let mut trails = Vec::new(alloc);
    'trails: for _ in 0..count {
        trails.push(Trail::new(alloc)?)?;
    }
    Ok(trails)
}

// Serves over an archive that was opened. All types agree on its names, and on two ledgers with a part for each worker.
fn serve_named<
    J: Naming + Send + Sync,
    L: Ledger + Send + Sync,
    S: Ledger + Send + Sync,
    R: Threads + Wait + Sync,
    D: Disk + Send,
    P: Port<Given: Send> + Drop + Send,
    C: Clock + Drop + Send,
    G: Gate + Drop + Send,
>(
    rt: &R,
    alloc: Global,
    archive: Archive<D>,
    entries: Many<Entry>,
    admit: Admit,
    opened: Opened,
    made: Blank,
    halts: Blank,
    workers: Vec<Worker<P, C, G>>,
    trails: Vec<Trail>,
    room: Vec<P>,
    secret: &Secret,
    limits: &Limits,
) -> Served<D, P>
    requires started { IsStarted D.view archive entries admit }
    requires book { opened ≡ J.book }
    requires opening { J.opening ≡ entries }
    requires told { (J.told ≡ is_told (D.view archive.disk)) × (J.faults ≡ archive.faults) }
    requires made { (made.name ≡ L.name) × (made.parts ≡ L.parts) × (L.parts ≡ length workers.items) }
    requires halts { (halts.name ≡ S.name) × (halts.parts ≡ S.parts) × (S.parts ≡ length workers.items) }
    requires workers { (1 ≤ length workers.items) × (length workers.items ≤ 16) }
    requires trails { length trails.items ≡ length workers.items }
    requires room { (room.items ≡ []) × (length workers.items ≤ vec_capacity room) }
    ensures row { StartedRow (setting secret.now limits.now)
        (site (D.view archive.disk) (map (λ worker. P.view worker.port) workers.items))
        (site (D.view result.disk) (map P.view result.ports.items))
        entries archive.faults result.ending }
    ensures starved { result.ending ≡ Err ServeStop.OutOfMemory → result.disk ≡ archive.disk }
{
    let count = workers.len();
    let Ok(seats) = Vec::with_capacity(alloc, count) else {
        // A book that is opened has to be named.
        let (_book, _none) = opened.named::<J>();
        return without_memory(archive.close(), workers, room);
    };
    let started = Hall::<D, J, HeldState<J>, L, S>::start(
        rt,
        alloc,
        archive,
        entries.as_slice(),
        admit,
        opened,
        count as u64,
        made,
        halts,
    );
    let (hall, mut places) = match started {
        Ok(started) => started,
        Err((disk, OutOfMemory)) => return without_memory(disk, workers, room),
    };
    // Both copies have the entries now.
    drop(entries);
    let mut ports = room;
    let jobs = seat_all(&hall, &mut places, workers, trails, seats);
    let jobs = serve_all(rt, alloc, jobs, secret, limits);
    let course = rise_all(jobs, &mut ports, &mut places);
    Served {
        ending: ending_of(course.stopped, course.failed),
        disk: hall.close(rt, places),
        ports,
    }
}

// Memory ran out before the first link was taken.
fn without_memory<D: Disk, P: Drop, C: Drop, G: Drop>(
    disk: D,
    workers: Vec<Worker<P, C, G>>,
    room: Vec<P>,
) -> Served<D, P>
    requires room { (room.items ≡ []) × (length workers.items ≤ vec_capacity room) }
    ensures ending { result.ending ≡ Err ServeStop.OutOfMemory }
    ensures disk { result.disk ≡ disk }
    ensures ports { result.ports.items ≡ map (λ worker. worker.port) workers.items }
{
    Served {
        ending: Err(ServeStop::OutOfMemory),
        disk,
        ports: ports_of(workers, room),
    }
}

/// Opens the archive that a disk holds, serves the port of each worker, from 1 to 16 of them, side by side, and closes the
/// archive when the last port is closed or has failed. Each worker has a thread of its own where one can be made. It gives
/// back the disk, and the ports in their order, for which there is room in `room`.
///
/// A command is answered once it is on the disk, and a question over a history no shorter than any that its connection had
/// seen. A port that fails ends its worker alone. A stop by the disk counts before a port that failed.
pub fn serve<
    R: Threads + Wait + Sync,
    D: Disk + Send,
    P: Port<Given: Send> + Drop + Send,
    C: Clock + Drop + Send,
    G: Gate + Drop + Send,
>(
    rt: &R,
    alloc: Global,
    disk: D,
    workers: Vec<Worker<P, C, G>>,
    room: Vec<P>,
    secret: &Secret,
    limits: &Limits,
) -> Served<D, P>
    requires workers { (1 ≤ length workers.items) × (length workers.items ≤ 16) }
    requires room { (room.items ≡ []) × (length workers.items ≤ vec_capacity room) }
    ensures row { ServeRow (setting secret.now limits.now)
        (site (D.view disk) (map (λ worker. P.view worker.port) workers.items))
        (site (D.view result.disk) (map P.view result.ports.items))
        result.ending }
{
    let count = workers.len();
    let (archive, entries, admit) = match Archive::start(alloc, disk) {
        Ok(started) => started,
        Err((disk, fault)) => {
            return Served {
                ending: Err(stop_for_start(fault)),
                disk,
                ports: ports_of(workers, room),
            };
        }
    };
    let Ok(trails) = trails_for(alloc, count) else {
        return without_memory(archive.close(), workers, room);
    };
    serve_named::<Brand, Brand, Brand, R, D, P, C, G>(
        rt,
        alloc,
        archive,
        entries,
        admit,
        Opened::new(),
        Blank::new(count as u64),
        Blank::new(count as u64),
        workers,
        trails,
        room,
        secret,
        limits,
    )
}
