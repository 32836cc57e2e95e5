//! The top call: all that the program does.
ghost use Rattle.std.specs.Prelude.{◌≡◌, ◌⊎◌, ◌≤◌, [], length, map, option_map, string_bytes, vec_capacity, None};
ghost use Rattle.command_words.specs.Arguments.{limits_at as limit_words_at, init_words_at, talk_words_at, serve_words_at, drill_words_at, fetch_words_at, coverage_words_at, command_at};
ghost use Rattle.command_words.specs.Commands.{command_of};
ghost use Rattle.centre_select.specs.Table.{streams};
ghost use Rattle.centre.specs.Coverages.{CoverageEnding};
ghost use Rattle.centre.specs.Drills.{DrillEnding};
ghost use Rattle.centre.specs.Fetches.{FetchEnding};
ghost use Rattle.centre.specs.Given.{world};
ghost use Rattle.centre.specs.Limits.{limits_at};
ghost use Rattle.centre.specs.Serves.{ServeEnding};
ghost use Rattle.centre.specs.Settled.{RunRows};
ghost use Rattle.centre.specs.Table.{IsRun, IsStarved, IsEnding, InitEnding, ShowRow};
ghost use Rattle.centre.specs.Talks.{TalkEnding};

use crate::covering::ending_of_coverage;
use crate::ending::{Refusal, Stop};
use crate::fetching::ending_of_fetch;
use crate::help::text_shown;
use crate::selecting::choose;
use crate::stops::{ending_of_drill, ending_of_serve, ending_of_talk, stop_for_founding};
use crate::telling::{out_of_memory, tell_stop};
use archive_log::Archive;
use archive_state::Limits;
use centre_coverage::{Covered, coverage};
use centre_drill::{Drilled, drill};
use centre_fetch::fetch;
use centre_serve::{Served, Worker, ports_of, serve};
use centre_session::{Clock, Trail};
use centre_talk::{Talked, talk};
use command_words::{
    CommandWords, CoverageArguments, DrillArguments, FetchArguments, InitArguments, LimitArguments,
    ServeArguments, TalkArguments, command_in,
};
use disk_model::Disk;
use exact_time::OutOfMemory;
use http_digest::Secret;
use link_ports::Port;
use snapshot_hall::Gate;
use std::alloc::Global;
use std::sync::Wait;
use std::thread::Threads;
use streams::{Sink, Source, put_all};

// A command that shows a text, by the same path as data.
fn show<S: Source, K: Sink>(text: &str, source: &S, sink: &mut K) -> Result<(), Stop>
    ensures row { ShowRow text.now
        (streams (S.view source.now) (K.view sink.old)) (streams (S.view source.now) (K.view sink.new))
        result }
{
    match put_all(sink, text.as_bytes()) {
        Ok(()) => Ok(()),
        Err(_) => Err(Stop::WriteFault),
    }
}

// The limits that the words give.
fn limits_for(arguments: &LimitArguments) -> Limits
    ensures { limits_at result ≡ limit_words_at arguments.now }
{
    Limits {
        max_bytes: arguments.max_bytes,
        max_lines: arguments.max_lines,
        max_records: arguments.max_records,
        max_archive: arguments.max_archive,
    }
}

// How a command ended, the disk, the turns of a session, and the ports.
#[derive(Drop)]
struct Done<D: Disk, P> {
    ending: Result<(), Stop>,
    disk: D,
    trail: Option<Trail>,
    ports: Vec<P>,
}

// The command `init`: the journal, and the founding entry by one commit.
fn init<S: Source, K: Sink, D: Disk, C: Clock, P: Port + Drop>(
    alloc: Global,
    arguments: &InitArguments,
    source: &S,
    sink: &K,
    disk: D,
    clock: &C,
    ports: Vec<P>,
) -> Done<D, P>
    ensures row { InitEnding D.view (init_words_at arguments.now)
        (world (S.view source.now) (K.view sink.now) disk (C.given clock.now) None (map P.view ports.items))
        (world (S.view source.now) (K.view sink.now) result.disk (C.given clock.now) result.trail (map P.view result.ports.items))
        result.ending }
{
    match Archive::found(alloc, disk, arguments.operator, arguments.ha1) {
        Ok(archive) => Done {
            ending: Ok(()),
            disk: archive.close(),
            trail: None,
            ports,
        },
        Err((disk, fault)) => Done {
            ending: Err(stop_for_founding(fault)),
            disk,
            trail: None,
            ports,
        },
    }
}

// The command `talk`: one session over the source and the sink.
fn converse<R: Wait, S: Source, K: Sink, D: Disk, C: Clock, P: Port + Drop>(
    rt: &R,
    alloc: Global,
    arguments: &TalkArguments,
    secret: &Secret,
    source: &mut S,
    sink: &mut K,
    disk: D,
    clock: &mut C,
    ports: Vec<P>,
) -> Done<D, P>
    ensures row { TalkEnding D.view secret.now (talk_words_at arguments.now)
        (world (S.view source.old) (K.view sink.old) disk (C.given clock.old) None (map P.view ports.items))
        (world (S.view source.new) (K.view sink.new) result.disk (C.given clock.new) result.trail (map P.view result.ports.items))
        result.ending }
{
    let limits = limits_for(&arguments.limits);
    let Talked {
        ending,
        disk,
        trail,
    } = talk(rt, alloc, source, sink, disk, clock, secret, &limits);
    Done {
        ending: ending_of_talk(ending),
        disk,
        trail,
        ports,
    }
}

// The command `serve`: a service over the ports of the workers.
fn host<
    R: Threads + Wait + Sync,
    S: Source,
    K: Sink,
    D: Disk + Send,
    C: Clock + Drop + Send,
    P: Port<Given: Send> + Drop + Send,
    G: Gate + Drop + Send,
>(
    rt: &R,
    alloc: Global,
    arguments: &ServeArguments,
    secret: &Secret,
    source: &S,
    sink: &K,
    disk: D,
    clock: &C,
    workers: Vec<Worker<P, C, G>>,
    room: Vec<P>,
) -> Done<D, P>
    requires workers { (1 ≤ length workers.items) × (length workers.items ≤ 16) }
    requires room { (room.items ≡ []) × (length workers.items ≤ vec_capacity room) }
    ensures row { ServeEnding D.view secret.now (serve_words_at arguments.now)
        (world (S.view source.now) (K.view sink.now) disk (C.given clock.now) None (map (λ worker. P.view worker.port) workers.items))
        (world (S.view source.now) (K.view sink.now) result.disk (C.given clock.now) result.trail (map P.view result.ports.items))
        result.ending }
{
    let limits = limits_for(&arguments.limits);
    let Served {
        ending,
        disk,
        ports,
    } = serve(rt, alloc, disk, workers, room, secret, &limits);
    Done {
        ending: ending_of_serve(ending),
        disk,
        trail: None,
        ports,
    }
}

// The command `drill`: the archive, and then its figures.
fn make_records<S: Source, K: Sink, D: Disk, C: Clock, P: Port + Drop>(
    alloc: Global,
    arguments: &DrillArguments,
    source: &S,
    sink: &mut K,
    disk: D,
    clock: &C,
    ports: Vec<P>,
) -> Done<D, P>
    ensures row { DrillEnding D.view (drill_words_at arguments.now)
        (world (S.view source.now) (K.view sink.old) disk (C.given clock.now) None (map P.view ports.items))
        (world (S.view source.now) (K.view sink.new) result.disk (C.given clock.now) result.trail (map P.view result.ports.items))
        result.ending }
{
    let records = arguments.records as u32;
    let Drilled { ending, disk } = drill(alloc, records, sink, disk);
    Done {
        ending: ending_of_drill(ending),
        disk,
        trail: None,
        ports,
    }
}

// The command `fetch`: a window of another data centre, over the first port.
fn obtain<S: Source, K: Sink, D: Disk, C: Clock, P: Port + Drop>(
    alloc: Global,
    arguments: &FetchArguments,
    source: &S,
    sink: &mut K,
    disk: D,
    clock: &C,
    mut ports: Vec<P>,
) -> Done<D, P>
    requires some { 1 ≤ length ports.items }
    ensures row { FetchEnding (fetch_words_at arguments.now)
        (world (S.view source.now) (K.view sink.old) disk (C.given clock.now) None (map P.view ports.items))
        (world (S.view source.now) (K.view sink.new) result.disk (C.given clock.now) result.trail (map P.view result.ports.items))
        result.ending }
{
    let ending = fetch(alloc, arguments, sink, &mut ports[0]);
    Done {
        ending: ending_of_fetch(ending),
        disk,
        trail: None,
        ports,
    }
}

// The command `coverage`: the report of what the archive of the disk holds.
fn cover<S: Source, K: Sink, D: Disk, C: Clock, P: Port + Drop>(
    alloc: Global,
    arguments: &CoverageArguments,
    source: &S,
    sink: &mut K,
    disk: D,
    clock: &C,
    ports: Vec<P>,
) -> Done<D, P>
    ensures row { CoverageEnding D.view (coverage_words_at arguments.now)
        (world (S.view source.now) (K.view sink.old) disk (C.given clock.now) None (map P.view ports.items))
        (world (S.view source.now) (K.view sink.new) result.disk (C.given clock.now) result.trail (map P.view result.ports.items))
        result.ending }
{
    let Covered { ending, disk } = coverage(alloc, arguments, sink, disk);
    Done {
        ending: ending_of_coverage(ending),
        disk,
        trail: None,
        ports,
    }
}

// Does what a command says.
fn obey_command<
    R: Threads + Wait + Sync,
    S: Source,
    K: Sink,
    D: Disk + Send,
    C: Clock + Drop + Send,
    P: Port<Given: Send> + Drop + Send,
    G: Gate + Drop + Send,
>(
    rt: &R,
    alloc: Global,
    command: Option<CommandWords>,
    secret: &Secret,
    source: &mut S,
    sink: &mut K,
    disk: D,
    clock: &mut C,
    workers: Vec<Worker<P, C, G>>,
    room: Vec<P>,
) -> Done<D, P>
    requires workers { (1 ≤ length workers.items) × (length workers.items ≤ 16) }
    requires room { (room.items ≡ []) × (length workers.items ≤ vec_capacity room) }
    ensures row { IsEnding D.view secret.now (option_map command_at command.entry)
        (world (S.view source.old) (K.view sink.old) disk (C.given clock.old) None (map (λ worker. P.view worker.port) workers.items))
        (world (S.view source.new) (K.view sink.new) result.disk (C.given clock.new) result.trail (map P.view result.ports.items))
        result.ending }
{
    match command {
        None => Done {
            ending: Err(Stop::Refused(Refusal::UnknownCommand)),
            disk,
            trail: None,
            ports: ports_of(workers, room),
        },
        Some(CommandWords::Show(shown)) => Done {
            ending: show(text_shown(shown), source, sink),
            disk,
            trail: None,
            ports: ports_of(workers, room),
        },
        Some(CommandWords::Select(arguments)) => Done {
            ending: choose(alloc, &arguments, source, sink),
            disk,
            trail: None,
            ports: ports_of(workers, room),
        },
        Some(CommandWords::Init(arguments)) => {
            let ports = ports_of(workers, room);
            init(alloc, &arguments, source, sink, disk, clock, ports)
        }
        Some(CommandWords::Talk(arguments)) => {
            let ports = ports_of(workers, room);
            converse(
                rt, alloc, &arguments, secret, source, sink, disk, clock, ports,
            )
        }
        Some(CommandWords::Drill(arguments)) => {
            let ports = ports_of(workers, room);
            make_records(alloc, &arguments, source, sink, disk, clock, ports)
        }
        Some(CommandWords::Fetch(arguments)) => {
            let ports = ports_of(workers, room);
            obtain(alloc, &arguments, source, sink, disk, clock, ports)
        }
        Some(CommandWords::Coverage(arguments)) => {
            let ports = ports_of(workers, room);
            cover(alloc, &arguments, source, sink, disk, clock, ports)
        }
        Some(CommandWords::Serve(arguments)) => host(
            rt, alloc, &arguments, secret, source, sink, disk, clock, workers, room,
        ),
    }
}

// Does what the words ask for.
fn obey<
    R: Threads + Wait + Sync,
    S: Source,
    K: Sink,
    D: Disk + Send,
    C: Clock + Drop + Send,
    P: Port<Given: Send> + Drop + Send,
    G: Gate + Drop + Send,
>(
    rt: &R,
    alloc: Global,
    words: &[String],
    secret: &Secret,
    source: &mut S,
    sink: &mut K,
    disk: D,
    clock: &mut C,
    workers: Vec<Worker<P, C, G>>,
    room: Vec<P>,
) -> Done<D, P>
    requires workers { (1 ≤ length workers.items) × (length workers.items ≤ 16) }
    requires room { (room.items ≡ []) × (length workers.items ≤ vec_capacity room) }
    ensures row { IsStarved
        (world (S.view source.old) (K.view sink.old) disk (C.given clock.old) None (map (λ worker. P.view worker.port) workers.items))
        (world (S.view source.new) (K.view sink.new) result.disk (C.given clock.new) result.trail (map P.view result.ports.items))
        result.ending
        ⊎ IsEnding D.view secret.now (command_of (map string_bytes words.now))
        (world (S.view source.old) (K.view sink.old) disk (C.given clock.old) None (map (λ worker. P.view worker.port) workers.items))
        (world (S.view source.new) (K.view sink.new) result.disk (C.given clock.new) result.trail (map P.view result.ports.items))
        result.ending }
{
    match command_in(alloc, words) {
        Ok(command) => obey_command(
            rt, alloc, command, secret, source, sink, disk, clock, workers, room,
        ),
        Err(OutOfMemory) => Done {
            ending: Err(Stop::OutOfMemory),
            disk,
            trail: None,
            ports: ports_of(workers, room),
        },
    }
}

/// How a run ended: its exit status, the disk that was handed in, the turns of the session of `talk`, if it came to one,
/// and the ports of the workers, in their order. With status 70 the ports may be missing.
#[derive(Drop)]
pub struct Ended<D: Disk, P> {
    pub status: u8,
    pub disk: D,
    pub trail: Option<Trail>,
    pub ports: Vec<P>,
}

/// Does what the words ask for, and answers the exit status. `words` are those after the program's name, and `secret`
/// is what the nonces of HTTP Digest are made of. On `errors` it tells why it stopped; a fault there leaves the status.
/// `disk` is the archive's file: a command that uses none gives it back as it was. `talk` alone asks the clock.
/// `serve` asks the ports of the workers, of which there are from 1 to 16, and `fetch` the first one; the other commands give
/// them back as they were.
///
/// | status | comes where |
/// |---|---|
/// | 0 | the sink got the whole answer; `init` and `drill` left the new archive on the disk; the session of `talk` was served to its end; every port of `serve` was closed |
/// | 1 | the words are no command |
/// | 2 | a word of the query or of the days, or a record of the input, is refused |
/// | 3 | no record is picked, no bytes were fetched, or nothing of the days of `coverage` is covered |
/// | 4 | the answer is longer than the limit |
/// | 5, 6, 7 | the source, the sink, the disk failed; in `talk` and `serve` the disk stopped a command |
/// | 8 | the port of a worker of `serve`, or that of `fetch`, failed |
/// | 9 | the file that `init` or `drill` is to make the archive in has bytes, or that which `talk`, `serve` or `coverage` is to open is no archive |
/// | 10 | the input is longer than 67,108,864 bytes |
/// | 11 | the input of `talk` ended inside a request |
/// | 13 | the data centre that `fetch` asks answered a status that is no answer |
/// | 14 | it gave no reply, or one that can't be used |
/// | 15 | the last of eight rounds of `fetch` ended at a lost connection, or its answers were over archives of different lengths |
/// | 17 | the port of `fetch` gave no further link |
/// | 18 | a round of `fetch` had 10,000 requests |
/// | 70 | memory ran out |
pub fn run<
    R: Threads + Wait + Sync,
    S: Source,
    K: Sink,
    E: Sink,
    D: Disk + Send,
    C: Clock + Drop + Send,
    P: Port<Given: Send> + Drop + Send,
    G: Gate + Drop + Send,
>(
    rt: &R,
    alloc: Global,
    words: &[String],
    secret: Secret,
    source: &mut S,
    sink: &mut K,
    errors: &mut E,
    disk: D,
    clock: &mut C,
    workers: Vec<Worker<P, C, G>>,
) -> Ended<D, P>
    requires { (1 ≤ length workers.items) × (length workers.items ≤ 16) }

    // One row of the table holds, and the errors got its text.
    ensures table { IsRun D.view secret (command_of (map string_bytes words.now))
        (world (S.view source.old) (K.view sink.old) disk (C.given clock.old) None (map (λ worker. P.view worker.port) workers.items))
        (world (S.view source.new) (K.view sink.new) result.disk (C.given clock.new) result.trail (map P.view result.ports.items))
        (E.view errors.old) (E.view errors.new) result.status }

    // The rows that a reader looks for: which status comes where, and what it leaves.
    ensures rows { RunRows D.view secret (command_of (map string_bytes words.now))
        (world (S.view source.old) (K.view sink.old) disk (C.given clock.old) None (map (λ worker. P.view worker.port) workers.items))
        (world (S.view source.new) (K.view sink.new) result.disk (C.given clock.new) result.trail (map P.view result.ports.items))
        (E.view errors.old) (E.view errors.new) result.status }
{
    let Ok(room) = Vec::with_capacity(alloc, workers.len()) else {
        return Ended {
            status: out_of_memory(errors),
            disk,
            trail: None,
            ports: Vec::new(alloc),
        };
    };
    let Done {
        ending,
        disk,
        trail,
        ports,
    } = obey(
        rt, alloc, words, &secret, source, sink, disk, clock, workers, room,
    );
    match ending {
        Ok(()) => Ended {
            status: 0,
            disk,
            trail,
            ports,
        },
        Err(stop) => Ended {
            status: tell_stop(alloc, errors, stop).status(),
            disk,
            trail,
            ports,
        },
    }
}
