//! One session over a source and a sink.
ghost use Rattle.std.specs.Prelude.{◌≡◌, ◌↔◌, IsTrue};
ghost use Rattle.exact_time.specs.Causes.{Rose};
ghost use Rattle.desk_words.specs.Setting.{setting};
ghost use Rattle.centre_session.specs.Session.{scene};
ghost use Rattle.centre_talk.specs.Link.{joined};
ghost use Rattle.centre_talk.specs.Served.{RowOver, ServedOver};
ghost use Rattle.centre_talk.specs.Stops.{ending_of};
ghost use Rattle.centre_talk.specs.Talk.{place, TalkRow};

use crate::ending::{TalkStop, stop_for_start};
use crate::link::{Lent, StreamLink};
use archive_state::Limits;
use centre_session::{Clock, SessionEnd, Trail, serve_session};
use desk_words::Desk;
use disk_model::Disk;
use http_digest::Secret;
use owned_desk::OwnedDesk;
use std::alloc::Global;
use std::marker::{Brand, PhantomData};
use std::sync::Wait;
use streams::{Sink, Source};

// A source and a sink, given back by the session that used them, and how that ended.
#[derive(Drop)]
struct Served<'a, 'b, S: Source, K: Sink> {
    source: &'a mut S,
    sink: &'b mut K,
    end: SessionEnd,
}

// A session over the source and the sink as one link.
fn serve_streams<'a, 'b, N: Lent, R: Wait, K: Desk, S: Source, T: Sink, C: Clock>(
    rt: &R,
    alloc: Global,
    desk: &mut K,
    source: &'a mut S,
    sink: &'b mut T,
    clock: &mut C,
    secret: &Secret,
    limits: &Limits,
    trail: &mut Trail,
) -> Served<'a, 'b, S, T>
    requires source { source.ghost_name ≡ N.source }
    requires sink { sink.ghost_name ≡ N.sink }
    ensures same_source { result.source.ghost_name ≡ source.entry.ghost_name }
    ensures same_sink { result.sink.ghost_name ≡ sink.entry.ghost_name }
    ensures row { RowOver (setting secret.now limits.now)
        (scene (K.stand desk.old) (joined (S.view source.old) (T.view sink.old)) (C.given clock.old))
        (scene (K.stand desk.new) (joined (S.view result.source.now) (T.view result.sink.now)) (C.given clock.new))
        trail.new result.end }
{
    let mut link: StreamLink<'a, 'b, S, T, N> = StreamLink {
        source,
        sink,
        of: PhantomData,
    };
    let end = serve_session(rt, alloc, desk, &mut link, clock, secret, limits, trail);
    let StreamLink {
        source,
        sink,
        of: _,
    } = link;
    Served { source, sink, end }
}

// The same, over streams that are lent for as long as it takes.
fn serve_over<R: Wait, K: Desk, S: Source, T: Sink, C: Clock>(
    rt: &R,
    alloc: Global,
    desk: &mut K,
    source: &mut S,
    sink: &mut T,
    clock: &mut C,
    secret: &Secret,
    limits: &Limits,
    trail: &mut Trail,
) -> SessionEnd
    ensures row { RowOver (setting secret.now limits.now)
        (scene (K.stand desk.old) (joined (S.view source.old) (T.view sink.old)) (C.given clock.old))
        (scene (K.stand desk.new) (joined (S.view source.new) (T.view sink.new)) (C.given clock.new))
        trail.new result }
{
    let Served {
        source: _,
        sink: _,
        end,
    } = serve_streams::<Brand, R, K, S, T, C>(
        rt, alloc, desk, source, sink, clock, secret, limits, trail,
    );
    end
}

// Whether a count rose, or stands at the greatest number of its type.
fn rose(before: u64, now: u64) -> bool
    ensures { IsTrue result ↔ Rose before now }
{
    before < now || now == u64::MAX
}

// How a session ends the command: a stopped command counts before a fault of the source, that before one of the sink,
// and these before how the session ended.
fn ending_of(stopped: bool, read: bool, write: bool, end: SessionEnd) -> Result<(), TalkStop>
    ensures { result ≡ ending_of stopped read write end }
{
    if stopped {
        return Err(TalkStop::DiskFault);
    }
    if read {
        return Err(TalkStop::ReadFault);
    }
    if write {
        return Err(TalkStop::WriteFault);
    }
    match end {
        SessionEnd::Closed => Ok(()),
        SessionEnd::Cut => Err(TalkStop::RequestCut),
        SessionEnd::Memory | SessionEnd::LinkFault => Err(TalkStop::OutOfMemory),
    }
}

// How a session ended, whether the disk stopped a command in it, and whether the streams failed.
#[derive(Drop)]
struct Outcome<D: Disk> {
    end: SessionEnd,
    stopped: bool,
    read: bool,
    write: bool,
    disk: D,
    trail: Trail,
}

// A session over a desk, which is closed then.
fn session_over<R: Wait, S: Source, T: Sink, D: Disk, C: Clock>(
    rt: &R,
    alloc: Global,
    desk: OwnedDesk<D>,
    source: &mut S,
    sink: &mut T,
    clock: &mut C,
    secret: &Secret,
    limits: &Limits,
    trail: Trail,
) -> Outcome<D>
    ensures served { ServedOver (setting secret.now limits.now)
        (scene (⟦<OwnedDesk<D> as Desk>⟧.stand desk) (joined (S.view source.old) (T.view sink.old)) (C.given clock.old))
        (joined (S.view source.new) (T.view sink.new)) (C.given clock.new) (D.view result.disk)
        result.trail result.end result.stopped }
    ensures read { IsTrue result.read ↔ Rose (S.view source.old).faults (S.view source.new).faults }
    ensures write { IsTrue result.write ↔ Rose (T.view sink.old).faults (T.view sink.new).faults }
{
    let mut desk = desk;
    let mut trail = trail;
    let (reads, writes) = (source.faults(), sink.faults());
    let end = serve_over(
        rt, alloc, &mut desk, source, sink, clock, secret, limits, &mut trail,
    );
    let stopped = 0 < desk.stops();
    let (read, write) = (rose(reads, source.faults()), rose(writes, sink.faults()));
    Outcome {
        end,
        stopped,
        read,
        write,
        disk: desk.close(),
        trail,
    }
}

/// How a session over streams ended, the disk that was handed in, and the turns of the session if there was one.
#[derive(Drop)]
pub struct Talked<D: Disk> {
    pub ending: Result<(), TalkStop>,
    pub disk: D,
    pub trail: Option<Trail>,
}

/// Serves one session over a source and a sink, on the archive that a disk holds, which it opens first. It gives the disk
/// back, and the turns of the session.
pub fn talk<R: Wait, S: Source, T: Sink, D: Disk, C: Clock>(
    rt: &R,
    alloc: Global,
    source: &mut S,
    sink: &mut T,
    disk: D,
    clock: &mut C,
    secret: &Secret,
    limits: &Limits,
) -> Talked<D>
    ensures row { TalkRow (setting secret.now limits.now)
        (place (S.view source.old) (T.view sink.old) (C.given clock.old) (D.view disk))
        (place (S.view source.new) (T.view sink.new) (C.given clock.new) (D.view result.disk))
        result.trail result.ending }
{
    let desk = match OwnedDesk::start(alloc, disk) {
        Ok(desk) => desk,
        Err((disk, fault)) => {
            return Talked {
                ending: Err(stop_for_start(fault)),
                disk,
                trail: None,
            };
        }
    };
    let Ok(trail) = Trail::new(alloc) else {
        return Talked {
            ending: Err(TalkStop::OutOfMemory),
            disk: desk.close(),
            trail: None,
        };
    };
    let outcome = session_over(rt, alloc, desk, source, sink, clock, secret, limits, trail);
    Talked {
        ending: ending_of(outcome.stopped, outcome.read, outcome.write, outcome.end),
        disk: outcome.disk,
        trail: Some(outcome.trail),
    }
}
