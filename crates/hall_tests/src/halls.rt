//! Two desks on one hall, over disks in memory.
ghost use Rattle.std.specs.Prelude.{◌≡◌, length};
ghost use Rattle.archive_log.specs.Opening.{IsStarted};
ghost use Rattle.disk_model.specs.Memory.{memory_view};
ghost use Rattle.disk_model.specs.View.{is_told};
ghost use Rattle.desk_words.specs.Posting.{can_be_posted};

use archive_entry::{Entry, Kind};
use archive_history::{Naming, Opened};
use archive_log::Archive;
use archive_state::{Admit, Limits, Posted, Verdict};
use desk_words::{Desk, Outcome, Question, SubmitFault, Submitted, Wanted};
use disk_model::{Choice, Disk, MemoryDisk};
use exact_time::{Bytes, Many, Moment};
use http_digest::Credentials;
use owned_desk::OwnedDesk;
use sample_data::{HA1, NOW, SECRET, anmo_record, bytes, three_hertz_record};
use snapshot_hall::{Hall, OpenGate, SharedDesk};
use std::alloc::Global;
use std::marker::Brand;
use std::process::Abort;
use std::sync::Wait;
use std::sync::ledger::{Blank, Ledger};
use std::test::Fail;
use std::thread::{Threads, join};
use two_copies::{Carries, HeldState, Place};

mod replies;
mod stops;

const USERS: &str =
    "USR|feed1|939e7578ed9e3c518a452acee763bce9|feed\nUSR|feed2|939e7578ed9e3c518a452acee763bce9|feed\n";

const TARGET: &str = "/feed/1/batch?seq=2";

// What a user with that HA1 answers a challenge of that secret and that moment, made with Python's hashlib.
const ANSWER: &str =
    r#"realm="FDSN", nonce="0000000065e11a80c4b9ad505cad33331a9629a94b60ee48", uri="/feed/1/batch?seq=2", response="e3763080798a223f0d4339d9db231146""#;

fn credentials(alloc: Global, name: &str) -> Result<Credentials, Fail> {
    let header = format!(in alloc; "Digest username=\"{name}\", {ANSWER}")?;
    Ok(Credentials {
        header: Some(bytes(alloc, header.as_bytes())?),
        method: bytes(alloc, b"POST")?,
        target: bytes(alloc, TARGET.as_bytes())?,
    })
}

fn batch(alloc: Global, name: &str, seq: u64, body: &[u8]) -> Result<Posted, Fail> {
    Ok(Posted {
        credentials: credentials(alloc, name)?,
        kind: Kind::Batch,
        seq,
        body: bytes(alloc, body)?,
    })
}

fn revision(alloc: Global, name: &str, seq: u64, body: &str) -> Result<Posted, Fail> {
    Ok(Posted {
        credentials: credentials(alloc, name)?,
        kind: Kind::Revise,
        seq,
        body: bytes(alloc, body.as_bytes())?,
    })
}

fn fits(posted: &Posted, moment: Moment) -> bool
    ensures { result ≡ can_be_posted posted.now moment }
{
    1 <= posted.seq
        && (posted.seq <= 1_000_000_000_000_000_000
            && (posted.body.len() <= 1_048_576 && moment.is_clock_moment()))
}

// A synced disk with this file, which fails at these calls.
fn disk_of(alloc: Global, file: &[u8], fails: &[u64]) -> Result<MemoryDisk, Fail> {
    let mut calls = Many::new(alloc);
    for call in fails {
        calls.push(*call)?;
    }
    Ok(MemoryDisk::new(alloc, bytes(alloc, file)?, calls)?)
}

// Posts it now.
fn post<R: Wait, K: Desk>(
    rt: &R,
    alloc: Global,
    desk: &mut K,
    posted: &Posted,
) -> Result<Result<Submitted, SubmitFault>, Fail> {
    if !fits(posted, NOW) {
        return Err("not a post".into());
    }
    Ok(desk.submit(rt, alloc, posted, NOW, &SECRET, &Limits::FULL))
}

// The desk of a synced disk with this file.
fn desk_of(alloc: Global, file: &[u8]) -> Result<OwnedDesk<MemoryDisk>, Fail> {
    match OwnedDesk::start(alloc, disk_of(alloc, file, &[])?) {
        Ok(desk) => Ok(desk),
        Err((_, fault)) => Err(fault.into()),
    }
}

// The file of a new archive of op.
fn founded(alloc: Global) -> Result<Bytes, Fail> {
    match Archive::found(alloc, disk_of(alloc, b"", &[])?, "op", HA1) {
        Ok(archive) => Ok(archive.close().image(Choice::Old)?),
        Err((_, fault)) => Err(fault.into()),
    }
}

// Posts it, and it is accepted.
fn add<R: Wait, K: Desk>(rt: &R, alloc: Global, desk: &mut K, posted: &Posted) -> Result<(), Fail> {
    match post(rt, alloc, desk, posted)??.verdict {
        Verdict::Accept(_) => Ok(()),
        _ => Err("not accepted".into()),
    }
}

// Adds the users feed1 and feed2, and the record by feed1.
fn fill<R: Wait, K: Desk>(rt: &R, alloc: Global, desk: &mut K) -> Result<(), Fail> {
    add(rt, alloc, desk, &revision(alloc, "op", 1, USERS)?)?;
    add(rt, alloc, desk, &batch(alloc, "feed1", 1, &anmo_record())?)
}

// The file of an archive: the founding entry of op, the users feed1 and feed2, and the record by feed1.
fn archive_file<R: Wait>(rt: &R, alloc: Global) -> Result<Bytes, Fail> {
    let mut desk = desk_of(alloc, founded(alloc)?.as_slice())?;
    fill(rt, alloc, &mut desk)?;
    Ok(desk.close().image(Choice::Old)?)
}

// How many entries an answer rests on.
fn front_asked<K: Desk>(alloc: Global, desk: &mut K) -> Result<u64, Fail> {
    let question = Question {
        wanted: Wanted::Nothing,
        credentials: None,
        least: 0,
        moment: NOW,
    };
    let answer = desk.ask(alloc, &question, &SECRET, &Limits::FULL)?;
    Ok(answer.front)
}

// One submits; the other sees it once it caught up, and posts it again.
fn one_submits<R: Wait + Abort, K: Desk>(
    rt: &R,
    alloc: Global,
    one: &mut K,
    two: &mut K,
) -> Result<(), Fail> {
    assert_eq!(rt; (one.front(), two.front()), (3, 3));
    let record = batch(alloc, "feed1", 2, &three_hertz_record())?;
    let told = post(rt, alloc, one, &record)??;
    assert_eq!(rt;
        (told.verdict, told.judged, told.front),
        (Verdict::Accept(4), 3, 4)
    );
    assert_eq!(rt; front_asked(alloc, one)?, 4);
    two.catch_up(rt);
    assert_eq!(rt; (two.front(), front_asked(alloc, two)?), (4, 4));
    let told = post(rt, alloc, two, &record)??;
    assert_eq!(rt; (told.verdict, told.front), (Verdict::Repeat(4), 4));
    assert_eq!(rt; (one.stops(), two.stops()), (0, 0));
    Ok(())
}

// A disk stops what one submits, and then what the other does; both are answered as before, and so is a repeat.
fn both_are_stopped<R: Wait + Abort, K: Desk>(
    rt: &R,
    alloc: Global,
    one: &mut K,
    two: &mut K,
) -> Result<(), Fail> {
    let record = batch(alloc, "feed1", 2, &three_hertz_record())?;
    let stopped = Some(SubmitFault::Stopped);
    assert_eq!(rt; post(rt, alloc, one, &record)?.err(), stopped);
    assert_eq!(rt; post(rt, alloc, two, &record)?.err(), stopped);
    assert_eq!(rt;
        (front_asked(alloc, one)?, front_asked(alloc, two)?),
        (3, 3)
    );
    let earlier = batch(alloc, "feed1", 1, &anmo_record())?;
    let told = post(rt, alloc, two, &earlier)??;
    assert_eq!(rt; (told.verdict, told.front), (Verdict::Repeat(3), 3));
    assert_eq!(rt; (one.stops(), two.stops()), (1, 1));
    Ok(())
}

// What one caller did: how many of its posts were accepted, each by a number that stood in front of its own then; and
// whether a front ever fell.
#[derive(Clone, Copy, Debug, PartialEq, Eq)]
struct Turns {
    accepted: u64,
    fell: bool,
}

// Posts one after another, and asks ten times after each post.
fn work<R: Wait, K: Desk>(
    rt: &R,
    alloc: Global,
    desk: &mut K,
    posts: &[Posted],
) -> Result<Turns, SubmitFault> {
    let mut turns = Turns {
        accepted: 0,
        fell: false,
    };
    let mut front = desk.front();
    let question = Question {
        wanted: Wanted::Nothing,
        credentials: None,
        least: 0,
        moment: NOW,
    };
    'posts: for posted in posts {
        if !fits(posted, NOW) {
            continue;
        }
        let told = desk.submit(rt, alloc, posted, NOW, &SECRET, &Limits::FULL)?;
        if told.verdict == Verdict::Accept(told.front) {
            turns.accepted = turns.accepted.saturating_add(1);
        }
        turns.fell = turns.fell || told.front < front;
        front = told.front;
        'questions: for _ in 0..10u64 {
            let asked = desk.ask(alloc, &question, &SECRET, &Limits::FULL)?;
            turns.fell = turns.fell || asked.front < front;
            front = asked.front;
        }
    }
    Ok(turns)
}

// So many posts of one author, from this sequence number on.
fn posts_of(alloc: Global, author: &str, from: u64, count: u64) -> Result<Many<Posted>, Fail> {
    let mut posts = Many::new(alloc);
    'posts: for n in 0..count {
        posts.push(batch(alloc, author, from.saturating_add(n), &anmo_record())?)?;
    }
    Ok(posts)
}

// Both work, each in a thread of its own.
fn both_work<A: Desk + Send, B: Desk + Send, R: Threads + Wait + Abort + Sync>(
    rt: &R,
    alloc: Global,
    one: &mut A,
    two: &mut B,
    firsts: &[Posted],
    seconds: &[Posted],
) -> Result<(), Fail> {
    let worked = join(
        rt,
        || work(rt, alloc, one, firsts),
        || work(rt, alloc, two, seconds),
    );
    let all = Turns {
        accepted: 200,
        fell: false,
    };
    assert_eq!(rt; worked, (Ok(all), Ok(all)));
    Ok(())
}

// What two desks do with one another.
#[derive(Clone, Copy)]
enum Course<'p> {
    OneSubmits,
    TheOtherReplies,
    BothAreStopped,
    // What the one posts, and what the other posts meanwhile.
    BothWork(&'p [Posted], &'p [Posted]),
}

// The same between two desks of one hall.
fn talk_between<
    'a,
    J: Naming + Send + Sync,
    T: Carries<J> + Drop + Send + Sync,
    L: Ledger + Send + Sync,
    S: Ledger + Send + Sync,
    R: Threads + Wait + Abort + Sync,
>(
    rt: &R,
    alloc: Global,
    one: &mut SharedDesk<'a, MemoryDisk, OpenGate, J, T, L, S>,
    two: &mut SharedDesk<'a, MemoryDisk, OpenGate, J, T, L, S>,
    course: Course<'_>,
) -> Result<(), Fail> {
    match course {
        Course::OneSubmits => one_submits(rt, alloc, one, two),
        Course::TheOtherReplies => replies::the_other_replies(rt, alloc, one, two),
        Course::BothAreStopped => both_are_stopped(rt, alloc, one, two),
        Course::BothWork(firsts, seconds) => both_work(rt, alloc, one, two, firsts, seconds),
    }
}

// The same at the two places of a hall.
fn talk_at<
    J: Naming + Send + Sync,
    T: Carries<J> + Drop + Send + Sync,
    L: Ledger + Send + Sync,
    S: Ledger + Send + Sync,
    R: Threads + Wait + Abort + Sync,
>(
    rt: &R,
    alloc: Global,
    hall: &Hall<MemoryDisk, J, T, L, S>,
    places: &mut Vec<Place<J, T, L, S>>,
    course: Course<'_>,
) -> Result<(), Fail>
    requires { length places.old.items ≡ 2 }
    ensures { length places.new.items ≡ 2 }
{
    let Some(second) = places.pop() else {
        unreachable!()
    };
    let Some(first) = places.pop() else {
        unreachable!()
    };
    let mut one = SharedDesk::new(hall, first, OpenGate);
    let mut two = SharedDesk::new(hall, second, OpenGate);
    let talked = talk_between(rt, alloc, &mut one, &mut two, course);
    let SharedDesk { place, .. } = one;
    places.push_reserved(place);
    let SharedDesk { place, .. } = two;
    places.push_reserved(place);
    talked
}

// The disk, once two desks have talked and the hall was closed.
fn talk<
    J: Naming + Send + Sync,
    L: Ledger + Send + Sync,
    S: Ledger + Send + Sync,
    R: Threads + Wait + Abort + Sync,
>(
    rt: &R,
    alloc: Global,
    archive: Archive<MemoryDisk>,
    entries: &[Entry],
    admit: Admit,
    opened: Opened,
    made: Blank,
    halts: Blank,
    course: Course<'_>,
) -> Result<MemoryDisk, Fail>
    requires started { IsStarted memory_view archive entries.now admit }
    requires book { opened ≡ J.book }
    requires opening { J.opening ≡ entries.now }
    requires told { (J.told ≡ is_told (memory_view archive.disk)) × (J.faults ≡ archive.faults) }
    requires made { (made.name ≡ L.name) × (made.parts ≡ L.parts) × (L.parts ≡ 2) }
    requires halts { (halts.name ≡ S.name) × (halts.parts ≡ S.parts) × (S.parts ≡ 2) }
{
    let started = Hall::<MemoryDisk, J, HeldState<J>, L, S>::start(
        rt, alloc, archive, entries, admit, opened, 2, made, halts,
    );
    let (hall, mut places) = match started {
        Ok(started) => started,
        Err((_, fault)) => return Err(fault.into()),
    };
    let talked = talk_at(rt, alloc, &hall, &mut places, course);
    let disk = hall.close(rt, places);
    talked?;
    Ok(disk)
}

// The disk of an archive with this file, which fails at these calls, once two desks of a hall over it have talked.
fn left_by(
    rt: &(impl Threads + Wait + Abort + Sync),
    alloc: Global,
    file: &[u8],
    fails: &[u64],
    course: Course<'_>,
) -> Result<MemoryDisk, Fail> {
    let (archive, entries, admit) = match Archive::start(alloc, disk_of(alloc, file, fails)?) {
        Ok(started) => started,
        Err((_, fault)) => return Err(fault.into()),
    };
    talk::<Brand, Brand, Brand, _>(
        rt,
        alloc,
        archive,
        entries.as_slice(),
        admit,
        Opened::new(),
        Blank::new(2),
        Blank::new(2),
        course,
    )
}

// How many entries a crash would leave, at that image.
fn entries_left(alloc: Global, disk: &MemoryDisk, choice: Choice) -> Result<u64, Fail> {
    Ok(desk_of(alloc, disk.image(choice)?.as_slice())?.front())
}

#[test]
fn the_other_desk_sees_what_one_submits(rt: HostRuntime) -> Result<(), Fail> {
    let alloc = rt.alloc();
    let file = archive_file(&rt, alloc)?;
    let disk = left_by(&rt, alloc, file.as_slice(), &[], Course::OneSubmits)?;
    assert_eq!(rt; entries_left(alloc, &disk, Choice::Old)?, 4);
    Ok(())
}

#[test]
fn the_other_desk_replies_over_what_was_asked_for(rt: HostRuntime) -> Result<(), Fail> {
    let alloc = rt.alloc();
    let file = archive_file(&rt, alloc)?;
    let disk = left_by(&rt, alloc, file.as_slice(), &[], Course::TheOtherReplies)?;
    assert_eq!(rt; entries_left(alloc, &disk, Choice::Old)?, 4);
    Ok(())
}

#[test]
fn two_threads_post_and_ask(rt: HostRuntime) -> Result<(), Fail> {
    let alloc = rt.alloc();
    let firsts = posts_of(alloc, "feed1", 2, 200)?;
    let seconds = posts_of(alloc, "feed2", 1, 200)?;
    let file = archive_file(&rt, alloc)?;
    let course = Course::BothWork(firsts.as_slice(), seconds.as_slice());
    let disk = left_by(&rt, alloc, file.as_slice(), &[], course)?;
    assert_eq!(rt; entries_left(alloc, &disk, Choice::Old)?, 403);
    Ok(())
}
