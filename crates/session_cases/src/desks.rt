//! The desk of one owner by itself: what it tells of a command, and how many of its calls a reply makes (what a question leaves is
//! nothing, so that no clause tells one from two).
ghost use Rattle.std.specs.Prelude.{◌≡◌};
ghost use Rattle.desk_words.specs.Posting.{can_be_posted};

use crate::asking::credentials;
use crate::told::disk_of;
use archive_entry::Kind;
use archive_state::{Limits, Posted};
use centre_desk::reply;
use desk_words::{Answer, Desk, Question, SubmitFault, Submitted};
use disk_model::{Choice, MemoryDisk};
use exact_time::{Bytes, Many, Moment, OutOfMemory};
use http_digest::{Credentials, Secret};
use http_wire::{Inbox, MemoryLink, Request, read_request};
use owned_desk::OwnedDesk;
use sample_data::{NOW, SECRET};
use std::alloc::Global;
use std::sync::Wait;

// 2024-03-01T00:00:00
const SECOND: u64 = 1_709_251_200;

fn fits(posted: &Posted) -> bool
    ensures { result ≡ can_be_posted posted.now NOW }
{
    1 <= posted.seq
        && (posted.seq <= 1_000_000_000_000_000_000
            && (posted.body.len() <= 1_048_576 && NOW.is_clock_moment()))
}

// A batch by a user who answers the challenge of this second.
fn batch_of(alloc: Global, user: &str, seq: &str, body: Bytes) -> Result<Posted, OutOfMemory> {
    let target = format!(in alloc; "/feed/1/batch?seq={seq}")?;
    let line = credentials(alloc, user, "POST", target.as_str(), SECOND)?;
    let (_, said) = line.as_str().split_once(": ").unwrap_or(("", ""));
    let mut header = Bytes::new(alloc);
    header.extend(said.trim_ascii_end().as_bytes())?;
    let mut method = Bytes::new(alloc);
    method.extend(b"POST")?;
    let mut uri = Bytes::new(alloc);
    uri.extend(target.as_bytes())?;
    Ok(Posted {
        credentials: Credentials {
            header: Some(header),
            method,
            target: uri,
        },
        kind: Kind::Batch,
        seq: seq.parse().unwrap_or(0),
        body,
    })
}

// What a desk tells of a command: the verdict, over how many entries it was judged, how many there are then, and the stops.
fn told<R: Wait>(
    rt: &R,
    alloc: Global,
    desk: &mut OwnedDesk<MemoryDisk>,
    posted: &Posted,
) -> Result<String, OutOfMemory> {
    if !fits(posted) {
        return Ok(String::from_str(alloc, "no post")?);
    }
    let told = desk.submit(rt, alloc, posted, NOW, &SECRET, &Limits::FULL);
    let (front, stops) = (desk.front(), desk.stops());
    match told {
        Ok(told) => {
            let (verdict, judged) = (told.verdict, told.judged);
            Ok(format!(in alloc; "{verdict:?} over {judged}, front {front}, stops {stops}")?)
        }
        Err(fault) => Ok(format!(in alloc; "{fault:?}, front {front}, stops {stops}")?),
    }
}

// The same of a command that is posted so many times.
fn told_often<R: Wait>(
    rt: &R,
    alloc: Global,
    desk: &mut OwnedDesk<MemoryDisk>,
    posted: &Posted,
    times: u32,
) -> Result<String, OutOfMemory> {
    let mut text = String::new(alloc);
    'times: for _ in 0..times {
        let between = if text.is_empty() { "" } else { "; " };
        let told = told(rt, alloc, desk, posted)?;
        write!(text, "{between}{told}")?;
    }
    Ok(text)
}

/// What a new desk over a file, of a disk that fails at some calls, tells of a batch that a user posts so many times; and the file
/// that a crash leaves.
pub fn submitted<R: Wait>(
    rt: &R,
    alloc: Global,
    disk: MemoryDisk,
    times: u32,
    user: &str,
    seq: &str,
    body: Bytes,
) -> Result<(String, Bytes), OutOfMemory> {
    let posted = batch_of(alloc, user, seq, body)?;
    let Ok(desk) = OwnedDesk::start(alloc, disk) else {
        return Ok((String::from_str(alloc, "no archive")?, Bytes::new(alloc)));
    };
    let mut desk = desk;
    let text = told_often(rt, alloc, &mut desk, &posted, times)?;
    Ok((text, desk.close().image(Choice::Old)?))
}

// A desk that counts its calls.
#[derive(Drop)]
struct CountingDesk {
    desk: OwnedDesk<MemoryDisk>,
    asked: u32,
    submitted: u32,
    caught_up: u32,
}

impl Desk for CountingDesk {
    ghost stand = { λ c. ⟦<OwnedDesk<MemoryDisk> as Desk>⟧.stand c.desk };

    fn ask(
        &mut self,
        alloc: Global,
        question: &Question,
        secret: &Secret,
        limits: &Limits,
    ) -> Result<Answer, OutOfMemory> {
        self.asked = self.asked.saturating_add(1);
        self.desk.ask(alloc, question, secret, limits)
    }

    fn submit<R: Wait>(
        &mut self,
        rt: &R,
        alloc: Global,
        posted: &Posted,
        moment: Moment,
        secret: &Secret,
        limits: &Limits,
    ) -> Result<Submitted, SubmitFault> {
        self.submitted = self.submitted.saturating_add(1);
        self.desk.submit(rt, alloc, posted, moment, secret, limits)
    }

    fn catch_up<R: Wait>(&mut self, rt: &R) {
        self.caught_up = self.caught_up.saturating_add(1);
        self.desk.catch_up(rt);
    }

    fn front(&self) -> u64 {
        self.desk.front()
    }

    fn stops(&self) -> u64 {
        self.desk.stops()
    }

    ghost lawful = { λ c. c.desk.stands.lawful };
}

// The request that these bytes are.
fn request_of(alloc: Global, text: &[u8]) -> Result<Option<Request>, OutOfMemory> {
    let mut bytes = Bytes::new(alloc);
    bytes.extend(text)?;
    let mut pieces = Many::new(alloc);
    pieces.push(bytes)?;
    let mut link = MemoryLink::new(alloc, pieces, Many::new(alloc));
    let mut inbox = Inbox::new(alloc)?;
    Ok(read_request(alloc, &mut link, &mut inbox, 1_048_576).ok())
}

// The status of the reply to a request, and how many questions, commands and catches up of the desk it took.
fn counted<R: Wait>(
    rt: &R,
    alloc: Global,
    desk: &mut CountingDesk,
    request: &Request,
) -> Result<String, OutOfMemory> {
    if request.body.len() > 1_048_576 || !NOW.is_clock_moment() {
        return Ok(String::from_str(alloc, "no request")?);
    }
    let (reply, _turn) = reply(rt, alloc, desk, request, NOW, &SECRET, &Limits::FULL)?;
    let status = reply.status;
    let (asked, submitted, caught_up) = (desk.asked, desk.submitted, desk.caught_up);
    Ok(format!(in alloc; "{status} asked {asked} submitted {submitted} caught {caught_up}")?)
}

/// The same of a new desk over a file, and of the request that some bytes are.
pub fn calls_of<R: Wait>(
    rt: &R,
    alloc: Global,
    file: &[u8],
    text: &[u8],
) -> Result<String, OutOfMemory> {
    let Some(request) = request_of(alloc, text)? else {
        return Ok(String::from_str(alloc, "no request")?);
    };
    let disk = disk_of(alloc, file, Many::new(alloc))?;
    let Ok(desk) = OwnedDesk::start(alloc, disk) else {
        return Ok(String::from_str(alloc, "no archive")?);
    };
    let mut desk = CountingDesk {
        desk,
        asked: 0,
        submitted: 0,
        caught_up: 0,
    };
    counted(rt, alloc, &mut desk, &request)
}
