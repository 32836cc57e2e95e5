//! Replies on query paths.
ghost use Rattle.std.specs.Prelude.{◌≡◌, ◌≤◌, length, map, None, Some, OnOk, IfOk};
ghost use Rattle.desk_words.specs.Setting.{setting};
ghost use Rattle.desk_words.specs.Stand.{Quiet};
ghost use Rattle.http_wire.specs.FieldPairs.{as_pair};
ghost use Rattle.centre_desk.specs.Answering.{told_by, asking_of, told_asking, Answers, Says};
ghost use Rattle.centre_desk.specs.Fields.{front_asked, credentials_by};
ghost use Rattle.centre_desk.specs.Queries.{wanted_of};
ghost use Rattle.centre_desk.specs.Replies.{told_empty, kind_of, too_large, told_query};
ghost use Rattle.centre_desk.specs.Turns.{CaughtUpIf, is_above};

use crate::fault::Fault;
use crate::fields::{credentials_by, front_asked};
use crate::queries::{nodata_of, wanted_of};
use crate::told::{Said, Told};
use archive_state::Limits;
use dataselect::Nodata;
use desk_words::{Desk, Outcome, Question, Wanted};
use exact_time::{Moment, OutOfMemory};
use http_digest::{Credentials, Secret};
use http_replies::BodyKind;
use http_wire::Request;
use query_words::QueryFault;
use service_paths::{Access, Asked};
use std::alloc::Global;
use std::sync::Wait;

fn told_empty(nodata: Nodata) -> Told
    ensures { result ≡ told_empty nodata }
{
    match nodata {
        Nodata::Quiet => Told::Nothing,
        Nodata::NotFound => Told::Refused(Fault::NoData),
    }
}

fn kind_of(wanted: &Wanted) -> BodyKind
    ensures { result ≡ kind_of wanted.now }
{
    match wanted {
        Wanted::Waves(_) => BodyKind::Miniseed,
        Wanted::Entries { .. } => BodyKind::Octets,
        _ => BodyKind::Plain,
    }
}

fn too_large(wanted: &Wanted, size: u64, limits: &Limits) -> Fault
    ensures { result ≡ too_large wanted.now size limits.now }
{
    match wanted {
        Wanted::Waves(_) | Wanted::Entries { .. } => Fault::ManyBytes {
            bytes: size,
            most: limits.max_bytes,
        },
        _ => Fault::ManyLines {
            lines: size,
            most: limits.max_lines,
        },
    }
}

// What an outcome is told as, where a query with this fault or none asked for so many entries, and got an answer over
// these.
fn told_by(
    fault: Option<QueryFault>,
    question: &Question,
    limits: &Limits,
    front: u64,
    outcome: Outcome,
) -> Told
    ensures { result ≡ told_by fault question.now limits.now front outcome }
{
    match outcome {
        Outcome::Behind => Told::Refused(Fault::Behind {
            asked: question.least,
            reached: front,
        }),
        Outcome::Denied(denial) => Told::Refused(Fault::Denied(denial)),
        Outcome::Known => match fault {
            Some(fault) => Told::Refused(Fault::Query(fault)),
            None => Told::Nothing,
        },
        Outcome::NoRole => Told::Refused(Fault::Role),
        Outcome::Empty => told_empty(nodata_of(&question.wanted)),
        Outcome::TooLarge(size) => Told::Refused(too_large(&question.wanted, size, limits)),
        Outcome::Body(bytes) => Told::Body {
            kind: kind_of(&question.wanted),
            bytes,
        },
    }
}

// A question, and the fault of its query if it has one.
#[derive(Drop)]
struct Asking {
    question: Question,
    fault: Option<QueryFault>,
}

// The question of a query; a faulty one wants nothing, so that who asks is known.
fn asking_of(
    read: Result<Wanted, QueryFault>,
    credentials: Option<Credentials>,
    least: u64,
    moment: Moment,
) -> Asking
    ensures { result ≡ asking_of read credentials least moment }
{
    match read {
        Ok(wanted) => Asking {
            question: Question {
                wanted,
                credentials,
                least,
                moment,
            },
            fault: None,
        },
        Err(fault) => Asking {
            question: Question {
                wanted: Wanted::Nothing,
                credentials,
                least,
                moment,
            },
            fault: Some(fault),
        },
    }
}

// What a request asks on a query path.
fn ask_for(
    alloc: Global,
    request: &Request,
    query: &[u8],
    asked: Asked,
    access: Access,
    least: u64,
    moment: Moment,
) -> Result<Asking, OutOfMemory>
    ensures { IfOk result (λ a. a ≡ asking_of (wanted_of asked request.now.method query.now request.now.body) (credentials_by access request.now) least moment) }
{
    let (method, body) = (request.method.as_slice(), request.body.as_slice());
    let read = wanted_of(alloc, asked, method, query, body)?;
    let credentials = credentials_by(alloc, access, request)?;
    Ok(asking_of(read, credentials, least, moment))
}

// Asks a question, and tells its answer.
fn answer_told<K: Desk>(
    alloc: Global,
    desk: &mut K,
    asking: &Asking,
    secret: &Secret,
    limits: &Limits,
) -> Result<Said, OutOfMemory>
    ensures answer { Answers (K.stand desk.old) (K.stand desk.new) (λ h. told_asking h asking.now (setting secret.now limits.now)) result }
    ensures caught { (K.stand desk.new).caught ≡ (K.stand desk.old).caught }
{
    let answer = desk.ask(alloc, &asking.question, secret, limits)?;
    let front = answer.front;
    Ok(Said {
        told: told_by(
            asking.fault,
            &asking.question,
            limits,
            front,
            answer.outcome,
        ),
        front,
        entry: None,
    })
}

/// What a request is told on a query path. The desk catches up first where it sees fewer entries than are asked for.
pub(crate) fn query_said<R: Wait, K: Desk>(
    rt: &R,
    alloc: Global,
    desk: &mut K,
    request: &Request,
    query: &[u8],
    asked: Asked,
    access: Access,
    moment: Moment,
    secret: &Secret,
    limits: &Limits,
) -> Result<Said, OutOfMemory>
    ensures says { Says (K.stand desk.old) (K.stand desk.new)
        (λ h added. told_query h request.now moment (setting secret.now limits.now) access (wanted_of asked request.now.method query.now request.now.body) (front_asked (map as_pair request.now.headers)))
        None moment (setting secret.now limits.now) result }
    ensures caught { OnOk result (CaughtUpIf (is_above (length (K.stand desk.old).seen) (front_asked (map as_pair request.now.headers))) (K.stand desk.old).caught (K.stand desk.new).caught) }
    ensures later { (K.stand desk.old).caught ≤ (K.stand desk.new).caught }
    ensures quiet { Quiet (K.stand desk.old) (K.stand desk.new) }
{
    let Some(least) = front_asked(request.headers.as_slice()) else {
        return Ok(Said::refused(desk.front(), Fault::BadFront));
    };
    let asking = ask_for(alloc, request, query, asked, access, least, moment)?;
    if desk.front() < least {
        desk.catch_up(rt);
        return answer_told(alloc, desk, &asking, secret, limits);
    }
    answer_told(alloc, desk, &asking, secret, limits)
}
