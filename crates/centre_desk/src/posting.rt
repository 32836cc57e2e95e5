//! Replies on feed paths.
ghost use Rattle.std.specs.Prelude.{◌≡◌, ◌≤◌, length, IfOk, Some, true};
ghost use Rattle.exact_time.specs.Clock.{is_clock_moment};
ghost use Rattle.desk_words.specs.Posting.{can_be_posted, ruling};
ghost use Rattle.desk_words.specs.Setting.{setting};
ghost use Rattle.centre_desk.specs.Answering.{Says, said_as, entry_number};
ghost use Rattle.centre_desk.specs.Queries.{seq_got};
ghost use Rattle.centre_desk.specs.Replies.{posted_as, judged_over, accepted, told_verdict, told_feed};
ghost use Rattle.centre_desk.specs.Sources.{AloneSaid};
ghost use Rattle.centre_desk.specs.Turns.{posted_under};

use crate::fault::Fault;
use crate::fields::credentials_of;
use crate::queries::seq_of;
use crate::told::{Said, Told};
use archive_entry::Kind;
use archive_state::{Limits, Posted, Verdict};
use desk_words::{Desk, SubmitFault, Submitted};
use exact_time::{Bytes, Moment, OutOfMemory};
use http_digest::Secret;
use http_replies::BodyKind;
use http_wire::Request;
use std::alloc::Global;
use std::sync::Wait;

// The body that tells that the command has this entry.
fn accepted(alloc: Global, number: u64) -> Result<Told, OutOfMemory>
    ensures { IfOk result (λ told. told ≡ accepted number) }
{
    let text = format!(in alloc; "accepted {number}\n")?;
    Ok(Told::Body {
        kind: BodyKind::Plain,
        bytes: Bytes::from_vec(text.into_bytes()),
    })
}

fn told_verdict(alloc: Global, limits: &Limits, verdict: Verdict) -> Result<Told, OutOfMemory>
    ensures { IfOk result (λ told. told ≡ told_verdict limits.now verdict) }
{
    let fault = match verdict {
        Verdict::Accept(number) => return accepted(alloc, number),
        Verdict::Repeat(number) => return accepted(alloc, number),
        Verdict::Denied(denial) => Fault::Denied(denial),
        Verdict::Role => Fault::Role,
        Verdict::OtherBody(number) => Fault::OtherBody(number),
        Verdict::Gap(last) => Fault::Gap(last),
        Verdict::BadRecord { at, fault } => Fault::Record { at, fault },
        Verdict::BadLine { line, fault } => Fault::Line { line, fault },
        Verdict::Broken { line, rule } => Fault::Broken { line, rule },
        Verdict::FullRecords(records) => Fault::FullRecords {
            records,
            most: limits.max_records,
        },
        Verdict::FullBytes(bytes) => Fault::FullBytes {
            bytes,
            most: limits.max_archive,
        },
    };
    Ok(Told::Refused(fault))
}

fn entry_number(verdict: Verdict) -> Option<u64>
    ensures { result ≡ entry_number verdict }
{
    match verdict {
        Verdict::Accept(number) => Some(number),
        _ => None,
    }
}

// What a command is told that was judged.
fn verdict_said(alloc: Global, limits: &Limits, submitted: Submitted) -> Result<Said, OutOfMemory>
    ensures { IfOk result (λ said. said ≡ said_as (told_verdict limits.now submitted.verdict) submitted.front (entry_number submitted.verdict)) }
{
    Ok(Said {
        told: told_verdict(alloc, limits, submitted.verdict)?,
        front: submitted.front,
        entry: entry_number(submitted.verdict),
    })
}

// What a command is told.
fn command_said<R: Wait, K: Desk>(
    rt: &R,
    alloc: Global,
    desk: &mut K,
    posted: &Posted,
    moment: Moment,
    secret: &Secret,
    limits: &Limits,
) -> Result<Said, OutOfMemory>
    requires { can_be_posted posted.now moment ≡ true }
    ensures says { Says (K.stand desk.old) (K.stand desk.new)
        (λ h added. told_verdict limits.now (ruling (judged_over h added) posted.now moment (setting secret.now limits.now)))
        (Some posted.now) moment (setting secret.now limits.now) result }
    ensures caught { (K.stand desk.new).caught ≡ (K.stand desk.old).caught }
    ensures alone { (K.stand desk.old).alone ≡ true → AloneSaid (K.stand desk.old) (K.stand desk.new) (Some posted.now) moment (setting secret.now limits.now) result }
{
    match desk.submit(rt, alloc, posted, moment, secret, limits) {
        Ok(submitted) => match verdict_said(alloc, limits, submitted) {
            Ok(said) => Ok(said),
            Err(OutOfMemory) => Err(OutOfMemory),
        },
        Err(SubmitFault::Stopped) => Ok(Said::refused(desk.front(), Fault::Stopped)),
        Err(SubmitFault::OutOfMemory) => Err(OutOfMemory),
    }
}

fn posted_as(alloc: Global, request: &Request, kind: Kind, seq: u64) -> Result<Posted, OutOfMemory>
    ensures { IfOk result (λ posted. posted ≡ posted_as request.now kind seq) }
{
    Ok(Posted {
        credentials: credentials_of(alloc, request)?,
        kind,
        seq,
        body: request.body.copy(alloc)?,
    })
}

/// What a request is told on a feed path.
pub(crate) fn feed_said<R: Wait, K: Desk>(
    rt: &R,
    alloc: Global,
    desk: &mut K,
    request: &Request,
    query: &[u8],
    kind: Kind,
    moment: Moment,
    secret: &Secret,
    limits: &Limits,
) -> Result<Said, OutOfMemory>
    requires body { length request.now.body ≤ 1_048_576 }
    requires clock { is_clock_moment moment ≡ true }
    ensures says { Says (K.stand desk.old) (K.stand desk.new)
        (λ h added. told_feed (judged_over h added) request.now moment (setting secret.now limits.now) kind (seq_got query.now))
        (posted_under request.now kind (seq_got query.now)) moment (setting secret.now limits.now) result }
    ensures caught { (K.stand desk.new).caught ≡ (K.stand desk.old).caught }
    ensures alone { (K.stand desk.old).alone ≡ true
        → AloneSaid (K.stand desk.old) (K.stand desk.new) (posted_under request.now kind (seq_got query.now)) moment (setting secret.now limits.now) result }
{
    let seq = match seq_of(alloc, query)? {
        Ok(seq) => seq,
        Err(fault) => return Ok(Said::refused(desk.front(), Fault::Query(fault))),
    };
    let posted = posted_as(alloc, request, kind, seq)?;
    command_said(rt, alloc, desk, &posted, moment, secret, limits)
}
