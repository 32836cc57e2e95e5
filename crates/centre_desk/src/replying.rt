//! The reply to a request.
ghost use Rattle.std.specs.Prelude.{◌≡◌, ◌≤◌, length, true, IfOk, OnOk, Some};
ghost use Rattle.exact_time.specs.Clock.{is_clock_moment};
ghost use Rattle.desk_words.specs.Counts.{RoseAtLeast};
ghost use Rattle.desk_words.specs.Setting.{setting};
ghost use Rattle.http_replies.specs.Replies.{IsSendable};
ghost use Rattle.centre_desk.specs.Answering.{Says};
ghost use Rattle.service_paths.specs.Paths.{version_text, query_of};
ghost use Rattle.centre_desk.specs.Replies.{told_page, told_of};
ghost use Rattle.centre_desk.specs.Sources.{AloneSaid, AloneReply};
ghost use Rattle.centre_desk.specs.Turns.{CaughtUpIf, asks_above, asks_above_on, behind_of, posted_on, posted_by, Replies};

use crate::answering::query_said;
use crate::fault::Fault;
use crate::posting::feed_said;
use crate::told::{Said, Told, reply_from};
use archive_state::Limits;
use desk_words::Desk;
use exact_time::{Bytes, Moment, OutOfMemory};
use http_digest::Secret;
use http_replies::{BodyKind, Reply};
use http_wire::{Request, Turn};
use service_paths::{Page, Service, is_allowed, page_of, split_target};
use std::alloc::Global;
use std::sync::Wait;

// The version that a service tells.
fn version_told(alloc: Global, service: Service) -> Result<Told, OutOfMemory>
    ensures { IfOk result (λ told. told ≡ Told.Body BodyKind.Plain (version_text service)) }
{
    let mut bytes = Bytes::new(alloc);
    bytes.extend(service.version().as_bytes())?;
    Ok(Told::Body {
        kind: BodyKind::Plain,
        bytes,
    })
}

// What a request is told on its page, which has its method.
fn page_said<R: Wait, K: Desk>(
    rt: &R,
    alloc: Global,
    desk: &mut K,
    request: &Request,
    query: &[u8],
    page: Page,
    moment: Moment,
    secret: &Secret,
    limits: &Limits,
) -> Result<Said, OutOfMemory>
    requires body { length request.now.body ≤ 1_048_576 }
    requires clock { is_clock_moment moment ≡ true }
    requires query { query.now ≡ query_of request.now.target }
    ensures says { Says (K.stand desk.old) (K.stand desk.new)
        (λ h added. told_page h request.now moment (setting secret.now limits.now) added page)
        (posted_on request.now (Some page)) moment (setting secret.now limits.now) result }
    ensures caught { OnOk result (CaughtUpIf (asks_above_on (length (K.stand desk.old).seen) request.now (Some page)) (K.stand desk.old).caught (K.stand desk.new).caught) }
    ensures later { (K.stand desk.old).caught ≤ (K.stand desk.new).caught }
    ensures alone { (K.stand desk.old).alone ≡ true
        → AloneSaid (K.stand desk.old) (K.stand desk.new) (posted_on request.now (Some page)) moment (setting secret.now limits.now) result }
{
    match page {
        Page::Query { asked, access } => query_said(
            rt, alloc, desk, request, query, asked, access, moment, secret, limits,
        ),
        Page::Version(service) => {
            let told = version_told(alloc, service)?;
            let front = desk.front();
            Ok(Said {
                told,
                front,
                entry: None,
            })
        }
        Page::Feed(kind) => feed_said(
            rt, alloc, desk, request, query, kind, moment, secret, limits,
        ),
    }
}

// What a request is told.
fn said<R: Wait, K: Desk>(
    rt: &R,
    alloc: Global,
    desk: &mut K,
    request: &Request,
    moment: Moment,
    secret: &Secret,
    limits: &Limits,
) -> Result<Said, OutOfMemory>
    requires body { length request.now.body ≤ 1_048_576 }
    requires clock { is_clock_moment moment ≡ true }
    ensures says { Says (K.stand desk.old) (K.stand desk.new)
        (λ h added. told_of h request.now moment (setting secret.now limits.now) added)
        (posted_by request.now) moment (setting secret.now limits.now) result }
    ensures caught { OnOk result (CaughtUpIf (asks_above (length (K.stand desk.old).seen) request.now) (K.stand desk.old).caught (K.stand desk.new).caught) }
    ensures later { (K.stand desk.old).caught ≤ (K.stand desk.new).caught }
    ensures alone { (K.stand desk.old).alone ≡ true → AloneSaid (K.stand desk.old) (K.stand desk.new) (posted_by request.now) moment (setting secret.now limits.now) result }
{
    let target = split_target(request.target.as_slice());
    let Some(page) = page_of(alloc, target.path)? else {
        return Ok(Said::refused(desk.front(), Fault::NoPath));
    };
    let methods = page.methods();
    if !is_allowed(methods, request.method.as_slice()) {
        return Ok(Said::refused(desk.front(), Fault::NoMethod(methods)));
    }
    page_said(
        rt,
        alloc,
        desk,
        request,
        target.query,
        page,
        moment,
        secret,
        limits,
    )
}

/// The reply to a request at a moment, and its turn. It asks the desk at most one question, or submits at most one
/// command to it; where a request asks for more entries than the desk sees, the desk catches up first, and in no other
/// case. The moment is one that a clock can give, and the body is one of a session.
pub fn reply<R: Wait, K: Desk>(
    rt: &R,
    alloc: Global,
    desk: &mut K,
    request: &Request,
    moment: Moment,
    secret: &Secret,
    limits: &Limits,
) -> Result<(Reply, Turn), OutOfMemory>
    requires body { length request.now.body ≤ 1_048_576 }
    requires clock { is_clock_moment moment ≡ true }
    ensures replies { Replies (K.stand desk.old) (K.stand desk.new) request.now moment (setting secret.now limits.now) result }
    ensures sendable { IfOk result (λ told. IsSendable told.0) }
    // The desk caught up where the reply tells that fewer entries are seen than were asked for.
    ensures behind { IfOk result (λ told. RoseAtLeast (behind_of told.0) (K.stand desk.old).caught (K.stand desk.new).caught) }
    // Where nobody else lengthens what is seen: what was added, and what is left.
    ensures alone { (K.stand desk.old).alone ≡ true → AloneReply (K.stand desk.old) (K.stand desk.new) (posted_by request.now) moment (setting secret.now limits.now) result }
{
    let said = said(rt, alloc, desk, request, moment, secret, limits)?;
    let turn = Turn {
        front: said.front,
        moment,
        entry: said.entry,
        short: false,
    };
    let reply = reply_from(alloc, said.told, turn.front, request, moment, secret)?;
    Ok((reply, turn))
}
