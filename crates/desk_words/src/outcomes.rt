//! What a question is answered with.
ghost use Rattle.std.specs.Prelude.{◌≡◌, ℕ, List, Option, None, Some, Result, IfOk, IfErr, Ok, Err, option_map};
ghost use Rattle.dataselect.specs.DataBody.{RefusesAs};
ghost use Rattle.dataselect.specs.declared.answers.DataRefusal.{DataRefusal};
ghost use Rattle.exact_time.specs.declared.error.TextRefusal.{TextRefusal};
ghost use Rattle.line_columns.specs.Answers.{RefusesTextAs};
ghost use Rattle.access_digest.specs.Who.{Denies};
ghost use Rattle.archive_state.specs.History.{live_of};
ghost use Rattle.desk_words.specs.Outcomes.{outcome_of, outcome_from, data_told, text_told, asked_as, may_copy, entries_told, answer_to};
ghost use Rattle.desk_words.specs.Setting.{setting};

use crate::asking::{Outcome, Question, Wanted};
use access_digest::{Denial, Pass, WhoFault, who};
use archive_state::{Limits, State, roles_of};
use availability::{extent_body, spans_body};
use dataselect::{DataRefusal, answer};
use entry_bodies::{BodyRefusal, entries_body};
use epoch_catalog::Catalog;
use epochs::User;
use exact_time::{Bytes, OutOfMemory, Text, TextRefusal};
use http_digest::Secret;
use std::alloc::Global;

// What a body of bytes, or its refusal, is as an outcome.
fn told_data(found: Result<Bytes, DataRefusal>) -> Result<Outcome, OutOfMemory>
    ensures { (answer : Result (List ℕ) DataRefusal) → IfOk found (λ body. answer ≡ Ok body) → IfErr found (RefusesAs answer)
        → IfOk result (λ o. o ≡ outcome_from data_told answer) }
{
    match found {
        Ok(body) => Ok(Outcome::Body(body)),
        Err(DataRefusal::Empty) => Ok(Outcome::Empty),
        Err(DataRefusal::TooLarge(bytes)) => Ok(Outcome::TooLarge(bytes)),
        Err(DataRefusal::OutOfMemory) => Err(OutOfMemory),
    }
}

// The same of a text.
fn told_text(alloc: Global, found: Result<Text, TextRefusal>) -> Result<Outcome, OutOfMemory>
    ensures { (answer : Result (List ℕ) TextRefusal) → IfOk found (λ text. answer ≡ Ok text) → IfErr found (RefusesTextAs answer)
        → IfOk result (λ o. o ≡ outcome_from text_told answer) }
{
    match found {
        Ok(text) => {
            let mut body = Bytes::new(alloc);
            body.extend(text.as_slice())?;
            Ok(Outcome::Body(body))
        }
        Err(TextRefusal::Empty) => Ok(Outcome::Empty),
        Err(TextRefusal::TooLarge(lines)) => Ok(Outcome::TooLarge(lines)),
        Err(TextRefusal::OutOfMemory) => Err(OutOfMemory),
    }
}

// Whether a user has the role by which an archive is copied.
fn may_copy(catalog: &Catalog, user: Option<&User>) -> bool
    ensures { result ≡ may_copy catalog.now (option_map (λ u. u.now.name) user.entry) }
{
    let Some(user) = user else {
        return false;
    };
    match roles_of(catalog, user.name.as_slice()) {
        Some(roles) => roles.replica,
        None => false,
    }
}

// What this user is told who asks for the entries from that of a number on.
fn told_entries(
    alloc: Global,
    state: &State,
    user: Option<&User>,
    from: u64,
    limits: &Limits,
) -> Result<Outcome, OutOfMemory>
    ensures { IfOk result (λ o. o ≡ entries_told state.now limits.now (option_map (λ u. u.now.name) user.entry) from) }
{
    if !may_copy(state.catalog(), user) {
        return Ok(Outcome::NoRole);
    }
    match entries_body(alloc, state.entries(), from, limits.max_bytes) {
        Ok(body) => Ok(Outcome::Body(body)),
        Err(BodyRefusal::Empty) => Ok(Outcome::Empty),
        Err(BodyRefusal::TooLarge(bytes)) => Ok(Outcome::TooLarge(bytes)),
        Err(BodyRefusal::OutOfMemory) => Err(OutOfMemory),
    }
}

// Who asks: nobody in particular, a user, or one who is denied.
fn asker<'a>(
    alloc: Global,
    catalog: &'a Catalog,
    question: &Question,
    secret: &Secret,
) -> Result<Option<&'a User>, WhoFault>
    ensures ok { IfOk result (λ user. asked_as catalog.now question.now.credentials question.now.moment secret.now ≡ Ok (option_map (λ u. u.now.name) user)) }
    ensures err { IfErr result (Denies (asked_as catalog.now question.now.credentials question.now.moment secret.now)) }
{
    let Some(credentials) = &question.credentials else {
        return Ok(None);
    };
    match who(alloc, catalog, credentials, question.moment, secret) {
        Ok(name) => Ok(Some(catalog.user(name.as_slice()).unwrap())),
        Err(fault) => Err(fault),
    }
}

// What is answered to this user about what is wanted.
fn told_to(
    alloc: Global,
    state: &State,
    user: Option<&User>,
    wanted: &Wanted,
    limits: &Limits,
) -> Result<Outcome, OutOfMemory>
    ensures { IfOk result (λ o. o ≡ answer_to state.now limits.now (option_map (λ u. u.now.name) user.entry) wanted.now) }
{
    let pass = Pass {
        catalog: state.catalog(),
        user,
    };
    match wanted {
        Wanted::Nothing => Ok(Outcome::Known),
        Wanted::Waves(query) => told_data(answer(
            alloc,
            state.shelf(),
            &pass,
            query,
            limits.max_bytes,
        )),
        Wanted::Spans(query) => told_text(
            alloc,
            spans_body(alloc, state.shelf(), &pass, query, limits.max_lines),
        ),
        Wanted::Extent(query) => told_text(
            alloc,
            extent_body(alloc, state.shelf(), &pass, query, limits.max_lines),
        ),
        Wanted::Station(query) => told_text(
            alloc,
            station_text::answer(alloc, state.catalog(), query, limits.max_lines),
        ),
        Wanted::Event(query) => told_text(
            alloc,
            event_text::answer(alloc, state.catalog(), query, limits.max_lines),
        ),
        Wanted::Entries { from } => told_entries(alloc, state, user, *from, limits),
    }
}

/// What a question is answered with over the history that a state holds. Where there are too few entries, nothing else
/// is looked at.
#[tactic(auto, unfolding(crate::specs::Outcomes::outcome_of))]
pub fn outcome(
    alloc: Global,
    state: &State,
    question: &Question,
    secret: &Secret,
    limits: &Limits,
) -> Result<Outcome, OutOfMemory>
    ensures { IfOk result (λ o. o ≡ outcome_of state.now question.now (setting secret.now limits.now)) }
{
    if (state.entries().len() as u64) < question.least {
        return Ok(Outcome::Behind);
    }
    match asker(alloc, state.catalog(), question, secret) {
        Err(WhoFault::Denied(denial)) => Ok(Outcome::Denied(denial)),
        Err(WhoFault::OutOfMemory) => Err(OutOfMemory),
        Ok(user) => told_to(alloc, state, user, &question.wanted, limits),
    }
}
