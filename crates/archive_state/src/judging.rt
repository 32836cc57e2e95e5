//! The verdict on a body.
ghost use Rattle.std.specs.Prelude.{◌≡◌, true, ◌+◌, ◌<◌, ◌≤◌, ◌^◌, length, IfOk, IfSome, find, map};
ghost use Rattle.epochs.specs.Views.{values_of_line};
ghost use Rattle.epoch_rules.specs.Catalog.{is_user};
ghost use Rattle.epoch_rules.specs.Kept.{first_broken};
ghost use Rattle.archive_entry.specs.Batches.{batch_of};
ghost use Rattle.archive_entry.specs.Bodies.{IsCounted, is_body, revision_of};
ghost use Rattle.archive_state.specs.History.{roles_in, may_post, records_by};
ghost use Rattle.archive_state.specs.Verdicts.{totals, within_bytes, within_records, batch_verdict, kept_verdict, revise_verdict, body_verdict};

use crate::limits::Limits;
use crate::numbering::line_number;
use crate::verdict::Verdict;
use archive_entry::{Entry, Kind};
use epoch_catalog::Catalog;
use epoch_rules::{CheckFault, Rule};
use epochs::{Line, RevisionFault, Roles, read_revision};
use exact_time::{Many, OutOfMemory};
use mseed_header::{RecordFault, count_records};
use std::alloc::Global;

/// The roles of a live user; None where there is no user of that name.
pub fn roles_of(catalog: &Catalog, author: &[u8]) -> Option<Roles>
    ensures { result ≡ roles_in (find (is_user author.now) catalog.now) }
{
    match catalog.user(author) {
        Some(user) => Some(user.roles),
        None => None,
    }
}

/// Whether a live user may post commands of a kind.
pub fn may_post(catalog: &Catalog, author: &[u8], kind: Kind) -> bool
    ensures { result ≡ may_post catalog.now author.now kind }
{
    match (roles_of(catalog, author), kind) {
        (Some(roles), Kind::Batch) => roles.feed,
        (Some(roles), Kind::Revise) => roles.operator,
        (None, _) => false,
    }
}

/// How many entries a history has, how many records its batches, and how many bytes its bodies. Each entry and each
/// record has a byte at least, and bytes are limited.
#[derive(Clone, Copy, Debug)]
pub struct Sums {
    pub count: u64,
    pub records: u64,
    pub bytes: u64,
    pub ghost entries_few: { count ≤ bytes },
    pub ghost records_few: { records ≤ bytes },
    pub ghost bytes_few: { bytes ≤ 536_870_912 },
}

impl Sums {
    /// With one entry more, which has so many records, and a body that an archive can still take.
    pub fn with_entry(&self, entry: &Entry, records: usize) -> Sums
        requires counted { IsCounted entry.now.kind entry.now.body records }
        requires some { 1 ≤ length entry.now.body }
        requires room { self.now.bytes + length entry.now.body ≤ 536_870_912 }
        ensures count { result.count ≡ self.now.count + 1 }
        ensures records { result.records ≡ self.now.records + records_by entry.now.kind entry.now.body }
        ensures bytes { result.bytes ≡ self.now.bytes + length entry.now.body }
    {
        let body = entry.body.as_slice();
        Sums {
            count: self.count + 1,
            records: self.records + records as u64,
            bytes: self.bytes + body.len() as u64,
        }
    }
}

fn within_bytes(catalog: &Catalog, sums: &Sums, limits: &Limits, body: &[u8]) -> Verdict
    ensures { result ≡ within_bytes (totals catalog.now sums.now.count sums.now.records sums.now.bytes) limits.now body.now }
{
    let bytes = sums.bytes + body.len() as u64;
    if bytes > limits.max_archive {
        return Verdict::FullBytes(bytes);
    }
    Verdict::Accept(sums.count + 1)
}

fn within_records(
    catalog: &Catalog,
    sums: &Sums,
    limits: &Limits,
    body: &[u8],
    more: usize,
) -> Verdict
    requires { more < 2 ^ 63 }
    ensures { result ≡ within_records (totals catalog.now sums.now.count sums.now.records sums.now.bytes) limits.now body.now more }
{
    let records = sums.records + more as u64;
    if records > limits.max_records {
        return Verdict::FullRecords(records);
    }
    within_bytes(catalog, sums, limits, body)
}

// The count of the records of a body, or the first that is refused.
fn batch_of(body: &[u8]) -> Result<usize, (usize, RecordFault)>
    ensures value { result ≡ batch_of body.now }
    ensures few { IfOk result (λ count. count ≤ length body.now) }
{
    count_records(body)
}

// The same, where it may be known how many records there are.
fn batch_known(body: &[u8], known: Option<usize>) -> Result<usize, (usize, RecordFault)>
    requires { IfSome known (IsCounted Kind.Batch body.now) }
    ensures value { result ≡ batch_of body.now }
    ensures few { IfOk result (λ count. count ≤ length body.now) }
{
    match known {
        Some(count) => Ok(count),
        None => batch_of(body),
    }
}

/// How many records a body of a kind has, of which none is refused.
pub fn records_in(kind: Kind, body: &[u8]) -> usize
    requires { is_body kind body.now ≡ true }
    ensures { IsCounted kind body.now result }
{
    match kind {
        Kind::Batch => match batch_of(body) {
            Ok(count) => count,
            Err(_) => 0,
        },
        Kind::Revise => 0,
    }
}

/// How many records a body of a kind has, where none is refused.
pub fn known_records(kind: Kind, body: &[u8]) -> Option<usize>
    ensures { IfSome result (IsCounted kind body.now) }
{
    match kind {
        Kind::Batch => batch_of(body).ok(),
        Kind::Revise => Some(0),
    }
}

fn batch_verdict(
    catalog: &Catalog,
    sums: &Sums,
    limits: &Limits,
    body: &[u8],
    known: Option<usize>,
) -> Verdict
    requires { IfSome known (IsCounted Kind.Batch body.now) }
    ensures { result ≡ body_verdict (totals catalog.now sums.now.count sums.now.records sums.now.bytes) limits.now Kind.Batch body.now }
{
    if body.is_empty() {
        return Verdict::BadRecord {
            at: 0,
            fault: RecordFault::Short,
        };
    }
    match batch_known(body, known) {
        Ok(more) => within_records(catalog, sums, limits, body, more),
        Err((at, fault)) => Verdict::BadRecord { at, fault },
    }
}

/// The first line that breaks a rule, by its place from 1, and the rule.
pub fn first_broken(
    catalog: &Catalog,
    lines: &Many<Line>,
) -> Result<Option<(u64, Rule)>, OutOfMemory>
    ensures value { IfOk result (λ broken. broken ≡ first_broken catalog.now (map values_of_line lines.now)) }
    ensures placed { IfOk result (λ broken. IfSome broken (λ b. 1 ≤ b.0)) }
{
    match catalog.check(lines) {
        Ok(()) => Ok(None),
        Err(CheckFault::Broken { line, rule }) => Ok(Some((line, rule))),
        Err(CheckFault::OutOfMemory) => Err(OutOfMemory),
    }
}

fn kept_verdict(
    catalog: &Catalog,
    sums: &Sums,
    limits: &Limits,
    body: &[u8],
    lines: &Many<Line>,
) -> Result<Verdict, OutOfMemory>
    ensures { IfOk result (λ v. v ≡ kept_verdict (totals catalog.now sums.now.count sums.now.records sums.now.bytes) limits.now body.now (first_broken catalog.now (map values_of_line lines.now))) }
{
    match first_broken(catalog, lines) {
        Ok(Some((place, rule))) => Ok(Verdict::Broken {
            line: line_number(body, place),
            rule,
        }),
        Ok(None) => Ok(within_bytes(catalog, sums, limits, body)),
        Err(OutOfMemory) => Err(OutOfMemory),
    }
}

fn revise_verdict(
    alloc: Global,
    catalog: &Catalog,
    sums: &Sums,
    limits: &Limits,
    body: &[u8],
) -> Result<Verdict, OutOfMemory>
    ensures { IfOk result (λ v. v ≡ revise_verdict (totals catalog.now sums.now.count sums.now.records sums.now.bytes) limits.now body.now (revision_of body.now)) }
{
    match read_revision(alloc, body) {
        Ok(lines) => kept_verdict(catalog, sums, limits, body, &lines),
        Err(RevisionFault::Bad { line, fault }) => Ok(Verdict::BadLine { line, fault }),
        Err(RevisionFault::OutOfMemory) => Err(OutOfMemory),
    }
}

/// The verdict on a body of a kind, of an author who may post it with that sequence number. How many records it has may
/// be known.
pub fn body_verdict(
    alloc: Global,
    catalog: &Catalog,
    sums: &Sums,
    limits: &Limits,
    kind: Kind,
    body: &[u8],
    known: Option<usize>,
) -> Result<Verdict, OutOfMemory>
    requires { IfSome known (IsCounted kind body.now) }
    ensures { IfOk result (λ v. v ≡ body_verdict (totals catalog.now sums.now.count sums.now.records sums.now.bytes) limits.now kind body.now) }
{
    match kind {
        Kind::Batch => Ok(batch_verdict(catalog, sums, limits, body, known)),
        Kind::Revise => revise_verdict(alloc, catalog, sums, limits, body),
    }
}
