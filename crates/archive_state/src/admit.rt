//! What judges the next command.
ghost use Rattle.std.specs.Prelude.{◌≡◌, ◌≤◌, ◌++◌, [], ◌∷◌, true, List, ◌+◌, ◌&&◌, length, None, option_map, if◌then◌else◌, IfOk, IfSome, OnOk, OnErr};
ghost use Rattle.std.specs.Str.{bytes_eq};
ghost use Rattle.epochs.specs.Kinds.{Text};
ghost use Rattle.archive_entry.specs.Bodies.{IsCounted};
ghost use Rattle.archive_entry.specs.declared.entry.Entry.{Entry};
ghost use Rattle.archive_state.specs.Admits.{IsAdmit, IsNextOf, IsEarlierEntry, StandsForSome, number_of};
ghost use Rattle.archive_state.specs.Authors.{numbers_in, has_room, with_entry};
ghost use Rattle.archive_state.specs.History.{earlier_of, live_of};
ghost use Rattle.archive_state.specs.Lawful.{is_later, is_next, full};
ghost use Rattle.archive_state.specs.Verdicts.{command, totals, is_kind, beside, judged, judged_of, verdict_of};

use crate::authors::{Authors, last_of, make_room, number_at, put_number};
use crate::judging::{Sums, body_verdict, may_post, records_in};
use crate::limits::Limits;
use crate::lines::take_lines;
use crate::opening::{is_accept, is_fit, is_founding};
use crate::posted::Posted;
use crate::verdict::Verdict;
use access_digest::{WhoFault, who};
use archive_entry::{Entry, Kind};
use epoch_catalog::Catalog;
use exact_time::{Moment, OutOfMemory};
use http_digest::Secret;
use std::alloc::Global;
use std::collections::BTreeMap;

/// What is kept of a history to judge the next command: the catalog of its live lines, the numbers of each author's
/// entries, and how many entries, records and bytes it has. Which history it stands for says `IsAdmit` of
/// `specs/Admits.antt`.
#[derive(Drop)]
pub struct Admit {
    alloc: Global,
    catalog: Catalog,
    authors: Authors,
    sums: Sums,
}

// What an author wants to add.
#[derive(Clone, Copy)]
struct Draft<'a> {
    author: &'a [u8],
    seq: u64,
    kind: Kind,
    body: &'a [u8],
    // How many records the body has, where that is known.
    known: Option<usize>,
}

fn is_same_kind(a: Kind, b: Kind) -> bool
    ensures { result ≡ is_kind a b }
{
    match (a, b) {
        (Kind::Batch, Kind::Batch) => true,
        (Kind::Revise, Kind::Revise) => true,
        (Kind::Batch, Kind::Revise) => false,
        (Kind::Revise, Kind::Batch) => false,
    }
}

// The verdict beside the author's entry with that sequence number.
fn known(earlier: &Entry, kind: Kind, body: &[u8]) -> Verdict
    ensures { result ≡ (if is_kind earlier.now.kind kind && bytes_eq earlier.now.body body.now then Verdict.Repeat earlier.now.number else Verdict.OtherBody earlier.now.number) }
{
    if is_same_kind(earlier.kind, kind) && earlier.body.as_slice() == body {
        return Verdict::Repeat(earlier.number);
    }
    Verdict::OtherBody(earlier.number)
}

// Puts the number of an entry that has a sequence number behind its author's others, for which there is room.
fn put_entry(authors: &mut Authors, entry: &Entry)
    requires { has_room authors.old entry.now.author ≡ true }
    ensures { (a : Text) → numbers_in authors.new a ≡ with_entry entry.now a (numbers_in authors.old a) }
{
    if entry.seq != 0 {
        put_number(authors, entry.author.as_slice(), entry.number);
    }
}

impl Admit {
    /// Of no entries. Takes no memory.
    pub fn new(alloc: Global) -> Admit
        ensures { IsAdmit result [] }
    {
        Admit {
            alloc,
            catalog: Catalog::new(alloc),
            authors: BTreeMap::new(alloc),
            sums: Sums {
                count: 0,
                records: 0,
                bytes: 0,
            },
        }
    }

    /// The catalog of the live lines.
    pub fn catalog(&self) -> &Catalog
        ensures { (h : List Entry) → IsAdmit self.now h → result.now ≡ live_of h }
    {
        &self.catalog
    }

    /// How many entries the history has.
    pub fn count(&self) -> u64
        ensures { (h : List Entry) → IsAdmit self.now h → result ≡ length h }
    {
        self.sums.count
    }

    /// The number of the author's entry with that sequence number, from 1, found by look-ups.
    pub fn earlier(&self, author: &[u8], seq: u64) -> Option<u64>
        requires { 1 ≤ seq }
        ensures { (h : List Entry) → IsAdmit self.now h → result ≡ number_of (earlier_of h author.now seq) }
    {
        number_at(&self.authors, author, seq)
    }

    // The verdict on a command whose sequence number the author hasn't used.
    fn unknown(&self, draft: &Draft<'_>, limits: &Limits) -> Result<Verdict, OutOfMemory>
        requires { IfSome draft.now.known (IsCounted draft.now.kind draft.now.body.now) }
        ensures { IfOk result (λ v. v ≡ beside (totals self.now.catalog self.now.sums.count self.now.sums.records self.now.sums.bytes) limits.now (command draft.now.author.now draft.now.seq draft.now.kind draft.now.body.now) None (length (numbers_in self.now.authors draft.now.author.now))) }
    {
        let last = last_of(&self.authors, draft.author);
        if last < draft.seq && last + 1 < draft.seq {
            return Ok(Verdict::Gap(last));
        }
        body_verdict(
            self.alloc,
            &self.catalog,
            &self.sums,
            limits,
            draft.kind,
            draft.body,
            draft.known,
        )
    }

    fn judged(
        &self,
        draft: &Draft<'_>,
        earlier: Option<&Entry>,
        limits: &Limits,
    ) -> Result<Verdict, OutOfMemory>
        requires { IfSome draft.now.known (IsCounted draft.now.kind draft.now.body.now) }
        ensures { IfOk result (λ v. v ≡ judged (totals self.now.catalog self.now.sums.count self.now.sums.records self.now.sums.bytes) limits.now (command draft.now.author.now draft.now.seq draft.now.kind draft.now.body.now) (option_map (λ e. e.now) earlier.entry) (length (numbers_in self.now.authors draft.now.author.now))) }
    {
        if !may_post(&self.catalog, draft.author, draft.kind) {
            return Ok(Verdict::Role);
        }
        match earlier {
            Some(earlier) => Ok(known(earlier, draft.kind, draft.body)),
            None => self.unknown(draft, limits),
        }
    }

    // The verdict on the command of an author over the history that this stands for. `earlier` is the author's
    // entry with that sequence number, if there is one.
    fn judge_draft(
        &self,
        draft: &Draft<'_>,
        earlier: Option<&Entry>,
        limits: &Limits,
    ) -> Result<Verdict, OutOfMemory>
        requires { IfSome draft.now.known (IsCounted draft.now.kind draft.now.body.now) }
        ensures { IfOk result (λ v. (h : List Entry) → IsAdmit self.now h → option_map (λ e. e.now) earlier.entry ≡ earlier_of h draft.now.author.now draft.now.seq → v ≡ judged_of h limits.now (command draft.now.author.now draft.now.seq draft.now.kind draft.now.body.now)) }
    {
        self.judged(draft, earlier, limits)
    }

    /// The verdict on the command of an author, whoever it is. `earlier` is the entry that [`Admit::earlier`] names for
    /// the author and the posted sequence number, and none where it names none. How many records the body has may be
    /// known, as by [`known_records`](crate::known_records).
    pub fn judge_by(
        &self,
        author: &[u8],
        posted: &Posted,
        known: Option<usize>,
        earlier: Option<&Entry>,
        limits: &Limits,
    ) -> Result<Verdict, OutOfMemory>
        requires { IfSome known (IsCounted posted.now.kind posted.now.body) }
        ensures { IfOk result (λ v. (h : List Entry) → IsAdmit self.now h → option_map (λ e. e.now) earlier.entry ≡ earlier_of h author.now posted.now.seq → v ≡ judged_of h limits.now (command author.now posted.now.seq posted.now.kind posted.now.body)) }
    {
        let draft = Draft {
            author,
            seq: posted.seq,
            kind: posted.kind,
            body: posted.body.as_slice(),
            known,
        };
        self.judge_draft(&draft, earlier, limits)
    }

    /// The verdict on what was posted, over the history that this stands for. `earlier` is the entry that
    /// [`Admit::earlier`] names for the user whom the credentials name and the posted sequence number, and none where
    /// it names none.
    pub fn judge(
        &self,
        posted: &Posted,
        earlier: Option<&Entry>,
        moment: Moment,
        secret: &Secret,
        limits: &Limits,
    ) -> Result<Verdict, OutOfMemory>
        ensures { IfOk result (λ v. (h : List Entry) → IsAdmit self.now h → IsEarlierEntry h posted.now moment secret.now (option_map (λ e. e.now) earlier.entry) → v ≡ verdict_of h posted.now moment secret.now limits.now) }
    {
        match who(
            self.alloc,
            &self.catalog,
            &posted.credentials,
            moment,
            secret,
        ) {
            Ok(author) => self.judge_by(author.as_slice(), posted, None, earlier, limits),
            Err(WhoFault::Denied(denial)) => Ok(Verdict::Denied(denial)),
            Err(WhoFault::OutOfMemory) => Err(OutOfMemory),
        }
    }

    // Whether an entry is a later one, next after the history that this stands for. How many records it has may be
    // known.
    fn is_later(&self, entry: &Entry, known: Option<usize>) -> Result<bool, OutOfMemory>
        requires { IfSome known (IsCounted entry.now.kind entry.now.body) }
        ensures { IfOk result (λ is. (h : List Entry) → IsAdmit self.now h → is ≡ is_later h entry.now) }
    {
        if entry.number != self.sums.count + 1 {
            return Ok(false);
        }
        if !is_fit(entry) {
            return Ok(false);
        }
        let draft = Draft {
            author: entry.author.as_slice(),
            seq: entry.seq,
            kind: entry.kind,
            body: entry.body.as_slice(),
            known,
        };
        if let Some(_number) = self.earlier(draft.author, draft.seq) {
            return Ok(false);
        }
        let verdict = self.judge_draft(&draft, None, &Limits::FULL)?;
        Ok(is_accept(&verdict))
    }

    // Whether the entry is the next one. How many records it has may be known.
    fn is_next(&self, entry: &Entry, known: Option<usize>) -> Result<bool, OutOfMemory>
        requires { IfSome known (IsCounted entry.now.kind entry.now.body) }
        ensures { IfOk result (λ is. (h : List Entry) → IsAdmit self.now h → is ≡ is_next h entry.now) }
    {
        if self.sums.count == 0 {
            return is_founding(self.alloc, entry);
        }
        self.is_later(entry, known)
    }

    /// Whether the entry is the next one of the history that this stands for, which is then lawful with this entry at
    /// its end, if it is lawful itself.
    pub fn next_lawful(&self, entry: &Entry) -> Result<bool, OutOfMemory>
        ensures { IfOk result (λ is. (h : List Entry) → IsAdmit self.now h → is ≡ is_next h entry.now) }
    {
        self.is_next(entry, None)
    }

    /// Takes in the next entry, which has so many records: `note` without a walk over them. Where memory is missing,
    /// nothing changes.
    pub fn note_counted(&mut self, entry: &Entry, records: usize) -> Result<(), OutOfMemory>
        requires next { IsNextOf self.old entry.now }
        requires counted { IsCounted entry.now.kind entry.now.body records }
        ensures ok { OnOk result ((h : List Entry) → IsAdmit self.old h → is_next h entry.now ≡ true → IsAdmit self.new (h ++ entry.now ∷ [])) }
        ensures err { OnErr result ((h : List Entry) → IsAdmit self.old h → IsAdmit self.new h) }
    {
        let sums = self.sums.with_entry(entry, records);
        make_room(self.alloc, &mut self.authors, entry.author.as_slice())?;
        take_lines(self.alloc, &mut self.catalog, entry)?;
        put_entry(&mut self.authors, entry);
        self.sums = sums;
        Ok(())
    }

    /// Takes in the next entry. Where memory is missing, nothing changes.
    pub fn note(&mut self, entry: &Entry) -> Result<(), OutOfMemory>
        requires { IsNextOf self.old entry.now }
        ensures ok { OnOk result ((h : List Entry) → IsAdmit self.old h → is_next h entry.now ≡ true → IsAdmit self.new (h ++ entry.now ∷ [])) }
        ensures err { OnErr result ((h : List Entry) → IsAdmit self.old h → IsAdmit self.new h) }
    {
        let records = records_in(entry.kind, entry.body.as_slice());
        self.note_counted(entry, records)
    }

    /// Whether the entry, which has so many records, is the next one, and takes it in if it is: `next_lawful` and `note`
    /// without a walk over the records, which `decode_counted` counted. Else, and where memory is missing, nothing
    /// changes.
    pub fn note_next(&mut self, entry: &Entry, records: usize) -> Result<bool, OutOfMemory>
        requires stands { StandsForSome self.old }
        requires counted { IsCounted entry.now.kind entry.now.body records }
        ensures next { IfOk result (λ is. (h : List Entry) → IsAdmit self.old h → is ≡ is_next h entry.now) }
        ensures taken { IfOk result (λ is. (h : List Entry) → IsAdmit self.old h → IsAdmit self.new (if is then h ++ entry.now ∷ [] else h)) }
        ensures err { OnErr result ((h : List Entry) → IsAdmit self.old h → IsAdmit self.new h) }
    {
        if !self.is_next(entry, Some(records))? {
            return Ok(false);
        }
        self.note_counted(entry, records)?;
        Ok(true)
    }
}
