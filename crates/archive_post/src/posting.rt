//! Commits what was posted, where it is accepted.
ghost use Rattle.std.specs.Prelude.{◌≡◌, ◌++◌, ◌<◌, true, false, None, Some, List, IfOk, IfSome, IsErrOf};
ghost use Rattle.archive_entry.specs.Bodies.{IsCounted};
ghost use Rattle.archive_entry.specs.Spelling.{spelling};
ghost use Rattle.archive_entry.specs.declared.entry.Entry.{Entry};
ghost use Rattle.archive_state.specs.Admits.{IsAdmit, IsNextOf};
ghost use Rattle.archive_state.specs.Lawful.{is_next};
ghost use Rattle.desk_words.specs.Posting.{can_be_posted, posted_entry};
ghost use Rattle.desk_words.specs.Setting.{setting};
ghost use Rattle.archive_post.specs.Intake.{StandsFor, ComesNext};
ghost use Rattle.archive_post.specs.Posts.{Adds, Posts, Commits, IsTheOne};
ghost use Rattle.archive_post.specs.Waiting.{noted_of};

use crate::judging::{Judged, judge};
use crate::kept::Intake;
use archive_entry::Entry;
use archive_journal::Frame;
use archive_state::{Admit, Limits, Posted, Verdict};
use desk_words::SubmitFault;
use disk_model::Disk;
use exact_time::{Moment, OutOfMemory, Text};
use http_digest::Secret;
use std::alloc::Global;

// The entry of a command that was accepted.
fn entry_from(
    alloc: Global,
    number: u64,
    author: Text,
    posted: &Posted,
    moment: Moment,
) -> Result<Entry, OutOfMemory>
    ensures { IfOk result (λ entry. entry ≡ record { number = number; moment = moment; author = author; seq = posted.now.seq; kind = posted.now.kind; body = posted.now.body }) }
{
    Ok(Entry {
        number,
        moment,
        author,
        seq: posted.seq,
        kind: posted.kind,
        body: posted.body.copy(alloc)?.share()?,
    })
}

// Judging takes in the entry that comes next, if there is memory; how many records it has may be known.
fn noted(admit: &mut Admit, entry: &Entry, records: Option<usize>) -> bool
    requires next { IsNextOf admit.old entry.now }
    requires counted { IfSome records (IsCounted entry.now.kind entry.now.body) }
    ensures { (h : List Entry) → IsAdmit admit.old h → is_next h entry.now ≡ true → IsAdmit admit.new (h ++ noted_of result (Some entry.now)) }
{
    let done = match records {
        Some(records) => admit.note_counted(entry, records),
        None => admit.note(entry),
    };
    done.is_ok()
}

impl<D: Disk> Intake<D> {
    // The commit of the entry that comes next. It takes no memory that it needs: where there is none, noting waits.
    fn commit(
        &mut self,
        entry: Entry,
        frame: &Frame,
        records: Option<usize>,
    ) -> Result<(), SubmitFault>
        requires next { ComesNext D.view self.old entry }
        requires free { self.old.waiting ≡ None }
        requires room { 0 < self.old.archive.spare }
        requires frame { frame.now ≡ spelling entry }
        requires counted { IfSome records (IsCounted entry.kind entry.body) }
        requires running { self.old.archive.stopped ≡ false }
        ensures row { Adds self.old self.new entry result }
        ensures stands { (h : List Entry) → StandsFor D.view self.old h → is_next h entry ≡ true → StandsFor D.view self.new h }
        ensures disk { (h : List Entry) → StandsFor D.view self.old h → is_next h entry ≡ true → Commits D.view self.old.archive self.new.archive h entry (IsErrOf result SubmitFault.Stopped) }
    {
        let _count = self.archive.count();
        let Intake {
            archive,
            admit,
            waiting,
            noted: is_noted,
        } = self;
        match archive.commit(entry, frame) {
            Ok(entry) => {
                *is_noted = noted(admit, &entry, records);
                *waiting = Some(entry);
                Ok(())
            }
            Err(_) => Err(SubmitFault::Stopped),
        }
    }

    // Adds the entry that comes next. All memory for the journal is taken before the first disk write.
    pub(crate) fn add(
        &mut self,
        alloc: Global,
        entry: Entry,
        records: Option<usize>,
    ) -> Result<(), SubmitFault>
        requires next { ComesNext D.view self.old entry }
        requires free { self.old.waiting ≡ None }
        requires counted { IfSome records (IsCounted entry.kind entry.body) }
        ensures row { Adds self.old self.new entry result }
        ensures stands { (h : List Entry) → StandsFor D.view self.old h → is_next h entry ≡ true → StandsFor D.view self.new h }
        ensures disk { (h : List Entry) → StandsFor D.view self.old h → is_next h entry ≡ true → Commits D.view self.old.archive self.new.archive h entry (IsErrOf result SubmitFault.Stopped) }
        ensures silent { self.old.archive.stopped ≡ true → self.new.archive ≡ self.old.archive }
    {
        let _count = self.count();
        if self.is_stopped() {
            return Err(SubmitFault::Stopped);
        }
        let frame = self.archive.prepare(alloc, &entry)?;
        self.commit(entry, &frame, records)
    }

    /// Judges what is posted over the history for which this stands, of which these are the entries, and commits the
    /// entry of an accepted one, which then waits. After `Stopped` the disk has failed, now or earlier: open the archive
    /// again. After `OutOfMemory` nothing is committed.
    pub fn post(
        &mut self,
        alloc: Global,
        entries: &[Entry],
        posted: &Posted,
        moment: Moment,
        secret: &Secret,
        limits: &Limits,
    ) -> Result<Verdict, SubmitFault>
        requires fit { can_be_posted posted.now moment ≡ true }
        requires stands { StandsFor D.view self.old entries.now }
        requires free { (self.old.waiting ≡ None) × (self.old.noted ≡ true) }
        ensures stands { StandsFor D.view self.new entries.now }
        ensures row { Posts self.old self.new entries.now posted.now moment (setting secret.now limits.now) result }
        ensures disk { (e : Entry) → IsTheOne (posted_entry entries.now posted.now moment (setting secret.now limits.now)) e
            → Commits D.view self.old.archive self.new.archive entries.now e (IsErrOf result SubmitFault.Stopped) }
        // After a commit that failed the disk gets no call, whatever the answer.
        ensures silent { self.old.archive.stopped ≡ true → self.new.archive ≡ self.old.archive }
    {
        let _count = self.count();
        let Judged {
            verdict,
            author,
            records,
        } = judge(alloc, &self.admit, entries, posted, moment, secret, limits)?;
        let Verdict::Accept(number) = verdict else {
            return Ok(verdict);
        };
        let entry = entry_from(alloc, number, author, posted, moment)?;
        self.add(alloc, entry, records)?;
        Ok(verdict)
    }
}
