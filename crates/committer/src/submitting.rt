//! Submits.
ghost use Rattle.std.specs.Prelude.{◌≡◌, ◌+◌, true, None, IsErrOf};
ghost use Rattle.archive_entry.specs.declared.entry.Entry.{Entry};
ghost use Rattle.archive_post.specs.Waiting.{committed};
ghost use Rattle.archive_post.specs.Posts.{Commits, IsTheOne, Posts, made_in, stops_in};
ghost use Rattle.desk_words.specs.Posting.{can_be_posted, posted_entry};
ghost use Rattle.desk_words.specs.Setting.{setting};
ghost use Rattle.archive_world.specs.Held.{GoesBy, LeavesHeld, held};
ghost use Rattle.archive_world.specs.Submitting.{Makes, post_events};
ghost use Rattle.committer.specs.Rows.{Counted, SubmitsLocked, locked};

use crate::kept::Committer;
use archive_history::Naming;
use archive_state::{Limits, Posted, Verdict};
use desk_words::{SubmitFault, Submitted};
use disk_model::Disk;
use exact_time::Moment;
use http_digest::Secret;
use std::alloc::Global;
use std::sync::Wait;
use std::sync::ledger::{Book, Ledger};
use two_copies::{Carries, Shares};

// Counts what came of a post.
fn count_in<L: Ledger, S: Ledger>(
    shares: &mut Shares<L, S>,
    made: &mut Book<L>,
    stops: &mut Book<S>,
    told: &Result<Verdict, SubmitFault>,
)
    ensures shares { Counted shares.old shares.new told.now }
    ensures made { made.new.total ≡ made.old.total + made_in told.now }
    ensures stops { stops.new.total ≡ stops.old.total + stops_in told.now }
{
    match told {
        Ok(Verdict::Accept(_)) => shares.add_entry(made),
        Err(SubmitFault::Stopped) => shares.add_stop(stops),
        _ => {}
    }
}

impl<D: Disk, J: Naming, T: Carries<J> + Drop, L: Ledger, S: Ledger> Committer<D, J, T, L, S> {
    // Posts over the committed history, which is shown: its entries are those of the copy which is shown. Counts what is
    // made and what is stopped.
    fn post(
        &mut self,
        alloc: Global,
        shares: &mut Shares<L, S>,
        posted: &Posted,
        moment: Moment,
        secret: &Secret,
        limits: &Limits,
    ) -> Result<Verdict, SubmitFault>
        requires fit { can_be_posted posted.now moment ≡ true }
        requires flushed { (self.old.front ≡ self.old.latest) × (self.old.intake.waiting ≡ None) × (self.old.intake.noted ≡ true) }
        ensures same { (self.new.latest ≡ self.old.latest) × (self.new.front ≡ self.old.front) }
        ensures row { Posts self.old.intake self.new.intake self.old.latest posted.now moment (setting secret.now limits.now) result }
        ensures counted { Counted shares.old shares.new result }
        ensures disk { (e : Entry) → IsTheOne (posted_entry self.old.latest posted.now moment (setting secret.now limits.now)) e
            → Commits D.view self.old.intake.archive self.new.intake.archive self.old.latest e (IsErrOf result SubmitFault.Stopped) }
        ensures silent { self.old.intake.archive.stopped ≡ true → self.new.intake.archive ≡ self.old.intake.archive }
        ensures steps { GoesBy (D.view self.old.intake.archive.disk) (D.view self.new.intake.archive.disk)
            (held self.old.latest self.old.latest self.old.intake.archive.hand)
            (held (committed self.old.latest self.new.intake.waiting) self.old.latest self.new.intake.archive.hand)
            (post_events result self.old.intake.archive.hand (posted_entry self.old.latest posted.now moment (setting secret.now limits.now))) }
        ensures left { LeavesHeld (D.view self.new.intake.archive.disk) (held (committed self.old.latest self.new.intake.waiting) self.old.latest self.new.intake.archive.hand) }
    {
        let _count = self.count();
        let copy = self.writer.published();
        let told = self.intake.post(
            alloc,
            copy.state().entries(),
            posted,
            moment,
            secret,
            limits,
        );
        count_in(shares, &mut self.made, &mut self.stops, &told);
        let _left = self.count();
        told
    }

    /// Judges what is posted over the committed history, and commits and shows the entry of an accepted one. An entry
    /// that was committed and isn't shown yet is shown first. After `Stopped` the disk has failed, now or earlier: open
    /// the archive again. After `OutOfMemory` the history is as before, or has the command's entry besides. It waits for
    /// those who still look at the copy that is changed.
    pub fn submit<R: Wait>(
        &mut self,
        rt: &R,
        alloc: Global,
        shares: &mut Shares<L, S>,
        posted: &Posted,
        moment: Moment,
        secret: &Secret,
        limits: &Limits,
    ) -> Result<Submitted, SubmitFault>
        requires { can_be_posted posted.now moment ≡ true }
        ensures row { SubmitsLocked (locked (committed self.old.latest self.old.intake.waiting) self.old.front shares.old)
            (locked (committed self.new.latest self.new.intake.waiting) self.new.front shares.new)
            posted.now moment (setting secret.now limits.now) result }
        ensures disk { (e : Entry) → IsTheOne (posted_entry (committed self.old.latest self.old.intake.waiting) posted.now moment (setting secret.now limits.now)) e
            → Commits D.view self.old.intake.archive self.new.intake.archive (committed self.old.latest self.old.intake.waiting) e (IsErrOf result SubmitFault.Stopped) }
        // What happens to what lies under the lock, event by event.
        ensures steps { Makes (D.view self.old.intake.archive.disk) (D.view self.new.intake.archive.disk)
            (held (committed self.old.latest self.old.intake.waiting) self.old.front self.old.intake.archive.hand)
            (held (committed self.new.latest self.new.intake.waiting) self.new.front self.new.intake.archive.hand)
            (posted_entry (committed self.old.latest self.old.intake.waiting) posted.now moment (setting secret.now limits.now)) result }
        // After a commit that failed nothing is added, whatever the answer.
        ensures halted { self.old.intake.archive.stopped ≡ true
            → (self.new.intake.archive ≡ self.old.intake.archive)
            × (committed self.new.latest self.new.intake.waiting ≡ committed self.old.latest self.old.intake.waiting)
            × (shares.new.made ≡ shares.old.made) }
    {
        let judged = self.count();
        self.flush(rt)?;
        let verdict = self.post(alloc, shares, posted, moment, secret, limits)?;
        self.flush(rt)?;
        Ok(Submitted {
            verdict,
            judged,
            front: self.front.count(),
        })
    }
}
