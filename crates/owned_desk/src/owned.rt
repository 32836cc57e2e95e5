//! Asks and submits.
ghost use Rattle.std.specs.Prelude.{◌≡◌, true, None, OnErr, OnOk, IsErrOf};
ghost use Rattle.archive_entry.specs.declared.entry.Entry.{Entry};
ghost use Rattle.archive_post.specs.Waiting.{committed};
ghost use Rattle.archive_post.specs.Posts.{Commits, IsTheOne, Posts};
ghost use Rattle.desk_words.specs.Counts.{RoseWithin};
ghost use Rattle.desk_words.specs.Posting.{can_be_posted, posted_entry};
ghost use Rattle.desk_words.specs.Setting.{setting};
ghost use Rattle.desk_words.specs.Stand.{Asks, Submits, CatchesUp};
ghost use Rattle.archive_world.specs.Held.{GoesBy, LeavesHeld, held};
ghost use Rattle.archive_world.specs.Submitting.{Makes, post_events};
ghost use Rattle.owned_desk.specs.Owned.{Counted, counts, stand_over};

use crate::kept::OwnedDesk;
use archive_state::{Limits, Posted, Verdict};
use desk_words::{Answer, Desk, Question, SubmitFault, Submitted, outcome};
use disk_model::Disk;
use exact_time::{Moment, OutOfMemory};
use http_digest::Secret;
use std::alloc::Global;
use std::sync::Wait;

impl<D: Disk> OwnedDesk<D> {
    // Adds what waits to what is seen.
    fn flush(&mut self) -> Result<(), OutOfMemory>
        ensures same { (self.new.intake.archive ≡ self.old.intake.archive) × (self.new.stops ≡ self.old.stops) × (self.new.caught ≡ self.old.caught) × (self.new.made ≡ self.old.made) }
        ensures ok { OnOk result ((self.new.state ≡ committed self.old.state self.old.intake.waiting) × (self.new.intake.waiting ≡ None) × (self.new.intake.noted ≡ true)) }
        ensures err { OnErr result ((self.new.state ≡ self.old.state) × (self.new.intake.waiting ≡ self.old.intake.waiting)) }
    {
        let OwnedDesk { intake, state, .. } = self;
        intake.show(state)
    }

    // Posts, and counts what is made and what is stopped.
    fn post(
        &mut self,
        alloc: Global,
        posted: &Posted,
        moment: Moment,
        secret: &Secret,
        limits: &Limits,
    ) -> Result<Verdict, SubmitFault>
        requires fit { can_be_posted posted.now moment ≡ true }
        requires free { (self.old.intake.waiting ≡ None) × (self.old.intake.noted ≡ true) }
        ensures same { (self.new.state ≡ self.old.state) × (self.new.caught ≡ self.old.caught) }
        ensures row { Posts self.old.intake self.new.intake self.old.state posted.now moment (setting secret.now limits.now) result }
        ensures counts { Counted (counts self.old.stops self.old.caught self.old.made) (counts self.new.stops self.new.caught self.new.made) result }
        ensures disk { (e : Entry) → IsTheOne (posted_entry self.old.state posted.now moment (setting secret.now limits.now)) e
            → Commits D.view self.old.intake.archive self.new.intake.archive self.old.state e (IsErrOf result SubmitFault.Stopped) }
        ensures steps { GoesBy (D.view self.old.intake.archive.disk) (D.view self.new.intake.archive.disk)
            (held self.old.state self.old.state self.old.intake.archive.hand)
            (held (committed self.old.state self.new.intake.waiting) self.old.state self.new.intake.archive.hand)
            (post_events result self.old.intake.archive.hand (posted_entry self.old.state posted.now moment (setting secret.now limits.now))) }
        ensures left { LeavesHeld (D.view self.new.intake.archive.disk) (held (committed self.old.state self.new.intake.waiting) self.old.state self.new.intake.archive.hand) }
    {
        let _count = self.count();
        let OwnedDesk {
            intake,
            state,
            stops,
            made,
            ..
        } = self;
        let told = intake.post(alloc, state.entries(), posted, moment, secret, limits);
        match told {
            Ok(Verdict::Accept(_)) => *made = made.saturating_add(1),
            Err(SubmitFault::Stopped) => *stops = stops.saturating_add(1),
            _ => {}
        }
        let _left = self.count();
        told
    }
}

impl<D: Disk> Desk for OwnedDesk<D> {
    ghost stand = { λ d. stand_over D.view d.intake d.state (counts d.stops d.caught d.made) };

    ghost lawful = { λ d. d.stands.lawful };

    fn ask(
        &mut self,
        alloc: Global,
        question: &Question,
        secret: &Secret,
        limits: &Limits,
    ) -> Result<Answer, OutOfMemory>
        ensures row { Asks (stand_over D.view self.old.intake self.old.state (counts self.old.stops self.old.caught self.old.made))
            (stand_over D.view self.new.intake self.new.state (counts self.new.stops self.new.caught self.new.made)) question.now (setting secret.now limits.now) result }
        // A question leaves the desk as it is.
        ensures same { self.new ≡ self.old }
    {
        let told = outcome(alloc, &self.state, question, secret, limits)?;
        Ok(Answer {
            front: self.state.entries().len() as u64,
            outcome: told,
        })
    }

    fn submit<R: Wait>(
        &mut self,
        _rt: &R,
        alloc: Global,
        posted: &Posted,
        moment: Moment,
        secret: &Secret,
        limits: &Limits,
    ) -> Result<Submitted, SubmitFault>
        requires { can_be_posted posted.now moment ≡ true }
        ensures row { Submits (stand_over D.view self.old.intake self.old.state (counts self.old.stops self.old.caught self.old.made))
            (stand_over D.view self.new.intake self.new.state (counts self.new.stops self.new.caught self.new.made)) posted.now moment (setting secret.now limits.now) result }
        // It stops exactly once in a call that answers so, and in no other.
        ensures stopped { IsErrOf result SubmitFault.Stopped → RoseWithin 1 1 self.old.stops self.new.stops }
        ensures judged { OnOk result (self.new.stops ≡ self.old.stops) }
        ensures short { IsErrOf result SubmitFault.OutOfMemory → self.new.stops ≡ self.old.stops }
        // What happens to the archive, event by event.
        ensures steps { Makes (D.view self.old.intake.archive.disk) (D.view self.new.intake.archive.disk)
            (held (committed self.old.state self.old.intake.waiting) self.old.state self.old.intake.archive.hand)
            (held (committed self.new.state self.new.intake.waiting) self.new.state self.new.intake.archive.hand)
            (posted_entry (committed self.old.state self.old.intake.waiting) posted.now moment (setting secret.now limits.now)) result }
        ensures disk { (e : Entry) → IsTheOne (posted_entry (committed self.old.state self.old.intake.waiting) posted.now moment (setting secret.now limits.now)) e
            → Commits D.view self.old.intake.archive self.new.intake.archive (committed self.old.state self.old.intake.waiting) e (IsErrOf result SubmitFault.Stopped) }
    {
        let _count = self.count();
        self.flush()?;
        let judged = self.front();
        let verdict = self.post(alloc, posted, moment, secret, limits)?;
        self.flush()?;
        Ok(Submitted {
            verdict,
            judged,
            front: self.front(),
        })
    }

    fn catch_up<R: Wait>(&mut self, _rt: &R)
        ensures row { CatchesUp (stand_over D.view self.old.intake self.old.state (counts self.old.stops self.old.caught self.old.made))
            (stand_over D.view self.new.intake self.new.state (counts self.new.stops self.new.caught self.new.made)) }
        ensures stops { self.new.stops ≡ self.old.stops }
        ensures intake { self.new.intake ≡ self.old.intake }
    {
        self.caught = self.caught.saturating_add(1);
    }

    fn front(&self) -> u64 {
        self.state.entries().len() as u64
    }

    fn stops(&self) -> u64 {
        self.stops
    }
}
