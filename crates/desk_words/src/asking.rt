//! Questions, answers, and the trait of all desks.
ghost use Rattle.std.specs.Prelude.{◌≡◌, length, true};
ghost use Rattle.archive_state.specs.Lawful.{IsLawful};
ghost use Rattle.desk_words.specs.Posting.{can_be_posted};
ghost use Rattle.desk_words.specs.Setting.{setting};
ghost use Rattle.desk_words.specs.Stand.{Stand, Asks, Submits, CatchesUp};

use access_digest::Denial;
use archive_state::{Limits, Posted, Verdict};
use dataselect::DataQuery;
use exact_time::{Bytes, Moment, OutOfMemory};
use http_digest::{Credentials, Secret};
use query_words::{AvailQuery, EventQuery, StationQuery};
use std::alloc::Global;
use std::sync::Wait;

/// What is asked for.
#[derive(Debug, Drop)]
pub enum Wanted {
    /// Nothing but who asks.
    Nothing,
    /// Records (FDSN dataselect).
    Waves(DataQuery),
    /// Time spans of records (fdsnws-availability, query).
    Spans(AvailQuery),
    /// Extents of records (fdsnws-availability, extent).
    Extent(AvailQuery),
    /// Epochs (FDSN station, format=text).
    Station(StationQuery),
    /// Events (FDSN event, format=text).
    Event(EventQuery),
    /// The entries from that of a number on, as a replica copies them.
    Entries { from: u64 },
}

/// A question to a desk.
#[derive(Debug, Drop)]
pub struct Question {
    pub wanted: Wanted,
    /// Who asks; None for nobody in particular.
    pub credentials: Option<Credentials>,
    /// How many entries the answer has to rest on at least.
    pub least: u64,
    /// When it is asked.
    pub moment: Moment,
}

/// What a question is answered with, in the order of the tests.
#[derive(Debug, Drop)]
pub enum Outcome {
    /// There are fewer entries than the question wants.
    Behind,
    /// The credentials name no user.
    Denied(Denial),
    /// Nothing was wanted.
    Known,
    /// Entries are wanted, and no user asks, or one without the role replica.
    NoRole,
    /// There is nothing that is asked for.
    Empty,
    /// There are so many bytes, or lines, more than the limit.
    TooLarge(u64),
    /// The bytes or the text that was asked for.
    Body(Bytes),
}

/// An answer, and the number of entries that it rests on.
#[derive(Debug, Drop)]
pub struct Answer {
    pub front: u64,
    pub outcome: Outcome,
}

/// What became of a posted command.
#[derive(Clone, Copy, Debug, PartialEq, Eq)]
pub struct Submitted {
    pub verdict: Verdict,
    /// Over how many entries it was judged.
    pub judged: u64,
    /// How many entries are seen now.
    pub front: u64,
}

/// Why a posted command has no verdict.
#[derive(Clone, Copy, Debug, PartialEq, Eq)]
pub enum SubmitFault {
    /// The disk failed, now or earlier: open the archive again.
    Stopped,
    /// Memory ran out. The command's entry may be committed or not.
    OutOfMemory,
}

impl From<OutOfMemory> for SubmitFault {
    ghost use Rattle.desk_words.specs.declared.asking.SubmitFault.TheVariants.{OutOfMemory as NoMemory};

    ghost from_gives = { λ _ fault. fault ≡ NoMemory };

    fn from(_error: OutOfMemory) -> SubmitFault {
        SubmitFault::OutOfMemory
    }
}

/// Answers questions over a history that was seen, and adds to it what is posted. What each call does is a relation of
/// what is known of the desk before and after it (`specs/Stand.antt`).
pub trait Desk {
    /// What is known of the desk at one moment.
    ghost stand: { Self → Stand };

    /// Answers a question over what is seen after the call. It takes no lock, and waits for nobody.
    fn ask(
        &mut self,
        alloc: Global,
        question: &Question,
        secret: &Secret,
        limits: &Limits,
    ) -> Result<Answer, OutOfMemory>
        ensures { Asks (stand self.old) (stand self.new) question.now (setting secret.now limits.now) result };

    /// Judges what is posted over a history that begins with what was seen. On Accept the command's entry is the last
    /// one that is seen after the call. It may wait for the lock. All memory for the journal is taken before the first
    /// disk write.
    fn submit<R: Wait>(
        &mut self,
        rt: &R,
        alloc: Global,
        posted: &Posted,
        moment: Moment,
        secret: &Secret,
        limits: &Limits,
    ) -> Result<Submitted, SubmitFault>
        requires { can_be_posted posted.now moment ≡ true }
        ensures { Submits (stand self.old) (stand self.new) posted.now moment (setting secret.now limits.now) result };

    /// Sees what others published. It may wait for the lock, and takes no memory.
    fn catch_up<R: Wait>(&mut self, rt: &R)
        ensures { CatchesUp (stand self.old) (stand self.new) };

    /// How many entries are seen.
    fn front(&self) -> u64
        ensures { result ≡ length (stand self.now).seen };

    /// How many submits a disk stopped.
    fn stops(&self) -> u64
        ensures { result ≡ (stand self.now).stops };

    /// What was seen is a lawful history.
    ghost lawful: { (desk : Self) → IsLawful (stand desk).seen };
}
