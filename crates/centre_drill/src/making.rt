//! Makes the archive.
ghost use Rattle.std.specs.Prelude.{◌≡◌, ◌+◌, ◌*◌, ◌++◌, ◌∷◌, [], ◌<◌, ◌≤◌, true, IfOk, IfErr, OnOk, IsErrOf};
ghost use Rattle.archive_post.specs.Intake.{StandsFor};
ghost use Rattle.archive_post.specs.Posts.{IsAdded};
ghost use Rattle.archive_state.specs.Admits.{IsAdmit};
ghost use Rattle.archive_state.specs.Lawful.{IsLawful, founding_entry, is_next};
ghost use Rattle.archive_state.specs.Verdicts.{command, entry_of};
ghost use Rattle.centre_drill.specs.History.{begun, epoch, feed_entry, ha1, made_history, operator};
ghost use Rattle.centre_drill.specs.Making.{Begins, IsMakingStop, IsSilentStop, IsUnderWay, Runs, disk_left, outcome_of};

use crate::ending::DrillStop;
use crate::records::made_body;
use archive_entry::{Entry, Kind};
use archive_log::Archive;
use archive_post::{AppendFault, Intake};
use archive_state::{Admit, State, founding_entry};
use disk_model::Disk;
use exact_time::{Bytes, Moment, OutOfMemory, Text};
use std::alloc::Global;

const OPERATOR: &str = "op";

const FEED: &str = "drill";

// The digest that both users have.
const HA1: &str = "00000000000000000000000000000000";

const FEED_LINE: &[u8] = b"USR|drill|00000000000000000000000000000000|feed\n";

// How many records a batch has, but for the last one.
const BATCH: u32 = 1000;

// The moment of every entry.
const EPOCH: Moment = Moment { micros: 0 };

/// An archive that is being made, and the state of its history.
#[derive(Drop)]
pub(crate) struct Making<D: Disk> {
    pub(crate) intake: Intake<D>,
    pub(crate) state: State,
}

// Judging and the state take in an entry.
fn take_in(admit: &mut Admit, state: &mut State, entry: &Entry) -> Result<(), OutOfMemory>
    requires admits { IsAdmit admit.old state.old }
    requires lawful { IsLawful state.old }
    requires next { is_next state.old entry.now ≡ true }
    ensures admits { OnOk result (IsAdmit admit.new state.new) }
    ensures state { OnOk result (state.new ≡ state.old ++ entry.now ∷ []) }
{
    admit.note(entry)?;
    state.absorb(entry)
}

// What judges the second entry, and the state of the first.
fn first_taken(alloc: Global) -> Result<(Admit, State), OutOfMemory>
    ensures admits { IfOk result (λ taken. IsAdmit taken.0 taken.1) }
    ensures state { IfOk result (λ taken. taken.1 ≡ founding_entry operator ha1 ∷ []) }
{
    let mut admit = Admit::new(alloc);
    let mut state = State::new(alloc);
    let entry = founding_entry(alloc, OPERATOR, HA1)?;
    take_in(&mut admit, &mut state, &entry)?;
    Ok((admit, state))
}

impl<D: Disk> Making<D> {
    // Founds the archive.
    fn found(alloc: Global, disk: D) -> Result<Making<D>, (D, DrillStop)>
        ensures way { IfOk result (λ m. IsUnderWay D.view m.intake m.state) }
        ensures first { IfOk result (λ m. m.state ≡ founding_entry operator ha1 ∷ []) }
        ensures stop { IfErr (outcome_of result) IsSilentStop }
        ensures disk { Begins (D.view disk) (D.view (disk_left result)) (outcome_of result) }
    {
        let archive = match Archive::found(alloc, disk, OPERATOR, HA1) {
            Ok(archive) => archive,
            Err((disk, fault)) => return Err((disk, DrillStop::from(fault))),
        };
        match first_taken(alloc) {
            Ok((admit, state)) => Ok(Making {
                intake: Intake::of(archive, admit),
                state,
            }),
            Err(OutOfMemory) => Err((archive.close(), DrillStop::OutOfMemory)),
        }
    }

    // Appends the entry that comes next.
    fn append(&mut self, alloc: Global, entry: Entry) -> Result<(), DrillStop>
        requires way { IsUnderWay D.view self.old.intake self.old.state }
        requires next { is_next self.old.state entry ≡ true }
        ensures state { self.new.state ≡ self.old.state }
        ensures added { OnOk result (IsAdded self.old.intake self.new.intake entry) }
        ensures stands { StandsFor D.view self.new.intake self.old.state }
        ensures stop { IfErr result IsMakingStop }
        ensures disk { Runs (D.view self.old.intake.archive.disk) (D.view self.new.intake.archive.disk) (IsErrOf result DrillStop.DiskFault) }
    {
        match self.intake.append(alloc, entry) {
            Ok(()) => Ok(()),
            Err(AppendFault::Stopped) => Err(DrillStop::DiskFault),
            Err(AppendFault::OutOfMemory) => Err(DrillStop::OutOfMemory),
            Err(AppendFault::NotNext) => unreachable!(),
        }
    }

    // Commits the entry that comes next, and takes it in.
    fn add(&mut self, alloc: Global, entry: Entry) -> Result<(), DrillStop>
        requires way { IsUnderWay D.view self.old.intake self.old.state }
        requires next { is_next self.old.state entry ≡ true }
        ensures way { OnOk result (IsUnderWay D.view self.new.intake self.new.state) }
        ensures added { OnOk result (self.new.state ≡ self.old.state ++ entry ∷ []) }
        ensures stop { IfErr result IsMakingStop }
        ensures disk { Runs (D.view self.old.intake.archive.disk) (D.view self.new.intake.archive.disk) (IsErrOf result DrillStop.DiskFault) }
    {
        self.append(alloc, entry)?;
        let Making { intake, state } = self;
        intake.show(state)?;
        Ok(())
    }

    // Adds the entry of an author's command.
    fn post(
        &mut self,
        alloc: Global,
        author: &str,
        kind: Kind,
        seq: u64,
        body: Bytes,
    ) -> Result<(), DrillStop>
        requires way { IsUnderWay D.view self.old.intake self.old.state }
        requires next { is_next self.old.state (entry_of self.old.state (command author.now seq kind body) epoch) ≡ true }
        ensures way { OnOk result (IsUnderWay D.view self.new.intake self.new.state) }
        ensures added { OnOk result (self.new.state ≡ self.old.state ++ entry_of self.old.state (command author.now seq kind body) epoch ∷ []) }
        ensures stop { IfErr result IsMakingStop }
        ensures disk { Runs (D.view self.old.intake.archive.disk) (D.view self.new.intake.archive.disk) (IsErrOf result DrillStop.DiskFault) }
    {
        let mut name = Text::new(alloc);
        name.push(author)?;
        let entry = Entry {
            number: self.intake.count() + 1,
            moment: EPOCH,
            author: name,
            seq,
            kind,
            body: body.share()?,
        };
        self.add(alloc, entry)
    }

    // Adds the user whose batches the records are.
    fn add_feed(&mut self, alloc: Global) -> Result<(), DrillStop>
        requires way { IsUnderWay D.view self.old.intake self.old.state }
        requires first { self.old.state ≡ founding_entry operator ha1 ∷ [] }
        ensures way { OnOk result (IsUnderWay D.view self.new.intake self.new.state) }
        ensures added { OnOk result (self.new.state ≡ founding_entry operator ha1 ∷ feed_entry ∷ []) }
        ensures stop { IfErr result IsMakingStop }
        ensures disk { Runs (D.view self.old.intake.archive.disk) (D.view self.new.intake.archive.disk) (IsErrOf result DrillStop.DiskFault) }
    {
        let mut body = Bytes::new(alloc);
        body.extend(FEED_LINE)?;
        self.post(alloc, OPERATOR, Kind::Revise, 1, body)
    }

    // Adds batch k, counted from 0, of those of so many records.
    fn add_batch(&mut self, alloc: Global, count: u32, k: u32) -> Result<(), DrillStop>
        requires way { IsUnderWay D.view self.old.intake self.old.state }
        requires begun { self.old.state ≡ begun count k }
        requires some { 1000 * k < count }
        requires few { count ≤ 200_000 }
        ensures way { OnOk result (IsUnderWay D.view self.new.intake self.new.state) }
        ensures added { OnOk result (self.new.state ≡ begun count (k + 1)) }
        ensures stop { IfErr result IsMakingStop }
        ensures disk { Runs (D.view self.old.intake.archive.disk) (D.view self.new.intake.archive.disk) (IsErrOf result DrillStop.DiskFault) }
    {
        let from = BATCH * k;
        let body = made_body(alloc, from, (count - from).min(BATCH))?;
        self.post(alloc, FEED, Kind::Batch, k as u64 + 1, body)
    }

    // Adds the user and the batches of so many records.
    fn add_all(&mut self, alloc: Global, count: u32) -> Result<(), DrillStop>
        requires way { IsUnderWay D.view self.old.intake self.old.state }
        requires first { self.old.state ≡ founding_entry operator ha1 ∷ [] }
        requires few { count ≤ 200_000 }
        ensures way { OnOk result (IsUnderWay D.view self.new.intake self.new.state) }
        ensures added { OnOk result (self.new.state ≡ made_history count) }
        ensures stop { IfErr result IsMakingStop }
        ensures disk { Runs (D.view self.old.intake.archive.disk) (D.view self.new.intake.archive.disk) (IsErrOf result DrillStop.DiskFault) }
    {
        self.add_feed(alloc)?;
        'batches: for k in 0..count.div_ceil(BATCH) {
            self.add_batch(alloc, count, k)?;
        }
        Ok(())
    }

    /// Makes the archive of so many records.
    pub(crate) fn make(alloc: Global, count: u32, disk: D) -> Result<Making<D>, (D, DrillStop)>
        requires few { count ≤ 200_000 }
        ensures way { IfOk result (λ m. IsUnderWay D.view m.intake m.state) }
        ensures made { IfOk result (λ m. m.state ≡ made_history count) }
        ensures stop { IfErr (outcome_of result) IsSilentStop }
        ensures disk { Begins (D.view disk) (D.view (disk_left result)) (outcome_of result) }
    {
        let mut making = Making::found(alloc, disk)?;
        match making.add_all(alloc, count) {
            Ok(()) => Ok(making),
            Err(stop) => Err((making.intake.close(), stop)),
        }
    }
}
