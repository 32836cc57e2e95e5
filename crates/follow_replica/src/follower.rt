//! A replica that is open.
ghost use Rattle.std.specs.Prelude.{◌≡◌, ◌+◌, ◌<◌, ◌≤◌, ◌^◌, true, false, IfOk, IfErr, IsErrOf};
ghost use Rattle.exact_time.specs.Causes.{Rose};
ghost use Rattle.disk_model.specs.View.{DiskRun, WhereTold, file_of};
ghost use Rattle.archive_log.specs.Archive.{Stands};
ghost use Rattle.archive_log.specs.Opening.{ExplainsOpen, IsReplicaOf, OpensUnwritten};
ghost use Rattle.follow_replica.specs.Opening.{disk_left, outcome_left};
ghost use Rattle.follow_replica.specs.Takes.{TakesRow};

use crate::adding::add_all;
use crate::fault::TakeFault;
use crate::numbers::gap_in;
use archive_log::{Archive, StartFault};
use archive_post::Intake;
use disk_model::Disk;
use entry_bodies::entries_in;
use std::alloc::Global;
use std::marker::Model;

/// A replica of another archive, seen as its archive.
#[derive(Drop)]
pub struct Follower<D: Disk> {
    intake: Intake<D>,
}

impl<D: Disk> Model for Follower<D> {
    ghost use Rattle.archive_log.specs.Archive.{Archived};
    ghost use Rattle.archive_post.specs.Intake.{StandsForSome};

    ghost Value = { Archived D };

    ghost view = { λ f. f.intake.archive };

    ghost invariant = { λ f. StandsForSome D.view f.intake };
}

impl<D: Disk> Follower<D> {
    /// Opens a replica: a file without bytes becomes a journal, and a journal may have no entry. A file with bytes is given no
    /// write and no cut.
    pub fn open(alloc: Global, disk: D) -> Result<Follower<D>, (D, StartFault)>
        ensures running { IfOk result (λ follower. follower.stopped ≡ false) }
        ensures history { WhereTold (D.view disk) (IfOk result (λ follower. IsReplicaOf (file_of (D.view disk)) follower.history)) }
        ensures since { IfOk result (λ follower. (D.view disk).faults ≤ follower.faults) }
        ensures fault { WhereTold (D.view disk) (IfErr (outcome_left result) (ExplainsOpen (file_of (D.view disk)))) }
        // At every moment of the call, every image of a file with bytes is one that was there before.
        ensures disk { DiskRun (D.view disk) (D.view (disk_left result)) (IsErrOf (outcome_left result) StartFault.DiskFault)
            (OpensUnwritten (D.view disk) (D.view (disk_left result))) }
    {
        match Archive::open(alloc, disk) {
            Ok((archive, _, admit)) => Ok(Follower {
                intake: Intake::of(archive, admit),
            }),
            Err(refused) => Err(refused),
        }
    }

    /// The number of the entry that comes next.
    pub fn wanted(&self) -> u64
        ensures wanted { result ≡ self.now.count + 1 }
        ensures bound { result < 2 ^ 61 }
        ensures stands { WhereTold (D.view self.now.disk) (Stands D.view self.now) }
        ensures cause { self.now.stopped ≡ true → Rose self.now.faults (D.view self.now.disk).faults }
    {
        self.intake.count() + 1
    }

    /// Takes a body: the entries whose numbers come next are added, in order, and those below are passed over. It answers how
    /// many were added. Form and Gap are tested over the whole body first, and nothing is added then. After `Unlawful` the
    /// entries before it were added. After `DiskFault` every call that comes to a commit answers it: open the replica again.
    /// Where memory runs out, some of the entries were added, in order.
    pub fn take(&mut self, alloc: Global, body: &[u8]) -> Result<u64, TakeFault>
        ensures row { TakesRow D.view body.now self.old self.new result }
    {
        let entries = entries_in(alloc, body)?;
        if let Some(number) = gap_in(entries.as_slice(), self.wanted()) {
            return Err(TakeFault::Gap(number));
        }
        add_all(alloc, &mut self.intake, entries)
    }

    /// The disk.
    pub fn close(self) -> D
        ensures disk { result ≡ self.disk }
        ensures stands { WhereTold (D.view self.disk) (Stands D.view self) }
    {
        self.intake.close()
    }
}
