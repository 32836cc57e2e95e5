//! Adds entries one by one.
ghost use Rattle.std.specs.Prelude.{◌≡◌, true, None, OnOk};
ghost use Rattle.std.specs.List.{AllByRecursion};
ghost use Rattle.archive_entry.specs.Spelling.{IsEntry};
ghost use Rattle.archive_post.specs.Intake.{StandsForSome};
ghost use Rattle.follow_replica.specs.Takes.{AddsRow, AddsOne, from_append};

use crate::fault::TakeFault;
use archive_entry::Entry;
use archive_post::{AppendFault, Intake};
use disk_model::Disk;
use exact_time::{Many, OutOfMemory};
use std::alloc::Global;

// Judging takes in the entry that was committed last, and nothing waits any more: a replica shows nobody what it takes.
fn settle<D: Disk>(intake: &mut Intake<D>) -> Result<(), OutOfMemory>
    requires stands { StandsForSome D.view intake.old }
    ensures stands { StandsForSome D.view intake.new }
    ensures same { intake.new.archive ≡ intake.old.archive }
    ensures free { OnOk result ((intake.new.waiting ≡ None) × (intake.new.noted ≡ true)) }
{
    intake.note()?;
    let _settled = intake.take();
    Ok(())
}

// How a fault of appending an entry of this number is told.
fn from_append(number: u64, fault: AppendFault) -> TakeFault
    ensures { result ≡ from_append number fault }
{
    match fault {
        AppendFault::NotNext => TakeFault::Unlawful(number),
        AppendFault::Stopped => TakeFault::DiskFault,
        AppendFault::OutOfMemory => TakeFault::OutOfMemory,
    }
}

// Adds the entry that comes next.
fn add<D: Disk>(alloc: Global, intake: &mut Intake<D>, entry: Entry) -> Result<(), TakeFault>
    requires stands { StandsForSome D.view intake.old }
    requires free { (intake.old.waiting ≡ None) × (intake.old.noted ≡ true) }
    ensures stands { StandsForSome D.view intake.new }
    ensures row { AddsOne D.view entry intake.old.archive intake.new.archive result }
{
    let _count = intake.count();
    let number = entry.number;
    match intake.append(alloc, entry) {
        Ok(()) => Ok(()),
        Err(fault) => Err(from_append(number, fault)),
    }
}

// Adds those entries whose numbers come next, in order, and answers how many they are.
pub(crate) fn add_all<D: Disk>(
    alloc: Global,
    intake: &mut Intake<D>,
    entries: Many<Entry>,
) -> Result<u64, TakeFault>
    requires stands { StandsForSome D.view intake.old }
    requires entries { AllByRecursion IsEntry entries }
    ensures stands { StandsForSome D.view intake.new }
    ensures row { AddsRow D.view entries intake.old.archive intake.new.archive result }
{
    let first = intake.count();
    let mut rest = entries.into_vec().into_iter();
    'entries: while let Some(entry) = rest.next() {
        if entry.number != intake.count() + 1 {
            continue;
        }
        settle(intake)?;
        add(alloc, intake, entry)?;
    }
    Ok(intake.count() - first)
}
