//! The command `coverage`.
ghost use Rattle.std.specs.Prelude.{◌≡◌};
ghost use Rattle.command_words.specs.Arguments.{coverage_words_at};
ghost use Rattle.centre_coverage.specs.Table.{stop_for_start, CoverageRow};

use crate::days::asked_days;
use crate::ending::{CoverageRefusal, CoverageStop};
use crate::reporting::put_report;
use archive_log::StartFault;
use command_words::CoverageArguments;
use disk_model::Disk;
use owned_desk::OwnedDesk;
use std::alloc::Global;
use streams::Sink;

// How a fault of opening stops the command.
fn stop_for_start(fault: StartFault) -> CoverageStop
    ensures { result ≡ stop_for_start fault }
{
    match fault {
        StartFault::DiskFault => CoverageStop::DiskFault,
        StartFault::NotAJournal => CoverageStop::Refused(CoverageRefusal::NotAJournal),
        StartFault::Damaged(at) => CoverageStop::Refused(CoverageRefusal::Damaged(at)),
        StartFault::OutOfMemory => CoverageStop::OutOfMemory,
    }
}

/// How `coverage` ended, and the disk that was handed in.
#[derive(Drop)]
pub struct Covered<D: Disk> {
    pub ending: Result<(), CoverageStop>,
    pub disk: D,
}

/// The command `coverage`: words, archive, report, output. What the words ask for is read before the archive is opened, and nothing is
/// written before the whole report is there. The disk is given no write.
pub fn coverage<K: Sink, D: Disk>(
    alloc: Global,
    arguments: &CoverageArguments,
    sink: &mut K,
    disk: D,
) -> Covered<D>
    ensures row { CoverageRow D.view (coverage_words_at arguments.now)
        (K.view sink.old) (K.view sink.new) disk result.disk result.ending }
{
    let days = match asked_days(arguments) {
        Ok(days) => days,
        Err(refusal) => {
            return Covered {
                ending: Err(CoverageStop::Refused(refusal)),
                disk,
            };
        }
    };
    let desk = match OwnedDesk::start(alloc, disk) {
        Ok(desk) => desk,
        Err((disk, fault)) => {
            return Covered {
                ending: Err(stop_for_start(fault)),
                disk,
            };
        }
    };
    let ending = put_report(alloc, desk.state(), days, arguments.max_lines, sink);
    Covered {
        ending,
        disk: desk.close(),
    }
}
