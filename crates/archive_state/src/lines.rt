//! The lines of an entry, taken into a catalog.
ghost use Rattle.std.specs.Prelude.{◌≡◌, ◌++◌, OnOk, OnErr};
ghost use Rattle.epoch_rules.specs.Kept.{AreKept};
ghost use Rattle.epoch_rules.specs.LiveLines.{live_lines};
ghost use Rattle.archive_entry.specs.Bodies.{revision_of};
ghost use Rattle.archive_state.specs.History.{lines_in, lines_of};

use archive_entry::{Entry, Kind};
use epoch_catalog::Catalog;
use epochs::{RevisionFault, read_revision};
use exact_time::OutOfMemory;
use std::alloc::Global;

/// Takes the lines of a revision into the catalog: none where the body is no revision.
pub fn take_revision(alloc: Global, catalog: &mut Catalog, body: &[u8]) -> Result<(), OutOfMemory>
    requires { AreKept catalog.old (lines_in (revision_of body.now)) }
    ensures ok { OnOk result (catalog.new ≡ live_lines (catalog.old ++ lines_in (revision_of body.now))) }
    ensures err { OnErr result (catalog.new ≡ catalog.old) }
{
    match read_revision(alloc, body) {
        Ok(lines) => catalog.apply(&lines),
        Err(RevisionFault::Bad { .. }) => {
            let _kept = catalog.lines();
            Ok(())
        }
        Err(RevisionFault::OutOfMemory) => Err(OutOfMemory),
    }
}

/// Takes the lines of an entry into the catalog.
pub fn take_lines(alloc: Global, catalog: &mut Catalog, entry: &Entry) -> Result<(), OutOfMemory>
    requires { AreKept catalog.old (lines_of entry.now) }
    ensures ok { OnOk result (catalog.new ≡ live_lines (catalog.old ++ lines_of entry.now)) }
    ensures err { OnErr result (catalog.new ≡ catalog.old) }
{
    match entry.kind {
        Kind::Batch => {
            let _kept = catalog.lines();
            Ok(())
        }
        Kind::Revise => take_revision(alloc, catalog, entry.body.as_slice()),
    }
}
