//! What an owned desk keeps.
ghost use Rattle.std.specs.Prelude.{◌≡◌, false};
ghost use Rattle.archive_post.specs.Intake.{StandsFor};

use archive_post::Intake;
use archive_state::State;
use disk_model::Disk;

/// A desk that nobody shares.
#[derive(Drop)]
pub struct OwnedDesk<D: Disk> {
    pub(crate) intake: Intake<D>,
    pub(crate) state: State,
    pub(crate) stops: u64,
    pub(crate) caught: u64,
    pub(crate) made: u64,
    ghost stands: { StandsFor D.view intake state },
    ghost never: { intake.archive.stopped ≡ false → stops ≡ 0 },
}
