//! Shows what the writer has.
ghost use Rattle.std.specs.Prelude.{◌≡◌, [], drop, fold, OnOk, OnErr};
ghost use mathlib.Core.List.{IsPrefix};

use crate::carries::Carries;
use crate::view::{CopyWriter, Looks};
use archive_history::{Front, Naming};
use std::alloc::AllocError;
use std::sync::Wait;

/// Shows the history to which the steps that wait lead, which begins with the one that is shown. It waits for those who
/// still look at the copy that is changed. Where memory is missing nothing changes, and the steps wait on.
pub fn publish<J: Naming, T: Carries<J> + Drop, R: Wait>(
    rt: &R,
    writer: CopyWriter<J, T>,
    latest: &Front<J>,
) -> (CopyWriter<J, T>, Result<(), AllocError>)
    requires begins { IsPrefix (T.state writer.desk.shown.value) latest.now }
    requires leads { fold T.applied (T.state writer.desk.shown.value) (drop writer.behind writer.log.items) ≡ latest.now }
    ensures ok { OnOk result.1 ((T.state result.0.desk.shown.value ≡ latest.now) × (drop result.0.behind result.0.log.items ≡ [])) }
    ensures err { OnErr result.1 ((T.state result.0.desk.shown.value ≡ T.state writer.desk.shown.value) × (drop result.0.behind result.0.log.items ≡ drop writer.behind writer.log.items)) }
{
    writer.publish_as::<Looks<J>, R>(rt)
}
