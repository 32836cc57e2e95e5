//! Writes to a link.
ghost use Rattle.http_wire.specs.HeadReading.{head_view};
ghost use Rattle.http_wire.specs.Heads.{interim_of};
ghost use Rattle.streams.specs.Effects.{PutsAll};

use crate::asking::asks_interim;
use crate::head::Head;
use exact_time::Failed;
use streams::{Link, put_all};

// Sends what the head asks for before the body is taken.
pub(crate) fn send_interim<L: Link>(link: &mut L, head: &Head) -> Result<(), Failed>
    ensures { PutsAll (L.view link.old) (L.view link.new) result (interim_of (head_view head.now)) }
{
    if asks_interim(head) {
        put_all(link, b"HTTP/1.1 100 Continue\r\n\r\n")
    } else {
        put_all(link, b"")
    }
}
