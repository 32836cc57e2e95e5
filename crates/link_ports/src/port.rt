//! What gives links and takes them back.
ghost use Rattle.std.specs.Prelude.{◌≡◌};
ghost use Rattle.link_ports.specs.Ports.{PortView, Accepts, TakesBack};

use exact_time::Failed;
use http_wire::Turn;
use streams::Link;

/// Where a server's links come from, and where they go when their sessions have ended. What its calls do to what is told of
/// it is one relation for each (`specs/Ports.antt`).
pub trait Port {
    /// What it gives: a connection to one client.
    type Given: Link;

    /// What is told of the port (`specs/Ports.antt`). A real port may tell nothing but its faults.
    ghost view: { Self → PortView };

    /// Gives the next link, or None where the port is closed. A port that tells its links gives the first one that is left,
    /// and None exactly where none is. A call that fails is counted, and leaves what is left as it was.
    fn accept(&mut self) -> Result<Option<Self::Given>, Failed>
        ensures { Accepts Self.Given.view (view self.old) (view self.new) result };

    /// Takes a link back, with the turns of its session. It can't fail.
    fn give_back(&mut self, link: Self::Given, turns: &[Turn])
        ensures { TakesBack (view self.old) (view self.new) (Self.Given.view link) turns.now };
}
