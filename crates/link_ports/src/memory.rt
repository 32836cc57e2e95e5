//! A port over links in memory.
ghost use Rattle.std.specs.Prelude.{◌≡◌, ◌∷◌, [], Some, IfSome};
ghost use Rattle.std.specs.Option.{option_map};
ghost use Rattle.streams.specs.Calls.{fresh};
ghost use Rattle.link_ports.specs.Ports.{Accepts, TakesBack, Came};
ghost use Rattle.link_ports.specs.Memory.{port_view, links_of, calls_of, back_of, GivesNext};

use crate::port::Port;
use exact_time::{Failed, Many};
use http_wire::Turn;
use std::alloc::Global;
use std::vec::IntoIter;
use streams::{Link, Tally};

/// A link that came back, with the turns of its session.
#[derive(Drop)]
pub struct Returned<L> {
    pub link: L,
    pub turns: Many<Turn>,
}

/// Gives its links in order, and keeps those that come back. It fails at the calls of `accept` numbered in `fails`, from 1.
/// Where memory doesn't suffice to keep a link that came back, the link is dropped, and from then on the port doesn't tell
/// what came back.
#[derive(Drop)]
pub struct MemoryPort<L> {
    alloc: Global,
    links: IntoIter<L>,
    back: Many<Returned<L>>,
    // Whether no link that came back was lost.
    tells: bool,
    tally: Tally,
}

impl<L: Link + Drop> MemoryPort<L> {
    /// A port that has these links to give, to which none came back yet, and which fails at these calls.
    pub fn new(alloc: Global, links: Many<L>, fails: Many<u64>) -> Self
        ensures links { links_of result ≡ links }
        ensures back { back_of result ≡ Some [] }
        ensures calls { calls_of result ≡ fresh fails }
    {
        MemoryPort {
            alloc,
            links: links.into_vec().into_iter(),
            back: Many::new(alloc),
            tells: true,
            tally: Tally::new(fails),
        }
    }

    /// The links that came back, in order, unless one was lost.
    pub fn back(&self) -> Option<&[Returned<L>]>
        ensures { option_map (λ slice. slice.now) result ≡ back_of self.now }
    {
        if self.tells {
            Some(self.back.as_slice())
        } else {
            None
        }
    }
}

// The turns, if there is memory for them.
fn kept(alloc: Global, turns: &[Turn]) -> Option<Many<Turn>>
    ensures { IfSome result (λ kept. kept ≡ turns.now) }
{
    let mut kept = Many::new(alloc);
    'turns: for turn in turns {
        kept.push(*turn).ok()?;
    }
    Some(kept)
}

impl<L: Link + Drop> Port for MemoryPort<L> {
    type Given = L;

    ghost view = { port_view L.view };

    fn accept(&mut self) -> Result<Option<L>, Failed>
        ensures call { GivesNext self.old self.new result }
        ensures told { Accepts L.view (port_view L.view self.old) (port_view L.view self.new) result }
    {
        if self.tally.is_failing() {
            return Err(self.tally.refuse());
        }
        Ok(self.links.next())
    }

    fn give_back(&mut self, link: L, turns: &[Turn])
        ensures call { Came (back_of self.old) (back_of self.new) (record { link = link; turns = turns.now } ∷ []) }
        ensures told { TakesBack (port_view L.view self.old) (port_view L.view self.new) (L.view link) turns.now }
    {
        let returned = match kept(self.alloc, turns) {
            Some(turns) => Returned { link, turns },
            None => {
                self.tells = false;
                return;
            }
        };
        if self.back.push(returned).is_err() {
            self.tells = false;
        }
    }
}
