//! What a caller counts.
ghost use Rattle.std.specs.Prelude.{◌≡◌, ◌+◌, ◌-◌, ◌^◌, min};
ghost use Rattle.two_copies.specs.Tallies.{with_entry, with_stop, tally};

use std::marker::Model;
use std::sync::ledger::{Book, Ledger, Share};

/// A caller's shares of two ledgers: how many entries it made, and how often a disk stopped it. Seen as these two
/// numbers. In memory there is the second alone, up to the greatest number of its type.
#[derive(Drop)]
pub struct Shares<L: Ledger, S: Ledger> {
    made: Share<L>,
    halts: Share<S>,
    stops: u64,
}

impl<L: Ledger, S: Ledger> Model for Shares<L, S> {
    ghost use Rattle.std.specs.Prelude.{◌≡◌, ◌-◌, ◌^◌, min};
    ghost use Rattle.two_copies.specs.Tallies.{Tally, tally};

    ghost Value = { Tally };

    ghost view = { λ s. tally s.made.amount s.halts.amount };

    ghost invariant = { λ s. (s.made.parts ≡ 1) × (s.halts.parts ≡ 1) × (s.stops ≡ min s.halts.amount (2 ^ 64 - 1)) };
}

impl<L: Ledger, S: Ledger> Shares<L, S> {
    /// Of one part of each ledger, which has counted nothing.
    pub fn new(made: Share<L>, halts: Share<S>) -> Shares<L, S>
        requires parts { (made.parts ≡ 1) × (halts.parts ≡ 1) }
        requires none { (made.amount ≡ 0) × (halts.amount ≡ 0) }
        ensures { result ≡ tally 0 0 }
    {
        Shares {
            made,
            halts,
            stops: 0,
        }
    }

    /// How often a disk stopped the caller, or the greatest number of its type.
    pub fn stops(&self) -> u64
        ensures { result ≡ min self.now.stops (2 ^ 64 - 1) }
    {
        self.stops
    }

    /// One entry more.
    pub fn add_entry(&mut self, total: &mut Book<L>)
        ensures share { self.new ≡ with_entry self.old }
        ensures total { total.new.total ≡ total.old.total + 1 }
    {
        total.add(&mut self.made, 1);
    }

    /// One stop more.
    pub fn add_stop(&mut self, total: &mut Book<S>)
        ensures share { self.new ≡ with_stop self.old }
        ensures total { total.new.total ≡ total.old.total + 1 }
    {
        total.add(&mut self.halts, 1);
        self.stops = self.stops.saturating_add(1);
    }

    /// The parts of the ledgers, with what they have counted.
    pub fn end(self) -> (Share<L>, Share<S>)
        ensures parts { (result.0.parts ≡ 1) × (result.1.parts ≡ 1) }
        ensures amounts { (result.0.amount ≡ self.made) × (result.1.amount ≡ self.stops) }
    {
        let Shares {
            made,
            halts,
            stops: _,
        } = self;
        (made, halts)
    }
}
