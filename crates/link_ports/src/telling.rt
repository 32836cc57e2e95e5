//! A port that says at once that it has failed.
ghost use Rattle.std.specs.Prelude.{◌≡◌, Result, OnOk, OnErr};
ghost use Rattle.exact_time.specs.declared.error.Failed.{Failed};
ghost use Rattle.link_ports.specs.Ports.{Accepts, TakesBack};
ghost use Rattle.streams.specs.Effects.{PutsAll};

use crate::port::Port;
use exact_time::{Bytes, Failed};
use http_wire::Turn;
use streams::{Sink, put_all};

/// The port behind it, which writes a line to a sink where a call of `accept` fails: who watches a service of several workers
/// sees then that one of them has ended, and not only when all have. Nothing else depends on what the sink answers.
#[derive(Drop)]
pub struct TellingPort<P, K> {
    /// The port that gives the links.
    pub port: P,
    /// What is written where it fails.
    pub line: Bytes,
    /// Where that is written.
    pub errors: K,
}

impl<P: Port, K: Sink> Port for TellingPort<P, K> {
    type Given = P::Given;

    ghost view = { λ telling. P.view telling.port };

    fn accept(&mut self) -> Result<Option<P::Given>, Failed>
        ensures accepts { Accepts P.Given.view (P.view self.old.port) (P.view self.new.port) result }
        ensures quiet { OnOk result (self.new.errors ≡ self.old.errors) }
        ensures told { OnErr result ((done : Result (Unit {0}) Failed) × PutsAll (K.view self.old.errors) (K.view self.new.errors) done self.old.line) }
    {
        match self.port.accept() {
            Ok(link) => Ok(link),
            Err(failed) => {
                let _written = put_all(&mut self.errors, self.line.as_slice());
                Err(failed)
            }
        }
    }

    fn give_back(&mut self, link: P::Given, turns: &[Turn])
        ensures back { TakesBack (P.view self.old.port) (P.view self.new.port) (P.Given.view link) turns.now }
        ensures quiet { self.new.errors ≡ self.old.errors }
    {
        self.port.give_back(link, turns);
    }
}
