//! A port over TCP.
ghost use Rattle.std.specs.Prelude.{◌≡◌, ◌≤◌, None};
ghost use Rattle.exact_time.specs.Causes.{Rose, HasCause};

use crate::port::Port;
use crate::tcp_link::TcpLink;
use crate::way::{Advice, Way};
use exact_time::Failed;
use http_wire::Turn;
use std::net::{Net, SocketAddr, TcpListener, TcpStream};
use std::time::{Clock, Duration};
use std::{io, thread};

/// How many seconds a link waits for its client, reading or writing, before it fails.
pub const PATIENCE: u64 = 30;

// How often a port waits for file handles before it fails, and how long each time.
const WAITS: u64 = 100;

const WAIT_MILLIS: u64 = 100;

/// Listens at one address, from the first `accept` on, and gives a link for each connection; or dials a peer, once for each
/// `accept`. It closes behind so many links, where a number is given. It tells nothing but its faults.
///
/// Where it listens, a connection that was lost before it could be given is a fault, and the next one is waited for. Where there
/// are no file handles, or no memory for a socket, that is a fault, and it tries again a tenth of a second later, a hundred times;
/// then the call fails. So it does where the address can't be listened at, or where it has none. Where it dials, a peer that
/// can't be reached is a fault, and the call fails at once. A link that comes back is closed; what the other side still sends is
/// read for a short time, so that a client gets its last reply.
#[derive(Drop)]
pub struct TcpPort<N> {
    net: N,
    way: Way,
    sessions: Option<u64>,
    patience: Duration,
    faults: u64,
}

impl<N: Net<Listener = TcpListener, Stream = TcpStream> + Clock> TcpPort<N> {
    /// A port at this address, whose links wait [`PATIENCE`] for their clients.
    pub fn new(net: N, address: Option<SocketAddr>, sessions: Option<u64>) -> Self {
        Self::patient(net, address, sessions, Duration::from_secs(PATIENCE))
    }

    /// A port at this address, whose links wait so long for their clients.
    pub fn patient(
        net: N,
        address: Option<SocketAddr>,
        sessions: Option<u64>,
        patience: Duration,
    ) -> Self {
        TcpPort {
            net,
            way: Way::Listens {
                address,
                listener: None,
            },
            sessions,
            patience,
            faults: 0,
        }
    }

    /// A port that dials a peer at the first of its addresses that answers, and whose links wait so long for it.
    pub fn dialling(net: N, addresses: Vec<SocketAddr>, patience: Duration) -> Self {
        TcpPort {
            net,
            way: Way::Dials(addresses),
            sessions: None,
            patience,
            faults: 0,
        }
    }

    fn fail(&mut self) -> Failed
        ensures rose { Rose self.old.faults self.new.faults }
        ensures later { self.old.faults ≤ self.new.faults }
    {
        self.faults = self.faults.saturating_add(1);
        Failed
    }

    // The next connection.
    fn next_link(&mut self) -> io::Result<TcpLink>
        ensures { self.new.faults ≡ self.old.faults }
    {
        self.way.next_link(&self.net, self.patience)
    }

    // The next link, whatever is lost before it.
    fn await_link(&mut self) -> Result<TcpLink, Failed>
        ensures { HasCause self.old.faults self.new.faults result }
    {
        let mut waits = 0;
        'tries: for _ in 0..u64::MAX {
            let advice = match self.next_link() {
                Ok(link) => return Ok(link),
                Err(error) => self.way.advice_on(&error),
            };
            let failed = self.fail();
            match advice {
                Advice::Again => {}
                Advice::Wait if waits < WAITS => {
                    waits += 1;
                    thread::sleep(&self.net, Duration::from_millis(WAIT_MILLIS));
                }
                _ => return Err(failed),
            }
        }
        Err(self.fail())
    }
}

impl<N: Net<Listener = TcpListener, Stream = TcpStream> + Clock> Port for TcpPort<N> {
    type Given = TcpLink;

    ghost view = { λ port. record { left = None; back = None; faults = port.faults } };

    fn accept(&mut self) -> Result<Option<TcpLink>, Failed> {
        if self.sessions == Some(0) {
            self.way.close();
            return Ok(None);
        }
        let link = self.await_link()?;
        if let Some(left) = self.sessions {
            self.sessions = Some(left.saturating_sub(1));
        }
        Ok(Some(link))
    }

    fn give_back(&mut self, link: TcpLink, _turns: &[Turn]) {
        link.end();
    }
}
