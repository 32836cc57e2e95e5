//! A connection over TCP.
ghost use Rattle.std.specs.Prelude.{◌≤◌, None};
ghost use Rattle.exact_time.specs.Causes.{Rose};

use exact_time::Failed;
use std::io;
use std::io::{Read, Write};
use std::net::{Shutdown, TcpStream};
use std::time::Duration;
use streams::{Link, Sink, Source, Stream};

// How long, and how often, what a client still sends is read behind its last reply.
const LINGER_MILLIS: u64 = 500;

const LINGER_READS: u64 = 64;

/// A connection to a client. It tells nothing but its faults: each read and each write that fails, or that waits longer than
/// its patience, is one.
#[derive(Drop)]
pub struct TcpLink {
    stream: TcpStream,
    faults: u64,
}

impl TcpLink {
    /// A link over this connection, whose reads and writes wait so long for the client. Small writes aren't delayed.
    ///
    /// # Errors
    ///
    /// Where the system refuses one of these settings.
    pub fn new(stream: TcpStream, patience: Duration) -> io::Result<TcpLink> {
        stream.set_nodelay(true)?;
        stream.set_read_timeout(Some(patience))?;
        stream.set_write_timeout(Some(patience))?;
        Ok(TcpLink { stream, faults: 0 })
    }

    // Ends the replies, and reads for a short time what the client still sends: where a connection is closed with bytes that
    // nobody read, the system may take the last reply from the client.
    pub(crate) fn end(self) {
        let mut stream = self.stream;
        if stream.shutdown(Shutdown::Write).is_err() {
            return;
        }
        let linger = Duration::from_millis(LINGER_MILLIS);
        if stream.set_read_timeout(Some(linger)).is_err() {
            return;
        }
        let mut unread = [0; 16_384];
        'reads: for _ in 0..LINGER_READS {
            match stream.read(&mut unread) {
                Ok(count) if count > 0 => {}
                _ => return,
            }
        }
    }

    fn fail(&mut self) -> Failed
        ensures rose { Rose self.old.faults self.new.faults }
        ensures later { self.old.faults ≤ self.new.faults }
    {
        self.faults = self.faults.saturating_add(1);
        Failed
    }
}

impl Stream for TcpLink {
    ghost view = { λ link. record { left = None; written = None; faults = link.faults } };

    fn faults(&self) -> u64 {
        self.faults
    }
}

impl Source for TcpLink {
    // A process that is stopped while it waits, and goes on, finds its wait interrupted (signal(7)): then it waits again.
    fn take(&mut self, into: &mut [u8]) -> Result<usize, Failed> {
        'waits: for _ in 0..u64::MAX {
            match self.stream.read(into) {
                Ok(count) => return Ok(count),
                Err(error) if error.kind() == io::ErrorKind::Interrupted => {}
                Err(_) => return Err(self.fail()),
            }
        }
        Err(self.fail())
    }
}

impl Sink for TcpLink {
    fn put(&mut self, piece: &[u8]) -> Result<usize, Failed> {
        if piece.is_empty() {
            return Ok(0);
        }
        'waits: for _ in 0..u64::MAX {
            match self.stream.write(piece) {
                Ok(count) if count > 0 => return Ok(count),
                Err(error) if error.kind() == io::ErrorKind::Interrupted => {}
                _ => return Err(self.fail()),
            }
        }
        Err(self.fail())
    }
}

impl Link for TcpLink {}
