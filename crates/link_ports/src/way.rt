//! How a port over TCP comes to its links.
use crate::tcp_link::TcpLink;
use std::io;
use std::net::{Net, SocketAddr, TcpListener, TcpStream};
use std::time::Duration;

// Errors of Linux: no file handle is left for the process, or for all processes.
const NO_HANDLE: i32 = 24;

const NO_HANDLE_AT_ALL: i32 = 23;

// No memory is left for a socket.
const NO_MEMORY: i32 = 12;

const NO_BUFFERS: i32 = 105;

// Errors that the network may have pending for a connection that is accepted (accept(2), "Error handling"), and that a firewall
// forbids it: EPROTO, ENOPROTOOPT, EHOSTDOWN, ENONET, EOPNOTSUPP, EPERM, ETIMEDOUT.
const OF_ONE_CONNECTION: [i32; 7] = [71, 92, 112, 64, 95, 1, 110];

// What an error of accepting a connection asks for.
#[derive(Clone, Copy)]
pub(crate) enum Advice {
    // It was that connection's own: the next one may be well.
    Again,
    // There are no file handles, or no memory for a socket: others may end.
    Wait,
    // It stays.
    GiveUp,
}

// Errors that Linux may pass on from the connection that was taken (accept(2), "Error handling").
fn advice_on(error: &io::Error) -> Advice {
    match error.kind() {
        io::ErrorKind::ConnectionAborted
        | io::ErrorKind::ConnectionReset
        | io::ErrorKind::Interrupted
        | io::ErrorKind::NetworkDown
        | io::ErrorKind::NetworkUnreachable
        | io::ErrorKind::HostUnreachable => Advice::Again,
        _ => match error.raw_os_error() {
            Some(NO_HANDLE | NO_HANDLE_AT_ALL | NO_MEMORY | NO_BUFFERS) => Advice::Wait,
            Some(code) if OF_ONE_CONNECTION.contains(&code) => Advice::Again,
            _ => Advice::GiveUp,
        },
    }
}

// How a port comes to its links.
#[derive(Drop)]
pub(crate) enum Way {
    // It listens at one address, from the first `accept` on.
    Listens {
        address: Option<SocketAddr>,
        listener: Option<TcpListener>,
    },
    // It dials the first of these addresses that answers.
    Dials(Vec<SocketAddr>),
}

impl Way {
    // The next connection: at a listener that is bound where there is none yet, or one of ours.
    pub(crate) fn next_link<N: Net<Listener = TcpListener, Stream = TcpStream>>(
        &mut self,
        net: &N,
        patience: Duration,
    ) -> io::Result<TcpLink> {
        match self {
            Way::Listens { address, listener } => accept_at(net, *address, listener, patience),
            Way::Dials(addresses) => dial(net, addresses.as_slice(), patience),
        }
    }

    // What an error asks for. A peer that can't be reached isn't tried again.
    pub(crate) fn advice_on(&self, error: &io::Error) -> Advice {
        match self {
            Way::Listens { .. } => advice_on(error),
            Way::Dials(_) => Advice::GiveUp,
        }
    }

    // Nothing is listened at any longer.
    pub(crate) fn close(&mut self) {
        if let Way::Listens { listener, .. } = self {
            *listener = None;
        }
    }
}

// A connection of ours to the first of these addresses that answers, each of which is tried once.
fn dial<N: Net<Stream = TcpStream>>(
    net: &N,
    addresses: &[SocketAddr],
    patience: Duration,
) -> io::Result<TcpLink> {
    let mut last = io::Error::from(io::ErrorKind::AddrNotAvailable);
    'addresses: for address in addresses {
        match net.connect_timeout(*address, patience) {
            Ok(stream) => return TcpLink::new(stream, patience),
            Err(error) => last = error,
        }
    }
    Err(last)
}

// The next connection at a listener, which is bound where there is none yet.
fn accept_at<N: Net<Listener = TcpListener, Stream = TcpStream>>(
    net: &N,
    address: Option<SocketAddr>,
    bound: &mut Option<TcpListener>,
    patience: Duration,
) -> io::Result<TcpLink> {
    if bound.is_none() {
        let Some(address) = address else {
            return Err(io::Error::from(io::ErrorKind::AddrNotAvailable));
        };
        *bound = Some(TcpListener::bind(net, address)?);
    }
    let Some(listener) = bound else {
        return Err(io::Error::from(io::ErrorKind::NotConnected));
    };
    let (stream, _) = listener.accept()?;
    match TcpLink::new(stream, patience) {
        Ok(link) => Ok(link),
        // A setting that the system refuses loses that connection alone.
        Err(_) => Err(io::Error::from(io::ErrorKind::ConnectionAborted)),
    }
}
