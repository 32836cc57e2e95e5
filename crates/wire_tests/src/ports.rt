//! Ports in memory and over TCP.
use exact_time::{Bytes, Failed, Many, Moment};
use http_wire::Turn;
use link_ports::{MemoryPort, Port, Returned, TcpPort};
use std::alloc::Global;
use std::io::{Read, Write};
use std::net::{Ipv4Addr, Net, Shutdown, SocketAddr, TcpListener, TcpStream};
use std::process::Abort;
use std::test::Fail;
use std::thread::join;
use std::time::{Clock, Duration};
use streams::{MemoryLink, Sink, Source, Stream};

const TURN: Turn = Turn {
    front: 3,
    moment: Moment { micros: 0 },
    entry: None,
    short: false,
};

// A link that gives this piece.
fn link_of(alloc: Global, piece: &[u8]) -> Result<MemoryLink, Fail> {
    let mut bytes = Bytes::new(alloc);
    bytes.extend(piece)?;
    let mut pieces = Many::new(alloc);
    pieces.push(bytes)?;
    Ok(MemoryLink::new(alloc, pieces, Many::new(alloc)))
}

// The first byte that a link gives.
fn first_of(link: &mut MemoryLink) -> Option<u8> {
    let mut byte = [0];
    match link.take(&mut byte) {
        Ok(1) => Some(byte[0]),
        _ => None,
    }
}

// A port with two links, whose second `accept` fails.
fn port_of_two(alloc: Global) -> Result<MemoryPort<MemoryLink>, Fail> {
    let mut fails = Many::new(alloc);
    fails.push(2)?;
    let mut links = Many::new(alloc);
    'pieces: for piece in [b"A", b"B"] {
        links.push(link_of(alloc, piece)?)?;
    }
    Ok(MemoryPort::new(alloc, links, fails))
}

// Whether the two links come in order, with a fault between and nothing behind. They go back the other way round, with a turn and without.
fn come_and_go_back(port: &mut MemoryPort<MemoryLink>) -> bool {
    let first = port.accept();
    let is_fault = matches!(port.accept(), Err(Failed));
    let second = port.accept();
    let is_end = matches!(port.accept(), Ok(None));
    let (Ok(Some(mut first)), Ok(Some(mut second))) = (first, second) else {
        return false;
    };
    let are_in_order = first_of(&mut first) == Some(b'A') && first_of(&mut second) == Some(b'B');
    port.give_back(second, &[TURN]);
    port.give_back(first, &[]);
    is_fault && is_end && are_in_order
}

// Whether two links came back, the first with the turn.
fn are_back(back: Option<&[Returned<MemoryLink>]>) -> bool {
    match back {
        Some([one, two]) => one.turns.as_slice() == [TURN].as_slice() && two.turns.is_empty(),
        _ => false,
    }
}

#[test]
fn links_come_in_order_and_go_back(rt: HostRuntime) -> Result<(), Fail> {
    let mut port = port_of_two(rt.alloc())?;
    assert!(rt; come_and_go_back(&mut port));
    assert!(rt; are_back(port.back()));
    Ok(())
}

// An address at which nobody listens.
fn free_address<R: Net<Listener = TcpListener, Stream = TcpStream>>(
    rt: &R,
) -> Result<SocketAddr, Fail> {
    let any = SocketAddr::from((Ipv4Addr::LOCALHOST, 0));
    Ok(TcpListener::bind(rt, any)?.local_addr()?)
}

// Connects once somebody listens.
fn connect<R: Net<Listener = TcpListener, Stream = TcpStream> + Clock>(
    rt: &R,
    address: SocketAddr,
) -> Result<TcpStream, Fail> {
    for _ in 0..500u32 {
        if let Ok(stream) = TcpStream::connect(rt, address) {
            return Ok(stream);
        }
        std::thread::sleep(rt, Duration::from_millis(10));
    }
    Err("nobody listens".into())
}

// Sends a byte a connection, and reads what comes back.
fn ask<R: Net<Listener = TcpListener, Stream = TcpStream> + Clock>(
    rt: &R,
    address: SocketAddr,
    times: u64,
) -> Result<u64, Fail> {
    let mut answers: u64 = 0;
    'times: for _ in 0..times {
        let mut stream = connect(rt, address)?;
        stream.write_all(b"?")?;
        stream.shutdown(Shutdown::Write)?;
        let mut answer = [0; 2];
        if stream.read(&mut answer)? == 1 && answer[0] == b'!' {
            answers = answers.saturating_add(1);
        }
    }
    Ok(answers)
}

// Takes a byte from each link and puts one, until the port closes: how many it took, and the faults of the links.
fn serve<P: Port>(port: &mut P, links: u64) -> (u64, u64) {
    let mut taken: u64 = 0;
    let mut faults: u64 = 0;
    'links: for _ in 0..links {
        let Ok(Some(mut link)) = port.accept() else {
            return (taken, faults);
        };
        let mut byte = [0];
        if link.take(&mut byte) == Ok(1) && link.put(b"!") == Ok(1) {
            taken = taken.saturating_add(1);
        }
        faults = faults.saturating_add(link.faults());
        port.give_back(link, &[]);
    }
    (taken, faults)
}

#[test]
fn a_hundred_connections_one_after_another(rt: HostRuntime) -> Result<(), Fail> {
    let shared = &rt;
    let address = free_address(shared)?;
    let mut port = TcpPort::new(shared, Some(address), Some(100));
    let (served, answers) = join(
        shared,
        || serve(&mut port, 1000),
        || ask(shared, address, 100),
    );
    assert_eq!(rt; served, (100, 0));
    assert_eq!(rt; answers?, 100);
    assert!(rt; matches!(port.accept(), Ok(None)));
    Ok(())
}

// Says nothing until the other end closes.
fn stay_silent<R: Net<Listener = TcpListener, Stream = TcpStream> + Clock>(
    rt: &R,
    address: SocketAddr,
) -> Result<usize, Fail> {
    let mut stream = connect(rt, address)?;
    let mut answer = [0; 2];
    Ok(stream.read(&mut answer)?)
}

#[test]
fn a_silent_client_is_a_fault_of_its_link(rt: HostRuntime) -> Result<(), Fail> {
    let shared = &rt;
    let address = free_address(shared)?;
    let mut port = TcpPort::patient(shared, Some(address), Some(1), Duration::from_millis(200));
    let (served, answer) = join(
        shared,
        || serve(&mut port, 1),
        || stay_silent(shared, address),
    );
    assert_eq!(rt; served, (0, 1));
    assert_eq!(rt; answer?, 0);
    Ok(())
}

// Sends a byte, and closes while the answer isn't read yet, so that the system resets the connection.
fn reset<R: Net<Listener = TcpListener, Stream = TcpStream> + Clock>(
    rt: &R,
    address: SocketAddr,
) -> Result<usize, Fail> {
    let mut stream = connect(rt, address)?;
    stream.write_all(b"?")?;
    let mut answer = [0; 2];
    Ok(stream.peek(&mut answer)?)
}

// Answers each of ten bytes at most until the link ends: how many it answered, and the faults of the link.
fn answer_and_listen<P: Port>(port: &mut P) -> (u64, u64) {
    let Ok(Some(mut link)) = port.accept() else {
        return (0, 0);
    };
    let mut taken: u64 = 0;
    let mut byte = [0];
    'bytes: for _ in 0..10u32 {
        if link.take(&mut byte) != Ok(1) || link.put(b"!") != Ok(1) {
            break 'bytes;
        }
        taken = taken.saturating_add(1);
    }
    let faults = link.faults();
    port.give_back(link, &[]);
    (taken, faults)
}

#[test]
fn a_reset_is_a_fault_of_its_link(rt: HostRuntime) -> Result<(), Fail> {
    let shared = &rt;
    let address = free_address(shared)?;
    let mut port = TcpPort::new(shared, Some(address), Some(2));
    let (served, unread) = join(
        shared,
        || answer_and_listen(&mut port),
        || reset(shared, address),
    );
    assert_eq!(rt; served, (1, 1));
    assert_eq!(rt; unread?, 1);
    let (served, answers) = join(shared, || serve(&mut port, 1), || ask(shared, address, 1));
    assert_eq!(rt; served, (1, 0));
    assert_eq!(rt; answers?, 1);
    Ok(())
}

// Sends more than is taken, and closes.
fn say_much<R: Net<Listener = TcpListener, Stream = TcpStream> + Clock>(
    rt: &R,
    address: SocketAddr,
) -> Result<(), Fail> {
    let mut stream = connect(rt, address)?;
    stream.write_all(&[b'?'; 1000])?;
    Ok(())
}

// What the client sent and nobody took is lost with its link alone.
#[test]
fn a_client_closes_with_unread_bytes(rt: HostRuntime) -> Result<(), Fail> {
    let shared = &rt;
    let address = free_address(shared)?;
    let mut port = TcpPort::new(shared, Some(address), Some(2));
    let (served, said) = join(shared, || serve(&mut port, 1), || say_much(shared, address));
    assert_eq!(rt; served.1, 0);
    said?;
    let (served, answers) = join(shared, || serve(&mut port, 1), || ask(shared, address, 1));
    assert_eq!(rt; served, (1, 0));
    assert_eq!(rt; answers?, 1);
    Ok(())
}

// Where somebody else listens, the port fails, and counts it.
#[test]
fn an_address_in_use_is_a_fault_of_the_port(rt: HostRuntime) -> Result<(), Fail> {
    let shared = &rt;
    let any = SocketAddr::from((Ipv4Addr::LOCALHOST, 0));
    let listener = TcpListener::bind(shared, any)?;
    let mut port = TcpPort::new(shared, Some(listener.local_addr()?), None);
    assert!(rt; matches!(port.accept(), Err(Failed)));
    Ok(())
}

// Asks by links that a port dials, of which the first ones may come before somebody listens: how many answers came.
fn ask_by_dialling<P: Port>(port: &mut P, rt: &impl Clock, times: u64) -> u64 {
    let mut answers: u64 = 0;
    'tries: for _ in 0..500u32 {
        if answers == times {
            break 'tries;
        }
        let Ok(Some(mut link)) = port.accept() else {
            std::thread::sleep(rt, Duration::from_millis(10));
            continue 'tries;
        };
        let mut answer = [0];
        if link.put(b"?") == Ok(1) && link.take(&mut answer) == Ok(1) && answer[0] == b'!' {
            answers = answers.saturating_add(1);
        }
        port.give_back(link, &[]);
    }
    answers
}

// The first address that answers is taken.
#[test]
fn a_port_dials_once_for_each_link(rt: HostRuntime) -> Result<(), Fail> {
    let shared = &rt;
    let address = free_address(shared)?;
    let mut addresses = Vec::new(rt.alloc());
    addresses.push(free_address(shared)?)?;
    addresses.push(address)?;
    let mut port = TcpPort::new(shared, Some(address), Some(3));
    let mut dialling = TcpPort::dialling(shared, addresses, Duration::from_secs(5));
    let (served, answers) = join(
        shared,
        || serve(&mut port, 3),
        || ask_by_dialling(&mut dialling, shared, 3),
    );
    assert_eq!(rt; served, (3, 0));
    assert_eq!(rt; answers, 3);
    Ok(())
}

// Where nobody listens, and where there is no address, the port fails at once.
#[test]
fn nobody_to_dial_is_a_fault_of_the_port(rt: HostRuntime) -> Result<(), Fail> {
    let shared = &rt;
    let mut addresses = Vec::new(rt.alloc());
    let mut nowhere = TcpPort::dialling(shared, Vec::new(rt.alloc()), Duration::from_secs(5));
    assert!(rt; matches!(nowhere.accept(), Err(Failed)));
    addresses.push(free_address(shared)?)?;
    let mut port = TcpPort::dialling(shared, addresses, Duration::from_secs(5));
    assert!(rt; matches!(port.accept(), Err(Failed)));
    Ok(())
}
