//! A window that is fetched over links in memory.
use crate::gathered::{end_to_end, record};
use crate::targets::codes;
use exact_time::{Bytes, Many, Moment};
use link_ports::{MemoryPort, Returned};
use split_fetch::{FetchFault, Window, fetch};
use std::alloc::Global;
use std::test::Fail;
use streams::MemoryLink;

// Too much for one answer.
const TOO_MUCH: &[u8] =
    b"HTTP/1.1 413 Content Too Large\r\nContent-Length: 0\r\nX-Archive-Front: 4\r\n\r\n";

// Two records, over archives of four and of five entries.
const TWO_OF_FOUR: &[u8] =
    b"HTTP/1.1 200 OK\r\nContent-Length: 1024\r\nX-Archive-Front: 4\r\nConnection: close\r\n\r\n";

const TWO_OF_FIVE: &[u8] =
    b"HTTP/1.1 200 OK\r\nContent-Length: 1024\r\nX-Archive-Front: 5\r\nConnection: close\r\n\r\n";

// A link that gives this reply.
fn link_of(alloc: Global, head: &[u8], body: &[[u8; 512]]) -> Result<MemoryLink, Fail> {
    let mut bytes = Bytes::new(alloc);
    bytes.extend(head)?;
    bytes.extend(end_to_end(alloc, body)?.as_slice())?;
    let mut pieces = Many::new(alloc);
    pieces.push(bytes)?;
    Ok(MemoryLink::new(alloc, pieces, Many::new(alloc)))
}

// The links of some rounds: in each the whole window is too much, and its halves have two records each.
fn port_of(alloc: Global, rounds: u32, last: &[u8]) -> Result<MemoryPort<MemoryLink>, Fail> {
    let records = [record(1, 0), record(2, 5), record(3, 10)];
    let mut links = Many::new(alloc);
    'rounds: for _ in 0..rounds {
        links.push(link_of(alloc, TOO_MUCH, &[])?)?;
        links.push(link_of(alloc, TWO_OF_FOUR, &records[..2])?)?;
        links.push(link_of(alloc, last, &records[1..])?)?;
    }
    Ok(MemoryPort::new(alloc, links, Many::new(alloc)))
}

// The first fifteen seconds of 2024-02-01.
const WINDOW: Window = Window {
    start: Moment {
        micros: 1_706_745_600_000_000,
    },
    end: Moment {
        micros: 1_706_745_615_000_000,
    },
};

// Whether the last link that came back was asked for the later half, without turns.
fn is_later_half(back: Option<&[Returned<MemoryLink>]>) -> bool {
    let wanted = b"GET /fdsnws/dataselect/1/query?net=IU&sta=ANMO&loc=--&cha=BHZ\
        &start=2024-02-01T00%3A00%3A07.500001&end=2024-02-01T00%3A00%3A15.000000 HTTP/1.1\r\n\
        host: localhost\r\nconnection: close\r\n\r\n";
    match back {
        Some([_, _, last]) => {
            last.turns.is_empty() && last.link.told() == Some(wanted.as_slice())
        }
        _ => false,
    }
}

#[test]
fn fetches_a_window_in_two_halves(rt: HostRuntime) -> Result<(), Fail> {
    let alloc = rt.alloc();
    let mut port = port_of(alloc, 1, TWO_OF_FOUR)?;
    let Some(codes) = codes(alloc, "BHZ") else {
        return Err("no codes".into());
    };
    let Ok(bytes) = fetch(alloc, &mut port, &codes, WINDOW) else {
        return Err("nothing fetched".into());
    };
    let records = end_to_end(alloc, &[record(1, 0), record(2, 5), record(3, 10)])?;
    assert!(rt; bytes.as_slice() == records.as_slice());
    assert!(rt; is_later_half(port.back()));
    Ok(())
}

#[test]
fn asks_eight_rounds_of_an_archive_that_moves(rt: HostRuntime) -> Result<(), Fail> {
    let alloc = rt.alloc();
    let mut port = port_of(alloc, 9, TWO_OF_FIVE)?;
    let Some(codes) = codes(alloc, "BHZ") else {
        return Err("no codes".into());
    };
    let end = fetch(alloc, &mut port, &codes, WINDOW).err();
    assert_eq!(rt; end, Some(FetchFault::Moved(4, 5)));
    assert_eq!(rt; port.back().map(|back| back.len()), Some(24));
    Ok(())
}
