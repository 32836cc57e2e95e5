//! Requests without a body, written to a link.
ghost use Rattle.std.specs.Prelude.{◌≡◌, IfOk};

use exact_time::{Bytes, Many};
use http_answers::{Asked, write_request};
use http_wire::{Field, Inbox, read_request};
use std::alloc::Global;
use std::test::Fail;
use streams::MemoryLink;

fn bytes_of(alloc: Global, text: &[u8]) -> Result<Bytes, Fail>
    ensures { IfOk result (λ bytes. bytes ≡ text.now) }
{
    let mut bytes = Bytes::new(alloc);
    bytes.extend(text)?;
    Ok(bytes)
}

// The request for the entries of an archive from the first one on.
fn entries_asked(alloc: Global) -> Result<Asked, Fail> {
    let mut fields = Many::new(alloc);
    fields.push(Field {
        name: bytes_of(alloc, b"host")?,
        value: bytes_of(alloc, b"localhost")?,
    })?;
    fields.push(Field {
        name: bytes_of(alloc, b"connection")?,
        value: bytes_of(alloc, b"close")?,
    })?;
    Ok(Asked {
        method: bytes_of(alloc, b"GET")?,
        target: bytes_of(alloc, b"/archive/1/entries?from=1")?,
        fields,
    })
}

const WRITTEN: &[u8] =
    b"GET /archive/1/entries?from=1 HTTP/1.1\r\nhost: localhost\r\nconnection: close\r\n\r\n";

fn link_of(alloc: Global, piece: &[u8], fails: &[u64]) -> Result<MemoryLink, Fail> {
    let mut pieces = Many::new(alloc);
    pieces.push(bytes_of(alloc, piece)?)?;
    let mut calls = Many::new(alloc);
    'calls: for call in fails {
        calls.push(*call)?;
    }
    Ok(MemoryLink::new(alloc, pieces, calls))
}

// It goes out in one piece, and a server reads it as that request.
#[test]
fn a_request_is_read_as_it_was_written(rt: HostRuntime) -> Result<(), Fail> {
    let alloc = rt.alloc();
    let asked = entries_asked(alloc)?;
    let mut link = link_of(alloc, b"", &[2])?;
    assert!(rt; write_request(&mut link, &asked).is_ok());
    assert!(rt; link.told() == Some(WRITTEN));
    assert!(rt; write_request(&mut link, &asked).is_err());
    let mut server = link_of(alloc, WRITTEN, &[])?;
    let mut inbox = Inbox::new(alloc)?;
    let Ok(request) = read_request(alloc, &mut server, &mut inbox, 0) else {
        return Err("no request".into());
    };
    assert!(rt; request.method.as_slice() == b"GET".as_slice());
    assert!(rt; request.target.as_slice() == b"/archive/1/entries?from=1".as_slice());
    assert!(rt; request.headers.len() == 2 && request.close);
    Ok(())
}
