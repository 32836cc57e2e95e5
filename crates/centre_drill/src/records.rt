//! The records that are made.
ghost use Rattle.std.specs.Prelude.{◌≡◌, ◌+◌, ◌++◌, ◌<◌, ◌≤◌, IfOk, OnOk};
ghost use Rattle.centre_drill.specs.Records.{digit, seconds_after, made_head, made_record, made_body};

use exact_time::{Bytes, OutOfMemory};
use std::alloc::Global;

// What a record has behind its head.
const ZEROS: [u8; 456] = [0; 456];

// The last decimal digit of a number.
fn digit(n: u32) -> u8
    ensures { result ≡ digit n }
{
    b'0' + (n % 10) as u8
}

// How many seconds after 2024 began record i starts.
fn seconds_after(i: u32) -> u32
    requires { i < 200_000 }
    ensures value { result ≡ seconds_after i }
    ensures bound { result < 172_800 }
{
    5 * (i / 8) + i / 80
}

// The first 56 bytes of record i.
fn made_head(i: u32) -> [u8; 56]
    requires { i < 200_000 }
    ensures { result ≡ made_head i }
{
    let n = i + 1;
    let s = seconds_after(i);
    let day = 1 + (s / 86_400) as u8;
    let hour = (s / 3600 % 24) as u8;
    let minute = (s / 60 % 60) as u8;
    let second = (s % 60) as u8;
    [
        digit(n / 100_000),
        digit(n / 10_000),
        digit(n / 1000),
        digit(n / 100),
        digit(n / 10),
        digit(n),
        b'D',
        b' ',
        b'S',
        digit(i % 8),
        b' ',
        b' ',
        b' ',
        b' ',
        b' ',
        b'B',
        b'H',
        b'Z',
        b'X',
        b'X',
        0x07,
        0xe8,
        0,
        day,
        hour,
        minute,
        second,
        0,
        0,
        0,
        0,
        100,
        0,
        20,
        0,
        1,
        0,
        0,
        0,
        1,
        0,
        0,
        0,
        0,
        0,
        64,
        0,
        48,
        0x03,
        0xe8,
        0,
        0,
        10,
        1,
        9,
        0,
    ]
}

// Puts record i behind others.
fn push_record(body: &mut Bytes, i: u32) -> Result<(), OutOfMemory>
    requires { i < 200_000 }
    ensures { OnOk result (body.new ≡ body.old ++ made_record i) }
{
    body.extend(&made_head(i))?;
    body.extend(&ZEROS)
}

/// So many records, one after another, from record `from` on.
pub(crate) fn made_body(alloc: Global, from: u32, count: u32) -> Result<Bytes, OutOfMemory>
    requires { from + count ≤ 200_000 }
    ensures { IfOk result (λ body. body ≡ made_body from count) }
{
    let mut body = Bytes::new(alloc);
    'records: for i in from..from + count {
        push_record(&mut body, i)?;
    }
    Ok(body)
}
