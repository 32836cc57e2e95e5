//! What the tests' archives hold: a user's key, a founding file, users, epochs, a record, a secret and a moment.
//!
//! The tests of several crates share it. Nothing but tests uses it, so that its functions have no contracts.
#![tactic(auto)]

use exact_time::{Bytes, Moment, OutOfMemory};
use http_digest::Secret;
use std::alloc::Global;

/// The HA1 of every user (RFC 2617, section 3.2.2.2).
pub const HA1: &str = "939e7578ed9e3c518a452acee763bce9";

/// The same as bytes.
pub const HA1_DIGITS: [u8; 32] = *b"939e7578ed9e3c518a452acee763bce9";

/// The journal with the founding entry of op: 103 bytes.
pub const FOUNDED: &[u8] =
    b"FDSNARCHIVE-0001\x01\0\0\0\x51\0\0\0\0\0\0\0\x01\0\0\0\0\0\0\0\0\x02op\0\0\0\0\0\0\0\0\x02\0\0\0\x31USR|op|939e7578ed9e3c518a452acee763bce9|operator\n\0";

/// A feed and a reader.
pub const USERS: &str =
    "USR|feed1|939e7578ed9e3c518a452acee763bce9|feed\nUSR|ada|939e7578ed9e3c518a452acee763bce9|reader\n";

/// A network, a station and an event.
pub const EPOCHS: &str =
    "NET|IU|GSN|1988-01-01|\nSTA|IU|ANMO|34.9459|-106.4572|1850|Albuquerque|2002-11-19T21:07:00|\nEVT|e1|2024-01-01T07:10:09|37.498|137.242|10|us|NEIC|us|e1|Mww|7.5|us|Noto\n";

/// The secret of the nonces.
pub const SECRET: Secret = Secret {
    bytes: [0, 1, 2, 3, 4, 5, 6, 7, 8, 9, 10, 11, 12, 13, 14, 15],
};

/// 2024-03-01T00:00:00.
pub const NOW: Moment = Moment {
    micros: 1_709_251_200_000_000,
};

const ANMO_HEAD: [u8; 56] = [
    0x30, 0x30, 0x30, 0x30, 0x30, 0x31, 0x44, 0x20, 0x41, 0x4e, 0x4d, 0x4f, 0x20, 0x30, 0x30, 0x42,
    0x48, 0x5a, 0x49, 0x55, 0x07, 0xe8, 0x00, 0x20, 0x00, 0x00, 0x00, 0x00, 0x00, 0x00, 0x00, 0x64,
    0x00, 0x14, 0x00, 0x01, 0x00, 0x00, 0x00, 0x01, 0x00, 0x00, 0x00, 0x00, 0x00, 0x40, 0x00, 0x30,
    0x03, 0xe8, 0x00, 0x00, 0x0a, 0x01, 0x09, 0x00,
];

/// A record of 512 bytes: IU ANMO 00 BHZ, quality D, 100 samples at 20 Hz from 2024-02-01T00:00:00.
pub fn anmo_record() -> [u8; 512] {
    let mut record = [0; 512];
    record[..56].copy_from_slice(&ANMO_HEAD);
    record
}

/// Two samples at 3 Hz in its place.
pub fn three_hertz_record() -> [u8; 512] {
    let mut record = anmo_record();
    record[30..36].copy_from_slice(&[0, 2, 0, 3, 0, 1]);
    record
}

/// A copy of some bytes.
pub fn bytes(alloc: Global, piece: &[u8]) -> Result<Bytes, OutOfMemory> {
    let mut bytes = Bytes::new(alloc);
    bytes.extend(piece)?;
    Ok(bytes)
}
