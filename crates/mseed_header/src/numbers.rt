//! Numbers at offsets, in either byte order.
ghost use Rattle.std.specs.Prelude.{◌≡◌, ◌+◌, ◌≤◌, length};
ghost use Rattle.mseed_header.specs.Fields.{u16_at, i16_at, i32_at};

use byteorder::{BigEndian, ByteOrder, LittleEndian};

pub fn u16_of(little: bool, bytes: &[u8], at: usize) -> u16
    requires { at + 2 ≤ length bytes.now }
    ensures { result ≡ u16_at little bytes.now at }
{
    if little {
        LittleEndian::read_u16(&bytes[at..])
    } else {
        BigEndian::read_u16(&bytes[at..])
    }
}

pub fn i16_of(little: bool, bytes: &[u8], at: usize) -> i16
    requires { at + 2 ≤ length bytes.now }
    ensures { result ≡ i16_at little bytes.now at }
{
    if little {
        LittleEndian::read_i16(&bytes[at..])
    } else {
        BigEndian::read_i16(&bytes[at..])
    }
}

pub fn i32_of(little: bool, bytes: &[u8], at: usize) -> i32
    requires { at + 4 ≤ length bytes.now }
    ensures { result ≡ i32_at little bytes.now at }
{
    if little {
        LittleEndian::read_i32(&bytes[at..])
    } else {
        BigEndian::read_i32(&bytes[at..])
    }
}
