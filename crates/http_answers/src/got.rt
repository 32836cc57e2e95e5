//! A reply that was read.
ghost use Rattle.std.specs.Prelude.{◌≡◌};

use exact_time::{Bytes, OutOfMemory, Text};
use std::error::Error;
use std::fmt;

/// A reply: its status, what two of its fields say, and its body.
#[derive(Drop)]
pub struct Got {
    /// The status, three digits.
    pub status: u16,
    /// The number of entries that the reply speaks of: the first X-Archive-Front, where it is a number below 2^64.
    pub front: Option<u64>,
    /// The nonce of the challenge: the first 48 hexadecimal digits in quotation marks behind `nonce=` in the first
    /// WWW-Authenticate (RFC 2617, section 3.2.1).
    pub nonce: Option<Text>,
    /// The body, as many bytes as the first Content-Length says; none for 204.
    pub body: Bytes,
}

/// Why no reply was read.
#[derive(Clone, Copy, Debug, PartialEq, Eq)]
pub enum GotEnd {
    /// The bytes begin with no head of HTTP/1 of at most 16,384 bytes and 64 fields, whatever follows; or the status isn't 204,
    /// and the first Content-Length isn't 1 to 18 digits, or there is none.
    BadReply,
    /// The body has so many bytes, more than may be.
    TooLong(u64),
    /// The input ended before the reply did.
    Cut,
    /// The link failed, and counted it.
    LinkFault,
    /// There was no memory. The link may have been read further.
    OutOfMemory,
}

impl fmt::Display for GotEnd {
    fn fmt<W: fmt::Write>(&self, f: &mut fmt::Formatter<W>) -> fmt::Result {
        match self {
            GotEnd::BadReply => f.write_str("bad reply"),
            GotEnd::TooLong(size) => write!(f, "body of {size} bytes too long"),
            GotEnd::Cut => f.write_str("end of the input inside a reply"),
            GotEnd::LinkFault => f.write_str("fault of the link"),
            GotEnd::OutOfMemory => f.write_str("out of memory"),
        }
    }
}

impl Error for GotEnd {}

impl From<OutOfMemory> for GotEnd {
    ghost use Rattle.http_answers.specs.declared.got.GotEnd.TheVariants.{OutOfMemory as NoMemory};

    ghost from_gives = { λ _ e. e ≡ NoMemory };

    fn from(_error: OutOfMemory) -> GotEnd {
        GotEnd::OutOfMemory
    }
}
