//! How a stream of requests ends.
ghost use Rattle.std.specs.Prelude.{◌≡◌};

use exact_time::OutOfMemory;
use std::error::Error;
use std::fmt;

/// Why a front isn't the head of a request that is read, in the order of the tests.
#[derive(Clone, Copy, Debug, PartialEq, Eq)]
pub enum HeadFault {
    /// More than 8,000 bytes follow the first space of the first line before a space, CR or LF.
    TargetTooLong,
    /// No block ends within 16,384 bytes, the blank ones in front counted.
    HeadTooLong,
    /// The block isn't a head of HTTP/1.0 or HTTP/1.1.
    BadHead,
    /// There are more than 64 fields.
    TooManyHeaders,
    /// A Content-Length isn't 1 to 18 digits, or another one stands for another number.
    BadLength,
    /// There is a Transfer-Encoding, or a POST has no Content-Length.
    NoLength,
    /// The body has so many bytes, more than may be.
    BodyTooLong(u64),
}

impl fmt::Display for HeadFault {
    ghost use Rattle.std.specs.Prelude.{Some};
    ghost use Rattle.http_wire.specs.FaultTexts.{head_fault_text};

    ghost output = { λ fault. Some (head_fault_text fault) };

    fn fmt<W: fmt::Write>(&self, f: &mut fmt::Formatter<W>) -> fmt::Result {
        match self {
            HeadFault::TargetTooLong => f.write_str("target too long"),
            HeadFault::HeadTooLong => f.write_str("head too long"),
            HeadFault::BadHead | HeadFault::BadLength => f.write_str("bad request head"),
            HeadFault::TooManyHeaders => f.write_str("too many headers"),
            HeadFault::NoLength => f.write_str("length required"),
            HeadFault::BodyTooLong(size) => write!(f, "body of {size} bytes too long"),
        }
    }
}

impl Error for HeadFault {}

/// How a stream ends, as its bytes determine it.
#[derive(Clone, Copy, Debug, PartialEq, Eq)]
pub enum StreamEnd {
    End,
    Cut,
    Head(HeadFault),
}

/// Why there is no next request.
#[derive(Clone, Copy, Debug, PartialEq, Eq)]
pub enum ReadEnd {
    /// The input ended, and nothing but CR and LF was left.
    End,
    /// The input ended inside a request.
    Cut,
    /// The head of the next request has this fault.
    Head(HeadFault),
    /// The link failed, and counted it.
    LinkFault,
    /// There was no memory for the request. The link may have been read further.
    OutOfMemory,
}

impl fmt::Display for ReadEnd {
    fn fmt<W: fmt::Write>(&self, f: &mut fmt::Formatter<W>) -> fmt::Result {
        match self {
            ReadEnd::End => f.write_str("end of the input"),
            ReadEnd::Cut => f.write_str("end of the input inside a request"),
            ReadEnd::Head(fault) => write!(f, "{fault}"),
            ReadEnd::LinkFault => f.write_str("fault of the link"),
            ReadEnd::OutOfMemory => f.write_str("out of memory"),
        }
    }
}

impl Error for ReadEnd {}

impl From<OutOfMemory> for ReadEnd {
    ghost use Rattle.http_wire.specs.declared.ending.ReadEnd.TheVariants.{OutOfMemory as NoMemory};

    ghost from_gives = { λ _ e. e ≡ NoMemory };

    fn from(_error: OutOfMemory) -> ReadEnd {
        ReadEnd::OutOfMemory
    }
}

/// Why reading stops.
#[derive(Clone, Copy, Debug, PartialEq, Eq)]
pub enum Stop {
    /// The bytes determine it.
    Ended(StreamEnd),
    /// The input ended inside a body.
    BodyCut,
    LinkFault,
    OutOfMemory,
}
