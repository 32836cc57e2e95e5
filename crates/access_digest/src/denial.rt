//! Why a caller isn't known.
use std::error::Error;
use std::fmt;

/// Why credentials name no user, in the order of the tests.
#[derive(Clone, Copy, Debug, PartialEq, Eq, Drop)]
pub enum Denial {
    /// There is no header Authorization.
    Absent,
    /// The header spells no authorization, or one for another target.
    Unreadable,
    /// The nonce isn't one of this secret, or isn't issued yet, or was issued more than 300 seconds ago.
    Stale,
    /// The user isn't live.
    UnknownUser,
    /// The response isn't the one that the user has to give.
    WrongResponse,
}

impl fmt::Display for Denial {
    ghost use Rattle.std.specs.Prelude.{Some};
    ghost use Rattle.access_digest.specs.DenialNames.{denial_name};

    ghost output = { λ fault. Some (denial_name fault) };

    fn fmt<W: fmt::Write>(&self, f: &mut fmt::Formatter<W>) -> fmt::Result {
        f.write_str(match self {
            Denial::Absent => "Absent",
            Denial::Unreadable => "Unreadable",
            Denial::Stale => "Stale",
            Denial::UnknownUser => "UnknownUser",
            Denial::WrongResponse => "WrongResponse",
        })
    }
}

impl Error for Denial {}

/// Why no name was given.
#[derive(Clone, Copy, Debug, PartialEq, Eq, Drop)]
pub enum WhoFault {
    Denied(Denial),
    OutOfMemory,
}

impl fmt::Display for WhoFault {
    fn fmt<W: fmt::Write>(&self, f: &mut fmt::Formatter<W>) -> fmt::Result {
        match self {
            WhoFault::Denied(denial) => write!(f, "{denial}"),
            WhoFault::OutOfMemory => f.write_str("out of memory"),
        }
    }
}

impl Error for WhoFault {}
