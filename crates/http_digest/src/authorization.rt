//! What a client says to show who it is.
use exact_time::{Bytes, OutOfMemory, Text};
use std::error::Error;
use std::fmt;

/// What a request has for its user: the value of its one header Authorization, its method and its target. A
/// request without that header has None; one with two or more has a value of no bytes, which is unreadable.
#[derive(Debug, Drop)]
pub struct Credentials {
    pub header: Option<Bytes>,
    pub method: Bytes,
    pub target: Bytes,
}

/// The parts of a header Authorization (RFC 2617, section 3.2.2).
#[derive(Debug, Drop)]
pub struct Authorization {
    pub user: Text,
    /// `FDSN`.
    pub realm: Text,
    pub nonce: Text,
    /// The target that the response was made for.
    pub uri: Text,
    /// 32 hexadecimal digits, in lower case.
    pub response: Text,
    /// Where the quality of protection is `auth`.
    pub auth: Option<AuthPart>,
}

/// What the quality of protection `auth` adds: how often the nonce was used, and the client's own nonce.
#[derive(Debug, Drop)]
pub struct AuthPart {
    pub nc: Text,
    pub cnonce: Text,
}

/// Why no authorization was read.
#[derive(Clone, Copy, Debug, PartialEq, Eq, Drop)]
pub enum AuthFault {
    /// The value spells none.
    Unreadable,
    OutOfMemory,
}

impl fmt::Display for AuthFault {
    fn fmt<W: fmt::Write>(&self, f: &mut fmt::Formatter<W>) -> fmt::Result {
        f.write_str(match self {
            AuthFault::Unreadable => "Unreadable",
            AuthFault::OutOfMemory => "out of memory",
        })
    }
}

impl Error for AuthFault {}

impl From<OutOfMemory> for AuthFault {
    ghost use Rattle.std.specs.Prelude.{◌≡◌};
    ghost use Rattle.http_digest.specs.declared.authorization.AuthFault.TheVariants.{OutOfMemory as NoMemory};

    ghost from_gives = { λ _ e. e ≡ NoMemory };

    fn from(_error: OutOfMemory) -> AuthFault {
        AuthFault::OutOfMemory
    }
}
