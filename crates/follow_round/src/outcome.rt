//! What a round comes to.
ghost use Rattle.std.specs.Prelude.{◌≡◌};

use exact_time::OutOfMemory;
use follow_replica::TakeFault;
use std::error::Error;
use std::fmt;

/// What a round did.
#[derive(Clone, Copy, Debug, PartialEq, Eq)]
pub enum Round {
    /// So many entries were added.
    Added(u64),
    /// The primary has no entry more.
    CaughtUp,
}

/// Why a round did nothing, or not all of it.
#[derive(Clone, Copy, Debug, PartialEq, Eq)]
pub enum RoundFault {
    /// The link failed, or its input ended before a reply did.
    Lost,
    /// The first reply has this status and not 401, or the second one this and neither 200 nor 204.
    Peer(u16),
    /// No reply, or one that can't be read, or a body of more than 67,108,864 bytes, or a challenge without a nonce.
    BadReply,
    /// The body wasn't taken, or not all of it.
    Take(TakeFault),
    /// There was no memory to ask.
    OutOfMemory,
}

impl fmt::Display for RoundFault {
    fn fmt<W: fmt::Write>(&self, f: &mut fmt::Formatter<W>) -> fmt::Result {
        match self {
            RoundFault::Lost => f.write_str("connection lost"),
            RoundFault::Peer(status) => write!(f, "peer answered {status}"),
            RoundFault::BadReply => f.write_str("bad reply"),
            RoundFault::Take(fault) => write!(f, "{fault}"),
            RoundFault::OutOfMemory => f.write_str("out of memory"),
        }
    }
}

impl Error for RoundFault {}

impl From<OutOfMemory> for RoundFault {
    ghost use Rattle.follow_round.specs.declared.outcome.RoundFault.TheVariants.{OutOfMemory as NoMemory};

    ghost from_gives = { λ _ fault. fault ≡ NoMemory };

    fn from(_error: OutOfMemory) -> RoundFault {
        RoundFault::OutOfMemory
    }
}
