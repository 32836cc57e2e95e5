//! Rounds one after another, each on a link of a port.
ghost use Rattle.std.specs.Prelude.{◌≡◌, ◌≤◌, true};
ghost use Rattle.epochs.specs.Fields.{is_user_name};
ghost use Rattle.follow_round.specs.Following.{FollowsRow, next_of};

use crate::one_round::round;
use crate::outcome::{Round, RoundFault};
use disk_model::Disk;
use exact_time::{Failed, Text};
use follow_replica::{Follower, TakeFault};
use link_ports::Port;
use std::alloc::Global;
use std::error::Error;
use std::fmt;

/// Why a replica hasn't caught up with its primary.
#[derive(Clone, Copy, Debug, PartialEq, Eq)]
pub enum FollowFault {
    /// The last round ended at a lost connection.
    Lost,
    /// The last round added what came, and the primary may have more.
    Used,
    /// The port gave no further link.
    NoLink,
    /// The port failed, and counted it.
    PortFault,
    /// The primary answered this status: another than 401 at first, or neither 200 nor 204 to credentials.
    Peer(u16),
    /// No reply, or one that can't be read, or a body of more than 67,108,864 bytes, or a challenge without a nonce.
    BadReply,
    /// The body wasn't taken, or not all of it.
    Take(TakeFault),
    /// There was no memory to ask.
    OutOfMemory,
}

impl fmt::Display for FollowFault {
    fn fmt<W: fmt::Write>(&self, f: &mut fmt::Formatter<W>) -> fmt::Result {
        match self {
            FollowFault::Lost => f.write_str("connection lost"),
            FollowFault::Used => f.write_str("rounds used"),
            FollowFault::NoLink => f.write_str("no more links"),
            FollowFault::PortFault => f.write_str("port fault"),
            FollowFault::Peer(status) => write!(f, "peer answered {status}"),
            FollowFault::BadReply => f.write_str("bad reply"),
            FollowFault::Take(fault) => write!(f, "{fault}"),
            FollowFault::OutOfMemory => f.write_str("out of memory"),
        }
    }
}

impl Error for FollowFault {}

/// What comes behind a round.
#[derive(Clone, Copy, Debug, PartialEq, Eq)]
pub enum Next {
    /// Another round.
    Again,
    /// Nothing: the primary has no entry more.
    CaughtUp,
    /// Nothing: following ends with this fault.
    Ends(FollowFault),
}

// What comes behind a round that answered so, the last one or not.
fn next_of(answer: Result<Round, RoundFault>, is_last: bool) -> Next
    ensures { result ≡ next_of answer is_last }
{
    match answer {
        Ok(Round::CaughtUp) => Next::CaughtUp,
        Ok(Round::Added(_)) if is_last => Next::Ends(FollowFault::Used),
        Err(RoundFault::Lost) if is_last => Next::Ends(FollowFault::Lost),
        Ok(Round::Added(_)) | Err(RoundFault::Lost) => Next::Again,
        Err(RoundFault::Peer(status)) => Next::Ends(FollowFault::Peer(status)),
        Err(RoundFault::BadReply) => Next::Ends(FollowFault::BadReply),
        Err(RoundFault::Take(fault)) => Next::Ends(FollowFault::Take(fault)),
        Err(RoundFault::OutOfMemory) => Next::Ends(FollowFault::OutOfMemory),
    }
}

/// Follows a primary: a round on each link of the port, until the primary has no entry more, and `rounds` of them at most. Each
/// link is given back. It answers how many entries the replica has.
///
/// A connection that is lost, and entries that were added, go on to the next round. `user` is a lawful user name, and `ha1` the
/// digest of `user:realm:password` as 32 hexadecimal digits.
pub fn follow<D: Disk, P: Port>(
    alloc: Global,
    follower: &mut Follower<D>,
    port: &mut P,
    user: &Text,
    ha1: &[u8; 32],
    rounds: u64,
) -> Result<u64, FollowFault>
    requires user { is_user_name user.now ≡ true }
    requires rounds { 1 ≤ rounds }
    ensures row { FollowsRow D.view user.now ha1.now rounds (P.view port.old) (P.view port.new) follower.old follower.new result }
{
    let _first = follower.wanted();
    let mut done = 0;
    'rounds: loop {
        let _wanted = follower.wanted();
        let mut link = match port.accept() {
            Ok(Some(link)) => link,
            Ok(None) => return Err(FollowFault::NoLink),
            Err(Failed) => return Err(FollowFault::PortFault),
        };
        let answer = round(alloc, follower, &mut link, user, ha1);
        port.give_back(link, &[]);
        done += 1;
        match next_of(answer, done == rounds) {
            Next::Again => {}
            Next::CaughtUp => return Ok(follower.wanted() - 1),
            Next::Ends(fault) => return Err(fault),
        }
    }
}
