//! One round of a replica.
ghost use Rattle.std.specs.Prelude.{◌≡◌, true};
ghost use Rattle.epochs.specs.Fields.{is_user_name};
ghost use Rattle.follow_round.specs.Rounds.{RoundRow};

use crate::heard::Heard;
use crate::hearing::hear;
use crate::outcome::{Round, RoundFault};
use disk_model::Disk;
use exact_time::Text;
use follow_replica::Follower;
use std::alloc::Global;
use streams::Link;

/// One round of a replica on one link of its primary: asks for the entries from the wanted one on, first without credentials and then
/// with the nonce of the challenge (RFC 2617, section 3.2.2), and takes the body that comes.
///
/// `user` is a lawful user name, and `ha1` the digest of `user:realm:password` as 32 hexadecimal digits. What is answered is a
/// function of what is heard on the link and of what [`Follower::take`] answers, but for want of memory.
pub fn round<D: Disk, L: Link>(
    alloc: Global,
    follower: &mut Follower<D>,
    link: &mut L,
    user: &Text,
    ha1: &[u8; 32],
) -> Result<Round, RoundFault>
    requires user { is_user_name user.now ≡ true }
    ensures row { RoundRow D.view user.now ha1.now (L.view link.old) (L.view link.new) follower.old follower.new result }
{
    match hear(alloc, link, user, ha1, follower.wanted())? {
        Heard::Brought(body) => match follower.take(alloc, body.as_slice()) {
            Ok(count) => Ok(Round::Added(count)),
            Err(fault) => Err(RoundFault::Take(fault)),
        },
        Heard::CaughtUp => Ok(Round::CaughtUp),
        Heard::Peer(status) => Err(RoundFault::Peer(status)),
        Heard::BadReply => Err(RoundFault::BadReply),
        Heard::Lost => Err(RoundFault::Lost),
    }
}
