ghost use Rattle.epochs.specs.Spellable.{IsSpellable, IsSpellable-prop};
ghost use Rattle.epochs.specs.Values.{network_line, station_line, channel_line, event_line, restriction_line, grant_line, user_line, withdrawal_line};
ghost use Rattle.epochs.specs.Keys.{deletion_line};

use crate::key::Key;
use crate::parts::{
    Attribution, EpochTimes, Globs, Hypocentre, Magnitude, Position, Response, Roles, Sensor,
};
use channel_globs::{Code, Nslc};
use exact_time::{Moment, Text};

/// A network.
#[derive(Debug, Drop)]
pub struct NetworkEpoch {
    pub network: Code,
    pub description: Text,
    pub times: EpochTimes,
    pub ghost spellable: { IsSpellable (network_line network description times) } by { IsSpellable-prop (network_line network description times) },
}

/// A station.
#[derive(Debug, Drop)]
pub struct StationEpoch {
    pub network: Code,
    pub station: Code,
    pub position: Position,
    pub site: Text,
    pub times: EpochTimes,
    pub ghost spellable: { IsSpellable (station_line network station position site times) } by { IsSpellable-prop (station_line network station position site times) },
}

/// A channel.
#[derive(Debug, Drop)]
pub struct ChannelEpoch {
    pub name: Nslc,
    pub position: Position,
    pub sensor: Sensor,
    pub response: Response,
    pub times: EpochTimes,
    pub ghost spellable: { IsSpellable (channel_line name position sensor response times) } by { IsSpellable-prop (channel_line name position sensor response times) },
}

/// An event.
#[derive(Debug, Drop)]
pub struct Event {
    /// 1 to 64 letters, digits and `_ - . : /`.
    pub id: Text,
    pub time: Moment,
    pub hypocentre: Hypocentre,
    pub attribution: Attribution,
    pub magnitude: Magnitude,
    pub ghost spellable: { IsSpellable (event_line id time hypocentre attribution magnitude) } by { IsSpellable-prop (event_line id time hypocentre attribution magnitude) },
}

/// Channels that only those who have a grant may read.
#[derive(Debug, Drop)]
pub struct Restriction {
    pub channels: Globs,
    pub times: EpochTimes,
    pub ghost spellable: { IsSpellable (restriction_line channels times) } by { IsSpellable-prop (restriction_line channels times) },
}

/// Channels that a user may read.
#[derive(Debug, Drop)]
pub struct Grant {
    /// The user's name.
    pub user: Text,
    pub channels: Globs,
    pub times: EpochTimes,
    pub ghost spellable: { IsSpellable (grant_line user channels times) } by { IsSpellable-prop (grant_line user channels times) },
}

/// Records that are withdrawn: they stay in the journal and are in no answer.
#[derive(Debug, Drop)]
pub struct Withdrawal {
    pub channels: Globs,
    pub times: EpochTimes,
    /// The number of the last entry whose records it can withdraw, 1 to 10^18.
    pub upto: u64,
    pub ghost spellable: { IsSpellable (withdrawal_line channels times upto) } by { IsSpellable-prop (withdrawal_line channels times upto) },
}

/// A user.
#[derive(Debug, Drop)]
pub struct User {
    /// 1 to 32 letters, digits and `_ - .`.
    pub name: Text,
    /// The HA1 of Digest access authentication (RFC 2617, 3.2.2.2): 32 lower-case hexadecimal digits.
    pub ha1: [u8; 32],
    /// At least one.
    pub roles: Roles,
    pub ghost spellable: { IsSpellable (user_line name ha1 roles) } by { IsSpellable-prop (user_line name ha1 roles) },
}

/// The end of the line that has this key.
#[derive(Debug, Drop)]
pub struct Deletion {
    pub key: Key,
    pub ghost spellable: { IsSpellable (deletion_line key) } by { IsSpellable-prop (deletion_line key) },
}

/// A revision line: a statement that stands until another line with its key, or a deletion of the key.
///
/// Its type keeps that a line can spell it (`IsSpellable` of `specs/Spellable.antt`): its codes are of
/// letters and digits, its moments of the years 1900 to 2599, its numbers in their limits, its texts
/// have at most 200 bytes and no control characters, a pattern list is that of its text, and an end is
/// after its start. Without an end an epoch stays open.
#[derive(Debug, Drop)]
pub enum Line {
    Net(NetworkEpoch),
    Sta(StationEpoch),
    Cha(ChannelEpoch),
    Evt(Event),
    Rst(Restriction),
    Grt(Grant),
    Usr(User),
    Wdr(Withdrawal),
    Del(Deletion),
}
