use exact_time::OutOfMemory;
use std::error::Error;
use std::fmt;

/// What a line has to keep over the live lines before it, in the order of the tests.
#[derive(Clone, Copy, Debug, PartialEq, Eq)]
pub enum Rule {
    /// An epoch of a network, a station or a channel overlaps no live one of the same codes with another
    /// start. Two epochs overlap where each starts before the other's end.
    Overlap,
    /// One live epoch of a channel's station contains the channel's epoch: it starts no later and ends no
    /// earlier.
    NoStationEpoch,
    /// One live epoch of a station's network contains the station's epoch.
    NoNetworkEpoch,
    /// The user to whom something is granted is live.
    NoUser,
    /// The key that is deleted is live.
    Absent,
    /// With the line, no live channel, station or grant lacks its container or user.
    Orphans,
    /// With the line, some live user has the role operator.
    NoOperator,
    /// With the line, at most 100,000 lines are live.
    TooMany,
}

impl fmt::Display for Rule {
    ghost use Rattle.std.specs.Prelude.{Some};
    ghost use Rattle.epoch_rules.specs.RuleNames.{rule_name};

    ghost output = { λ fault. Some (rule_name fault) };

    fn fmt<W: fmt::Write>(&self, f: &mut fmt::Formatter<W>) -> fmt::Result {
        f.write_str(match self {
            Rule::Overlap => "Overlap",
            Rule::NoStationEpoch => "NoStationEpoch",
            Rule::NoNetworkEpoch => "NoNetworkEpoch",
            Rule::NoUser => "NoUser",
            Rule::Absent => "Absent",
            Rule::Orphans => "Orphans",
            Rule::NoOperator => "NoOperator",
            Rule::TooMany => "TooMany",
        })
    }
}

/// Why lines aren't taken into a catalog.
#[derive(Clone, Copy, Debug, PartialEq, Eq, Drop)]
pub enum CheckFault {
    /// The line of this number, counted from 1 over the lines, is the first that breaks a rule, and this is
    /// the first rule that it breaks.
    Broken { line: u64, rule: Rule },
    OutOfMemory,
}

impl fmt::Display for CheckFault {
    fn fmt<W: fmt::Write>(&self, f: &mut fmt::Formatter<W>) -> fmt::Result {
        match self {
            CheckFault::Broken { line, rule } => write!(f, "line {line}: {rule}"),
            CheckFault::OutOfMemory => f.write_str("out of memory"),
        }
    }
}

impl Error for CheckFault {}

impl From<OutOfMemory> for CheckFault {
    ghost use Rattle.std.specs.Prelude.{◌≡◌};
    ghost use Rattle.epoch_rules.specs.declared.rule.CheckFault.TheVariants.{OutOfMemory as NoMemory};

    ghost from_gives = { λ _ e. e ≡ NoMemory };

    fn from(_error: OutOfMemory) -> CheckFault {
        CheckFault::OutOfMemory
    }
}
