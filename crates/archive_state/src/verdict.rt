//! Verdicts.
use access_digest::Denial;
use epoch_rules::Rule;
use epochs::LineFault;
use mseed_header::RecordFault;

/// What is said of a posted command, in the order of the tests.
#[derive(Clone, Copy, Debug, PartialEq, Eq)]
pub enum Verdict {
    /// The credentials name no user.
    Denied(Denial),
    /// The author is no live user with the role that the kind wants.
    Role,
    /// The author's entry of that number has this sequence number, this kind and this body.
    Repeat(u64),
    /// The author's entry of that number has this sequence number, and another kind or body.
    OtherBody(u64),
    /// The sequence number is above the author's last one, which is this, plus 1.
    Gap(u64),
    /// The first record that is refused, by its offset in bytes, and its fault; a batch without records is cut off at
    /// 0.
    BadRecord { at: usize, fault: RecordFault },
    /// The first line that spells nothing, by its number, and its fault.
    BadLine { line: u64, fault: LineFault },
    /// The first line that breaks a rule, by its number over all lines, and the rule.
    Broken { line: u64, rule: Rule },
    /// With this batch all records are so many, above the limit.
    FullRecords(u64),
    /// With this body all bodies have so many bytes, above the limit.
    FullBytes(u64),
    /// The number that the entry gets.
    Accept(u64),
}
