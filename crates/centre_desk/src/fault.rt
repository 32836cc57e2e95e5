//! Why a request isn't given what it asks for.
ghost use Rattle.std.specs.Prelude.{◌≡◌};
ghost use Rattle.centre_desk.specs.Faults.{head_status, denial_status, what_failed, status_of};

use access_digest::Denial;
use epoch_rules::Rule;
use epochs::LineFault;
use http_replies::Allow;
use http_wire::HeadFault;
use mseed_header::RecordFault;
use query_words::QueryFault;
use std::fmt;

/// Why a request isn't given what it asks for.
#[derive(Clone, Copy, Debug, PartialEq, Eq)]
pub enum Fault {
    /// The head of the request is refused.
    Head(HeadFault),
    /// Nothing has that path.
    NoPath,
    /// The path has these methods.
    NoMethod(Allow),
    /// The fields X-Archive-Front aren't one of 1 to 18 digits.
    BadFront,
    /// More entries are asked for than there are.
    Behind { asked: u64, reached: u64 },
    /// The query is none, or the sequence number of a command.
    Query(QueryFault),
    /// The credentials name no user.
    Denied(Denial),
    /// The user may not post this, or may not copy the archive.
    Role,
    /// The user's entry of that number has the same sequence number, and another kind or body.
    OtherBody(u64),
    /// The sequence number is above the user's last one, which is this, plus 1.
    Gap(u64),
    /// The first record that is refused, by its offset in bytes.
    Record { at: usize, fault: RecordFault },
    /// The first line that spells nothing, by its number.
    Line { line: u64, fault: LineFault },
    /// The first line that breaks a rule, by its number.
    Broken { line: u64, rule: Rule },
    /// There is nothing that is asked for.
    NoData,
    /// So many bytes are asked for, more than may be.
    ManyBytes { bytes: u64, most: u64 },
    /// So many lines are asked for, more than may be.
    ManyLines { lines: u64, most: u64 },
    /// With the batch the archive had so many records, more than it may have.
    FullRecords { records: u64, most: u64 },
    /// With the command the archive's bodies had so many bytes, more than they may have.
    FullBytes { bytes: u64, most: u64 },
    /// The disk stopped the command.
    Stopped,
}

fn head_status(fault: HeadFault) -> u16
    ensures { result ≡ head_status fault }
{
    match fault {
        HeadFault::TargetTooLong => 414,
        HeadFault::HeadTooLong | HeadFault::TooManyHeaders => 431,
        HeadFault::BadHead | HeadFault::BadLength => 400,
        HeadFault::NoLength => 411,
        HeadFault::BodyTooLong(_) => 413,
    }
}

fn denial_status(denial: Denial) -> u16
    ensures { result ≡ denial_status denial }
{
    match denial {
        Denial::Absent | Denial::Unreadable | Denial::Stale => 401,
        Denial::UnknownUser | Denial::WrongResponse => 403,
    }
}

// What a caller is denied for: who it is, or what it may do.
fn what_failed(denial: Denial) -> &'static str
    ensures { result.now ≡ what_failed denial }
{
    match denial {
        Denial::Absent | Denial::Unreadable | Denial::Stale => "authentication",
        Denial::UnknownUser | Denial::WrongResponse => "access",
    }
}

impl Fault {
    /// The status that tells it (RFC 9110, section 15).
    pub fn status(self) -> u16
        ensures { result ≡ status_of self }
    {
        match self {
            Fault::Head(fault) => head_status(fault),
            Fault::Denied(denial) => denial_status(denial),
            Fault::BadFront
            | Fault::Behind { .. }
            | Fault::Query(_)
            | Fault::Record { .. }
            | Fault::Line { .. }
            | Fault::Broken { .. } => 400,
            Fault::Role => 403,
            Fault::NoPath | Fault::NoData => 404,
            Fault::NoMethod(_) => 405,
            Fault::OtherBody(_) | Fault::Gap(_) => 409,
            Fault::ManyBytes { .. } | Fault::ManyLines { .. } => 413,
            Fault::Stopped => 503,
            Fault::FullRecords { .. } | Fault::FullBytes { .. } => 507,
        }
    }
}

impl fmt::Display for Fault {
    ghost use Rattle.std.specs.Prelude.{Some};
    ghost use Rattle.centre_desk.specs.Faults.{fault_text};

    ghost output = { λ fault. Some (fault_text fault) };

    fn fmt<W: fmt::Write>(&self, f: &mut fmt::Formatter<W>) -> fmt::Result {
        match *self {
            Fault::Head(HeadFault::BodyTooLong(bytes)) => {
                write!(f, "body of {bytes} bytes exceeds 1048576")
            }
            Fault::Head(fault) => write!(f, "{fault}"),
            Fault::NoPath => f.write_str("no such path"),
            Fault::NoMethod(_) => f.write_str("method not allowed"),
            Fault::BadFront => f.write_str("bad X-Archive-Front"),
            Fault::Behind { asked, reached } => {
                write!(f, "front {asked} asked, front {reached} reached")
            }
            Fault::Query(fault) => write!(f, "query: {fault}"),
            Fault::Denied(denial) => write!(f, "{}: {denial}", what_failed(denial)),
            Fault::Role => f.write_str("access: Role"),
            Fault::OtherBody(number) => write!(f, "entry {number} has another body"),
            Fault::Gap(last) => write!(f, "sequence gap after {last}"),
            Fault::Record { at, fault } => write!(f, "record at {at}: {fault}"),
            Fault::Line { line, fault } => write!(f, "line {line}: {fault}"),
            Fault::Broken { line, rule } => write!(f, "line {line}: {rule}"),
            Fault::NoData => f.write_str("no data"),
            Fault::ManyBytes { bytes, most } => write!(f, "{bytes} bytes exceed {most}"),
            Fault::ManyLines { lines, most } => write!(f, "{lines} lines exceed {most}"),
            Fault::FullRecords { records, most } => write!(f, "{records} records exceed {most}"),
            Fault::FullBytes { bytes, most } => write!(f, "{bytes} archive bytes exceed {most}"),
            Fault::Stopped => f.write_str("archive stopped"),
        }
    }
}
