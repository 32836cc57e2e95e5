//! How a run ends.
use centre_select::Word;
use exact_time::OutOfMemory;
use mseed_header::RecordFault;

/// Why the words and what they make the program read give no answer: these determine it.
#[derive(Clone, Copy, Debug, PartialEq, Eq)]
pub enum Refusal {
    /// The words are no command.
    UnknownCommand,
    /// The value of this word can't be read.
    Value(Word),
    /// The start is after the end.
    Order,
    /// The record at this offset, in bytes, is the first that is refused.
    Record { at: usize, fault: RecordFault },
    /// No record is picked, or nothing is covered.
    NoData,
    /// The answer has more bytes than the limit.
    TooLarge { bytes: u64, limit: u64 },
    /// The report has more lines than the limit.
    TooManyLines { lines: u64, limit: u64 },
    /// The file of a journal that is to be made has bytes.
    NotEmpty,
    /// The file of the archive has fewer than 17 bytes, or another magic.
    NotAJournal,
    /// The journal is damaged at this offset.
    Damaged(u64),
    /// The input has more than [`crate::MAX_INPUT`] bytes.
    InputTooLong,
    /// The input ended inside a request.
    RequestCut,
    /// The data centre answered this status, which is no answer for a window.
    Peer(u16),
    /// The data centre gave no reply, or one that can't be used.
    BadReply,
    /// The last round ended at a lost connection.
    Lost,
    /// The last round's answers were over archives of these lengths, two neighbours.
    Moved(u64, u64),
    /// A round had 10,000 requests, and a window was left.
    Requests,
}

/// Why a run stopped before it was done.
#[derive(Clone, Copy, Debug, PartialEq, Eq)]
pub enum Stop {
    Refused(Refusal),
    /// The source failed.
    ReadFault,
    /// The sink failed.
    WriteFault,
    /// The disk failed.
    DiskFault,
    /// The port of a worker failed.
    PortFault,
    /// The port gave no further link.
    NoLink,
    OutOfMemory,
}

impl Refusal {
    ghost use Rattle.std.specs.Prelude.{◌≡◌};
    ghost use Rattle.centre.specs.Status.{status_of_refusal};

    /// The exit status.
    pub fn status(self) -> u8
        ensures { result ≡ status_of_refusal self }
    {
        match self {
            Refusal::UnknownCommand => 1,
            Refusal::Value(_) | Refusal::Order | Refusal::Record { .. } => 2,
            Refusal::NoData => 3,
            Refusal::TooLarge { .. } | Refusal::TooManyLines { .. } => 4,
            Refusal::NotEmpty | Refusal::NotAJournal | Refusal::Damaged(_) => 9,
            Refusal::InputTooLong => 10,
            Refusal::RequestCut => 11,
            Refusal::Peer(_) => 13,
            Refusal::BadReply => 14,
            Refusal::Lost | Refusal::Moved(..) => 15,
            Refusal::Requests => 18,
        }
    }
}

impl Stop {
    ghost use Rattle.std.specs.Prelude.{◌≡◌};
    ghost use Rattle.centre.specs.Status.{status_of};

    /// The exit status.
    pub fn status(self) -> u8
        ensures { result ≡ status_of self }
    {
        match self {
            Stop::Refused(refusal) => refusal.status(),
            Stop::ReadFault => 5,
            Stop::WriteFault => 6,
            Stop::DiskFault => 7,
            Stop::PortFault => 8,
            Stop::NoLink => 17,
            Stop::OutOfMemory => 70,
        }
    }
}

impl From<OutOfMemory> for Stop {
    ghost use Rattle.std.specs.Prelude.{◌≡◌};
    ghost use Rattle.centre.specs.declared.ending.Stop.TheVariants.{OutOfMemory as NoMemory};

    ghost from_gives = { λ _ e. e ≡ NoMemory };

    fn from(_error: OutOfMemory) -> Stop {
        Stop::OutOfMemory
    }
}
