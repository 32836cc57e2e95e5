//! How `select` ends.
use exact_time::OutOfMemory;
use mseed_header::RecordFault;

/// A word of `select` that has a value.
#[derive(Clone, Copy, Debug, PartialEq, Eq)]
pub enum Word {
    Network,
    Station,
    Location,
    Channel,
    Start,
    End,
    Quality,
    Minimum,
    Longest,
}

/// Why the words and the input give no body: these determine it.
#[derive(Clone, Copy, Debug, PartialEq, Eq)]
pub enum SelectRefusal {
    /// The value of this word can't be read.
    Value(Word),
    /// The start is after the end.
    Order,
    /// The record at this offset, in bytes, is the first that is refused.
    Record { at: usize, fault: RecordFault },
    /// No record is picked.
    NoData,
    /// The answer has more bytes than the limit.
    TooLarge { bytes: u64, limit: u64 },
    /// The input has more than [`crate::MAX_INPUT`] bytes.
    InputTooLong,
}

/// Why `select` stopped before it was done.
#[derive(Clone, Copy, Debug, PartialEq, Eq)]
pub enum SelectStop {
    Refused(SelectRefusal),
    /// The source failed.
    ReadFault,
    /// The sink failed.
    WriteFault,
    OutOfMemory,
}

impl SelectRefusal {
    ghost use Rattle.std.specs.Prelude.{◌≡◌};
    ghost use Rattle.centre_select.specs.Status.{status_of_refusal};

    /// The exit status.
    pub fn status(self) -> u8
        ensures { result ≡ status_of_refusal self }
    {
        match self {
            SelectRefusal::Value(_) | SelectRefusal::Order | SelectRefusal::Record { .. } => 2,
            SelectRefusal::NoData => 3,
            SelectRefusal::TooLarge { .. } => 4,
            SelectRefusal::InputTooLong => 10,
        }
    }
}

impl SelectStop {
    ghost use Rattle.std.specs.Prelude.{◌≡◌};
    ghost use Rattle.centre_select.specs.Status.{status_of};

    /// The exit status.
    pub fn status(self) -> u8
        ensures { result ≡ status_of self }
    {
        match self {
            SelectStop::Refused(refusal) => refusal.status(),
            SelectStop::ReadFault => 5,
            SelectStop::WriteFault => 6,
            SelectStop::OutOfMemory => 70,
        }
    }
}

impl From<OutOfMemory> for SelectStop {
    ghost use Rattle.std.specs.Prelude.{◌≡◌};
    ghost use Rattle.centre_select.specs.declared.ending.SelectStop.TheVariants.{OutOfMemory as NoMemory};

    ghost from_gives = { λ _ e. e ≡ NoMemory };

    fn from(_error: OutOfMemory) -> SelectStop {
        SelectStop::OutOfMemory
    }
}
