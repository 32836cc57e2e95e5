use crate::Quality;
use channel_globs::Nslc;
use exact_time::{Moment, Ratio};
use std::error::Error;
use std::fmt;

/// What the header of a record says.
#[derive(Clone, Copy, Debug)]
pub struct Header {
    pub name: Nslc,
    pub quality: Quality,
    /// The time of the first sample, with its correction and its microseconds.
    pub start: Moment,
    pub samples: u16,
    /// Samples per second (Hz); 0 where there are no samples.
    pub rate: Ratio,
    /// Bytes of the record.
    pub length: u32,
    /// Whether the numbers stand with the lowest byte first.
    pub little: bool,
}

/// Why bytes begin with no record (SEED 2.4). The tests go in an order of their own, which
/// `specs/Header.antt` gives, and the first that isn't passed decides.
#[derive(Clone, Copy, Debug, PartialEq, Eq)]
pub enum RecordFault {
    /// There are fewer than 48 bytes, or fewer than the record or its chain of blockettes has.
    Short,
    /// The year of the start time isn't 1900 to 2055 in either byte order.
    Year,
    /// There is no such start time.
    Time,
    /// The quality isn't D, M, Q or R.
    Quality,
    /// The station, location, channel or network isn't a code.
    Code,
    /// The chain of blockettes goes back, or one of them reaches past the record.
    Chain,
    /// The first blockette 1000 says another length than 2^7 to 2^16 bytes.
    Length,
    /// No blockette gives the record's length.
    NoBlockette1000,
    /// The time after the last sample is later than 2600-01-01T00:00:00.
    Reach,
}

impl fmt::Display for RecordFault {
    ghost use Rattle.std.specs.Prelude.{Some};
    ghost use Rattle.mseed_header.specs.FaultNames.{record_fault_name};

    ghost output = { λ fault. Some (record_fault_name fault) };

    fn fmt<W: fmt::Write>(&self, f: &mut fmt::Formatter<W>) -> fmt::Result {
        f.write_str(match self {
            RecordFault::Short => "Short",
            RecordFault::Year => "Year",
            RecordFault::Time => "Time",
            RecordFault::Quality => "Quality",
            RecordFault::Code => "Code",
            RecordFault::Chain => "Chain",
            RecordFault::Length => "Length",
            RecordFault::NoBlockette1000 => "NoBlockette1000",
            RecordFault::Reach => "Reach",
        })
    }
}

impl Error for RecordFault {}
