ghost use Rattle.std.specs.Prelude.{◌≡◌, ◌<ℤ◌, ◌≤ℤ◌, pos, IfOk};
ghost use Rattle.mseed_header.specs.Header.{IsRecord, IsRecord-prop};

use crate::Header;
use exact_time::{Bytes, Moment, OutOfMemory};
use std::alloc::Global;

/// A record as it came, with what its header says.
#[derive(Debug, Drop)]
pub struct Row {
    pub header: Header,
    /// The record's bytes.
    pub image: Bytes,
    /// The number of the entry that brought it.
    pub entry: u64,
    /// Its number within that entry, from 0.
    pub place: u32,
    /// The moment of that entry, from 1970 to 2599.
    pub moment: Moment,
    pub ghost head: { IsRecord image header } by { IsRecord-prop image header },
    pub ghost since_1970: { pos 0 ≤ℤ moment.micros },
    pub ghost before_2600: { moment.micros <ℤ pos 19_880_899_200_000_000 },
}

impl Row {
    /// The row of a record, whose bytes are `image`, with its own copy of them.
    pub fn of(
        alloc: Global,
        header: Header,
        image: &[u8],
        entry: u64,
        place: u32,
        moment: Moment,
    ) -> Result<Row, OutOfMemory>
        requires head { IsRecord image.now header }
        requires since_1970 { pos 0 ≤ℤ moment.micros }
        requires before_2600 { moment.micros <ℤ pos 19_880_899_200_000_000 }
        ensures header { IfOk result (λ row. row.header ≡ header) }
        ensures image { IfOk result (λ row. row.image ≡ image.now) }
        ensures entry { IfOk result (λ row. row.entry ≡ entry) }
        ensures place { IfOk result (λ row. row.place ≡ place) }
        ensures moment { IfOk result (λ row. row.moment ≡ moment) }
    {
        let mut bytes = Bytes::new(alloc);
        bytes.extend(image)?;
        Ok(Row::with(header, bytes, entry, place, moment))
    }

    /// The row of a record, whose bytes are `image`. Copies nothing.
    pub fn with(header: Header, image: Bytes, entry: u64, place: u32, moment: Moment) -> Row
        requires head { IsRecord image header }
        requires since_1970 { pos 0 ≤ℤ moment.micros }
        requires before_2600 { moment.micros <ℤ pos 19_880_899_200_000_000 }
        ensures header { result.header ≡ header }
        ensures image { result.image ≡ image }
        ensures entry { result.entry ≡ entry }
        ensures place { result.place ≡ place }
        ensures moment { result.moment ≡ moment }
    {
        Row {
            header,
            image,
            entry,
            place,
            moment,
        }
    }
}
