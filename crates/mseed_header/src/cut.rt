ghost use Rattle.std.specs.Prelude.{◌≡◌, ℕ, ℤ, pos, ◌≤ℤ◌, ◌<ℤ◌, ◌<◌, ◌^◌, ◌⊎◌, length, Err, IfOk, IfErr};
ghost use Rattle.list_laws.specs.Only.{IsOnly};
ghost use Rattle.mseed_header.specs.Records.{AreRecords, RefusesBatch, IsBatchFault};

use crate::{Header, RecordFault, Row, read_header};
use exact_time::{Bytes, Many, Moment, OutOfMemory};
use std::alloc::Global;
use std::error::Error;
use std::fmt;

/// Why bytes are no records end to end.
#[derive(Clone, Copy, Debug, PartialEq, Eq)]
pub enum CutFault {
    /// The record at this offset, in bytes, is the first that is refused.
    Bad { at: usize, fault: RecordFault },
    OutOfMemory,
}

impl fmt::Display for CutFault {
    fn fmt<W: fmt::Write>(&self, f: &mut fmt::Formatter<W>) -> fmt::Result {
        match self {
            CutFault::Bad { at, fault } => write!(f, "record at offset {at}: {fault}"),
            CutFault::OutOfMemory => f.write_str("out of memory"),
        }
    }
}

impl Error for CutFault {}

impl From<OutOfMemory> for CutFault {
    ghost use Rattle.mseed_header.specs.declared.cut.CutFault.TheVariants.{OutOfMemory as NoMemory};

    ghost from_gives = { λ _ e. e ≡ NoMemory };

    fn from(_error: OutOfMemory) -> CutFault {
        CutFault::OutOfMemory
    }
}

// The records of these bytes, which are those of the body. Their images are parts of the body.
fn cut_from(
    alloc: Global,
    body: &Bytes,
    bytes: &[u8],
    entry: u64,
    moment: Moment,
) -> Result<Many<Row>, CutFault>
    requires same { bytes.now ≡ body.now }
    requires few { length bytes.now < 2 ^ 32 }
    requires since_1970 { pos 0 ≤ℤ moment.micros }
    requires before_2600 { moment.micros <ℤ pos 19_880_899_200_000_000 }
    ensures rows { IfOk result (λ rows. AreRecords bytes.now entry moment rows) }
    ensures refused { IfErr result (RefusesBatch bytes.now) }
    ensures exact { (result ≡ Err CutFault.OutOfMemory) ⊎ IsOnly (AreRecords bytes.now entry moment) (IsBatchFault bytes.now) result }
{
    let mut rows = Many::new(alloc);
    let mut rest = bytes;
    'records: while !rest.is_empty() {
        let at = bytes.len() - rest.len();
        let header = match read_header(rest) {
            Ok(header) => header,
            Err(fault) => return Err(CutFault::Bad { at, fault }),
        };
        let (_, after) = rest.split_at(header.length as usize);
        let image = body.part(alloc, at, at + header.length as usize)?;
        let place = rows.len() as u32;
        rows.push(Row::with(header, image, entry, place, moment))?;
        rest = after;
    }
    Ok(rows)
}

/// The records that stand in a body end to end, as rows of one entry. Where the body is shared, the rows' images are
/// parts of it, and no byte is copied. No bytes give no rows.
pub fn cut_body(
    alloc: Global,
    body: &Bytes,
    entry: u64,
    moment: Moment,
) -> Result<Many<Row>, CutFault>
    requires few { length body.now < 2 ^ 32 }
    requires since_1970 { pos 0 ≤ℤ moment.micros }
    requires before_2600 { moment.micros <ℤ pos 19_880_899_200_000_000 }
    ensures rows { IfOk result (λ rows. AreRecords body.now entry moment rows) }
    ensures refused { IfErr result (RefusesBatch body.now) }
    ensures exact { (result ≡ Err CutFault.OutOfMemory) ⊎ IsOnly (AreRecords body.now entry moment) (IsBatchFault body.now) result }
{
    cut_from(alloc, body, body.as_slice(), entry, moment)
}

// A copy of the bytes, whose parts are shared.
fn shared_copy(alloc: Global, bytes: &[u8]) -> Result<Bytes, OutOfMemory>
    ensures { IfOk result (λ body. body ≡ bytes.now) }
{
    let mut body = Bytes::new(alloc);
    body.extend(bytes)?;
    body.share()
}

/// The same of bytes that are lent: the rows share one copy of them.
pub fn cut_records(
    alloc: Global,
    bytes: &[u8],
    entry: u64,
    moment: Moment,
) -> Result<Many<Row>, CutFault>
    requires few { length bytes.now < 2 ^ 32 }
    requires since_1970 { pos 0 ≤ℤ moment.micros }
    requires before_2600 { moment.micros <ℤ pos 19_880_899_200_000_000 }
    ensures rows { IfOk result (λ rows. AreRecords bytes.now entry moment rows) }
    ensures refused { IfErr result (RefusesBatch bytes.now) }
    ensures exact { (result ≡ Err CutFault.OutOfMemory) ⊎ IsOnly (AreRecords bytes.now entry moment) (IsBatchFault bytes.now) result }
{
    let Ok(body) = shared_copy(alloc, bytes) else {
        return Err(CutFault::OutOfMemory);
    };
    cut_body(alloc, &body, entry, moment)
}
