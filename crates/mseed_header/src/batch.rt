//! How many records bytes are, without a row being made.
ghost use Rattle.std.specs.Prelude.{◌≡◌, ◌+◌, ◌<◌, ◌≤◌, length, IfOk};
ghost use Rattle.list_laws.specs.Only.{IsOnly};
ghost use Rattle.mseed_header.specs.Records.{HasRecordCount, IsRefusedFirst};

use crate::{RecordFault, read_header};

// One more, where there are fewer than so many.
fn one_more(count: usize, most: usize) -> usize
    requires { count < most }
    ensures { result ≡ count + 1 }
{
    count + 1
}

/// How many records the bytes are, end to end, as no bytes are none; or the first record that is refused, by
/// its offset in bytes, with its fault. Takes no memory.
pub fn count_records(bytes: &[u8]) -> Result<usize, (usize, RecordFault)>
    ensures exact { IsOnly (HasRecordCount bytes.now) (IsRefusedFirst bytes.now) result }
    ensures few { IfOk result (λ count. count ≤ length bytes.now) }
{
    let mut rest = bytes;
    let mut count = 0;
    'records: while !rest.is_empty() {
        match read_header(rest) {
            Ok(header) => {
                let (_, after) = rest.split_at(header.length as usize);
                rest = after;
                count = one_more(count, bytes.len());
            }
            Err(fault) => return Err((bytes.len() - rest.len(), fault)),
        }
    }
    Ok(count)
}
