//! Writes whole bytes.
ghost use Rattle.streams.specs.Effects.{PutsAll};

use crate::stream::Sink;
use exact_time::Failed;

/// Writes all the bytes to a sink or a link, in as many pieces as it makes of them. Where it fails, a first
/// part of them was written.
pub fn put_all<K: Sink>(sink: &mut K, bytes: &[u8]) -> Result<(), Failed>
    ensures { PutsAll (K.view sink.old) (K.view sink.new) result bytes.now }
{
    let mut done = 0;
    'pieces: while done < bytes.len() {
        done += sink.put(&bytes[done..])?;
    }
    Ok(())
}
