//! What may go to another thread.
ghost use Rattle.std.specs.Prelude.{◌≡◌};

use archive_journal::{Frame, Journal};
use archive_log::Archive;
use disk_model::{FileDisk, FuseDisk, MemoryDisk};
use exact_time::{Bytes, Many};
use std::marker::Brand;
use std::sync::ledger::{Blank, Book, Ledger};
use std::test::Fail;
use std::thread::{Threads, join};

fn check_send<T: Send>() {}

// Disks, journals and archives may be handed to another thread.
#[test]
fn goes_to_another_thread() {
    check_send::<MemoryDisk>();
    check_send::<FuseDisk>();
    check_send::<FileDisk<HostRuntime>>();
    check_send::<Journal<MemoryDisk>>();
    check_send::<Frame>();
    check_send::<Archive<MemoryDisk>>();
}

// A journal beside a token, as what lies under a lock holds them.
#[derive(Drop)]
struct Held<L: Ledger> {
    journal: Journal<MemoryDisk>,
    made: Book<L>,
}

// How many payloads a journal has, counted by another thread, to which it goes beside a token.
fn count_elsewhere<L: Ledger + Send, R: Threads>(
    rt: &R,
    blank: Blank,
    journal: Journal<MemoryDisk>,
) -> u64
    requires name { blank.name ≡ L.name }
    requires parts { blank.parts ≡ L.parts }
{
    let (made, _all) = blank.open::<L>();
    let held = Held { journal, made };
    join(rt, move || held.journal.count(), || ()).0
}

#[test]
fn goes_with_a_token(rt: HostRuntime) -> Result<(), Fail> {
    let mut file = Bytes::new(rt.alloc());
    file.extend(b"FDSNARCHIVE-0001\x01\0\0\0\x03abc\0")?;
    let disk = MemoryDisk::new(rt.alloc(), file, Many::new(rt.alloc()))?;
    match Journal::recover(rt.alloc(), disk) {
        Ok(journal) => {
            let count = count_elsewhere::<Brand, HostRuntime>(&rt, Blank::new(1), journal);
            assert_eq!(rt; count, 1);
            Ok(())
        }
        Err((_, fault)) => Err(fault.into()),
    }
}
