//! An archive over a real file that others change.
use archive_log::{Archive, EntryReadFault};
use disk_model::{Disk, FileDisk};
use exact_time::OutOfMemory;
use std::alloc::Global;
use std::fs;
use std::process::Abort;
use std::test::Fail;

const FOLDER: &str = "archive_log_test";

const PATH: &str = "archive_log_test/journal";

// A journal of the founding entry of the operator op.
const FILE: &[u8] =
    b"FDSNARCHIVE-0001\x01\0\0\0\x51\0\0\0\0\0\0\0\x01\0\0\0\0\0\0\0\0\x02op\0\0\0\0\0\0\0\0\x02\0\0\0\x31USR|op|939e7578ed9e3c518a452acee763bce9|operator\n\0";

// The same with a kind that there is none of.
const CHANGED: &[u8] =
    b"FDSNARCHIVE-0001\x01\0\0\0\x51\0\0\0\0\0\0\0\x01\0\0\0\0\0\0\0\0\x02op\0\0\0\0\0\0\0\0\x03\0\0\0\x31USR|op|939e7578ed9e3c518a452acee763bce9|operator\n\0";

fn file_disk<R: fs::Files<File = fs::File> + Drop>(
    files: R,
    alloc: Global,
) -> Result<FileDisk<R>, OutOfMemory> {
    let path = String::from_str(alloc, PATH)?;
    Ok(FileDisk::new(files, Some(path), false))
}

// The number of the one entry, or why it isn't read.
fn number_of<D: Disk>(
    rt: &impl Abort,
    alloc: Global,
    archive: &mut Archive<D>,
) -> Result<u64, EntryReadFault> {
    assert_eq!(rt; archive.count(), 1);
    match archive.read(alloc, 1) {
        Ok(entry) => Ok(entry.number),
        Err(fault) => Err(fault),
    }
}

#[test]
fn tells_a_changed_entry(rt: HostRuntime) -> Result<(), Fail> {
    let alloc = rt.alloc();
    let _ = fs::remove_dir_all(&rt, FOLDER);
    fs::create_dir(&rt, FOLDER)?;
    fs::write(&rt, PATH, FILE)?;
    match Archive::start(alloc, file_disk(&rt, alloc)?) {
        Ok((mut archive, _, _)) => {
            assert_eq!(rt; number_of(&rt, alloc, &mut archive), Ok(1));
            assert!(rt; fs::write(&rt, PATH, CHANGED).is_ok());
            let read = number_of(&rt, alloc, &mut archive);
            assert_eq!(rt; read, Err(EntryReadFault::NotAnEntry));
        }
        Err((_, fault)) => return Err(fault.into()),
    }
    fs::remove_dir_all(&rt, FOLDER)?;
    Ok(())
}
