//! A disk that is a real file.
ghost use Rattle.std.specs.Prelude.{◌≡◌, false};
ghost use Rattle.disk_model.specs.View.{is_told};

use disk_model::{Disk, FileDisk};
use exact_time::{Failed, OutOfMemory};
use std::alloc::Global;
use std::fs;
use std::process::Abort;
use std::test::Fail;

const FOLDER: &str = "disk_model_test";

const PATH: &str = "disk_model_test/journal";

fn path(alloc: Global, path: &str) -> Result<Option<String>, OutOfMemory> {
    Ok(Some(String::from_str(alloc, path)?))
}

fn check_file<D: Disk>(rt: &impl Abort, disk: &mut D, wanted: &[u8]) -> Result<(), Failed> {
    assert_eq!(rt; disk.len()?, wanted.len() as u64);
    let mut into = [0; 16];
    let count = disk.read(0, &mut into)?;
    assert_eq!(rt; into.get(..count), Some(wanted));
    Ok(())
}

// Two writes and a sync.
fn fill_file<D: Disk>(rt: &impl Abort, disk: &mut D) -> Result<(), Failed>
    requires { is_told (D.view disk.old) ≡ false }
{
    disk.write_at(0, b"abcdef")?;
    disk.write_at(2, b"XY")?;
    disk.sync()?;
    check_file(rt, disk, b"abXYef")
}

// A cut, and a write that would end past the greatest length.
fn cut_file<D: Disk>(rt: &impl Abort, disk: &mut D) -> Result<(), Failed>
    requires { is_told (D.view disk.old) ≡ false }
{
    disk.cut(3)?;
    disk.sync()?;
    assert_eq!(rt; disk.write_at((1 << 63) - 2, b"ij"), Err(Failed));
    check_file(rt, disk, b"abX")
}

#[test]
fn keeps_a_real_file(rt: HostRuntime) -> Result<(), Fail> {
    let _ = fs::remove_dir_all(&rt, FOLDER);
    fs::create_dir(&rt, FOLDER)?;
    {
        let mut disk = FileDisk::new(&rt, path(rt.alloc(), PATH)?, true);
        assert!(rt; fill_file(&rt, &mut disk).is_ok());
        assert!(rt; cut_file(&rt, &mut disk).is_ok());
    }
    assert_eq!(rt; fs::read(&rt, PATH)?.as_slice(), b"abX".as_slice());
    {
        // A second disk over the file that is there now.
        let mut disk = FileDisk::new(&rt, path(rt.alloc(), PATH)?, false);
        assert!(rt; check_file(&rt, &mut disk, b"abX").is_ok());
    }
    fs::remove_dir_all(&rt, FOLDER)?;
    Ok(())
}

// How each call answers: whether it fails.
fn failures<D: Disk>(mut disk: D) -> [bool; 5]
where
    D: Drop,
{
    let mut into = [0; 3];
    [
        disk.len().is_err(),
        disk.read(0, &mut into).is_err(),
        disk.write_at(0, b"abc").is_err(),
        disk.cut(0).is_err(),
        disk.sync().is_err(),
    ]
}

// No path; a file that isn't there and may not be made; and one whose folder isn't there either.
#[test]
fn fails_without_a_file(rt: HostRuntime) -> Result<(), Fail> {
    let missing = "disk_model_test_without/journal";
    assert_eq!(rt; failures(FileDisk::new(&rt, None, true)), [true; 5]);
    'ways: for may_make in [false, true] {
        let path = path(rt.alloc(), missing)?;
        assert_eq!(rt; failures(FileDisk::new(&rt, path, may_make)), [true; 5]);
    }
    assert!(rt; !fs::exists(&rt, missing)?);
    Ok(())
}
