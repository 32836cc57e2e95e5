//! A disk over a real file. It counts each error, and tells nothing.
ghost use Rattle.std.specs.Prelude.{◌≡◌, ◌+◌, ◌^◌, ◌<◌, ◌≤◌, false, length, take, Ok, IfOk, OnOk};
ghost use Rattle.std.specs.Io.KnownBytes.{Appends, Consumes, IsAtEnd};
ghost use Rattle.exact_time.specs.Causes.{HasCause, Rose};
ghost use Rattle.disk_model.specs.File.{SeeksThen};

use crate::disk::Disk;
use exact_time::Failed;
use std::fs::{File, Files, OpenFile, OpenOptions};
use std::io::{self, Read, Seek, SeekFrom, Write};
use std::os::unix::fs::OpenOptionsExt;
use std::path::Path;

// The first length that a file can't have.
const LIMIT: u64 = 1 << 63;

// Its owner alone may read and write it: it holds what opens the archive.
const MODE: u32 = 0o600;

/// A regular file, which is opened at the first call, under the system's lock on whole files (flock(2)), so that no two processes
/// write to it. Without a path every call fails, and so does one while another process holds the lock. After a `sync` that failed
/// every further call fails too: a system may drop what was written and answer the next sync with success.
#[derive(Drop)]
pub struct FileDisk<R: Files> {
    files: R,
    path: Option<String>,
    may_make: bool,
    file: Option<R::File>,
    faults: u64,
    // Whether a sync failed.
    spoiled: bool,
    // Whether another process held the lock when the file was last opened.
    in_use: bool,
}

impl<R: Files<File = File>> FileDisk<R> {
    ghost use Rattle.disk_model.specs.File.{is_spoiled, times_failed, Endures};

    /// The file at this path, which is made where there is none, if it may be made.
    pub fn new(files: R, path: Option<String>, may_make: bool) -> Self
        ensures faults { times_failed result ≡ 0 }
        ensures spoiled { is_spoiled result ≡ false }
    {
        FileDisk {
            files,
            path,
            may_make,
            file: None,
            faults: 0,
            spoiled: false,
            in_use: false,
        }
    }

    /// Whether the file could not be opened because another process has it open as a disk.
    pub fn is_in_use(&self) -> bool {
        self.in_use
    }

    // The open file, for one call. A spoiled disk has none.
    fn take(&mut self) -> Result<R::File, Failed>
        ensures same { OnOk result (self.new.faults ≡ self.old.faults) }
        ensures spoiled { Endures self.old.spoiled self.new.spoiled result }
        ensures cause { HasCause self.old.faults self.new.faults result }
    {
        if self.spoiled {
            return Err(self.fail());
        }
        if let Some(file) = self.file.take() {
            return Ok(file);
        }
        let opened = match &self.path {
            Some(path) => open(&self.files, path.as_str(), self.may_make),
            None => Err(io::ErrorKind::NotFound.into()),
        };
        self.in_use = is_refused_lock(&opened);
        self.count(opened)
    }

    // The answer of the call, with the file put back.
    fn answer<T>(&mut self, file: R::File, answer: io::Result<T>) -> Result<T, Failed>
        ensures value { IfOk result (λ value. answer ≡ Ok value) }
        ensures spoiled { self.new.spoiled ≡ self.old.spoiled }
        ensures cause { HasCause self.old.faults self.new.faults result }
    {
        self.file = Some(file);
        self.count(answer)
    }

    // An error is a fault.
    fn count<T>(&mut self, answer: io::Result<T>) -> Result<T, Failed>
        ensures value { IfOk result (λ value. answer ≡ Ok value) }
        ensures same { OnOk result (self.new.faults ≡ self.old.faults) }
        ensures spoiled { self.new.spoiled ≡ self.old.spoiled }
        ensures cause { HasCause self.old.faults self.new.faults result }
    {
        match answer {
            Ok(value) => Ok(value),
            Err(_) => Err(self.fail()),
        }
    }

    // Fails, and counts it.
    fn fail(&mut self) -> Failed
        ensures rises { Rose self.old.faults self.new.faults }
        ensures no_fall { self.old.faults ≤ self.new.faults }
        ensures spoiled { self.new.spoiled ≡ self.old.spoiled }
    {
        self.faults = self.faults.saturating_add(1);
        Failed
    }

    // Syncs the open file.
    fn sync_file(&mut self) -> Result<(), Failed>
        ensures spoiled { Endures self.old.spoiled self.new.spoiled result }
        ensures cause { HasCause self.old.faults self.new.faults result }
    {
        let file = self.take()?;
        let answer = file.sync_all();
        self.answer(file, answer)
    }
}

// Whether a file was not opened because its lock is held. An open that would block is no other error of a regular file.
fn is_refused_lock(opened: &io::Result<File>) -> bool {
    match opened {
        Ok(_) => false,
        Err(error) => error.kind() == io::ErrorKind::WouldBlock,
    }
}

// Makes the file, where there is none.
fn make<R: Files<File = File>>(files: &R, path: &str) -> io::Result<File> {
    OpenOptions::new()
        .read(true)
        .write(true)
        .create_new(true)
        .mode(MODE)
        .open(files, path)
}

// Takes the lock of a regular file, which it keeps until it is closed.
fn claim(file: &File) -> io::Result<()> {
    if !file.metadata()?.is_file() {
        return Err(io::ErrorKind::InvalidInput.into());
    }
    file.try_lock()?;
    Ok(())
}

// Opens the file. Where it may be made, its name is put on the disk too, also where an earlier call
// made it.
fn open<R: Files<File = File>>(files: &R, path: &str, may_make: bool) -> io::Result<File> {
    let file = match OpenOptions::new().read(true).write(true).open(files, path) {
        Err(error) if may_make && error.kind() == io::ErrorKind::NotFound => make(files, path)?,
        opened => opened?,
    };
    claim(&file)?;
    if may_make {
        sync_folder(files, path)?;
    }
    Ok(file)
}

fn sync_folder<R: Files>(files: &R, path: &str) -> io::Result<()> {
    let folder = match Path::new(path).parent() {
        Some(folder) if !folder.as_str().is_empty() => folder,
        _ => Path::new("."),
    };
    File::open(files, folder)?.sync_all()
}

fn length_of<F: OpenFile>(file: &F) -> io::Result<u64>
    ensures { IfOk result (λ len. len < 2 ^ 63) }
{
    let len = file.metadata()?.len();
    if len >= LIMIT {
        return Err(io::ErrorKind::FileTooLarge.into());
    }
    Ok(len)
}

// Reads on until the slice is full or the file ends.
fn read_on<F: Read>(file: &mut F, into: &mut [u8]) -> io::Result<usize>
    ensures bound { IfOk result (λ count. count ≤ length into.new) }
    ensures bytes { IfOk result (λ count. Consumes (F.remaining file.old) (F.remaining file.new) (take count into.new)) }
    ensures end { IfOk result (λ count. count < length into.new → IsAtEnd (F.remaining file.new)) }
{
    let mut done = 0;
    'full: while done < into.len() {
        let count = file.read(&mut into[done..])?;
        if count == 0 {
            break;
        }
        done += count;
    }
    Ok(done)
}

fn read_at<F: Read + Seek>(file: &mut F, at: u64, into: &mut [u8]) -> io::Result<usize>
    ensures bound { IfOk result (λ count. count ≤ length into.new) }
    ensures bytes { IfOk result (λ count. SeeksThen F.stream_position at file.old
        (λ sought. Consumes (F.remaining sought) (F.remaining file.new) (take count into.new))) }
    ensures end { IfOk result (λ count. count < length into.new → IsAtEnd (F.remaining file.new)) }
{
    file.seek(SeekFrom::Start(at))?;
    read_on(file, into)
}

fn write_all_at<F: Write + Seek>(file: &mut F, at: u64, bytes: &[u8]) -> io::Result<()>
    ensures size { OnOk result (at + length bytes.now < 2 ^ 63) }
    ensures bytes { OnOk result (SeeksThen F.stream_position at file.old
        (λ sought. Appends (F.contents sought) (F.contents file.new) bytes.now)) }
{
    if at >= LIMIT || bytes.len() as u64 >= LIMIT - at {
        return Err(io::ErrorKind::FileTooLarge.into());
    }
    file.seek(SeekFrom::Start(at))?;
    file.write_all(bytes)
}

impl<R: Files<File = File>> Disk for FileDisk<R> {
    ghost use Rattle.disk_model.specs.File.{is_spoiled, times_failed, Endures, Spoils};
    ghost use Rattle.disk_model.specs.Untold.{untold, untold_view};

    ghost view = { λ disk. untold_view (times_failed disk) };

    fn faults(&self) -> u64 {
        self.faults
    }

    fn len(&mut self) -> Result<u64, Failed>
        ensures bound { IfOk result (λ len. len < 2 ^ 63) }
        ensures spoiled { Endures (is_spoiled self.old) (is_spoiled self.new) result }
        ensures cause { HasCause (times_failed self.old) (times_failed self.new) result }
    {
        let file = self.take()?;
        let answer = length_of(&file);
        self.answer(file, answer)
    }

    fn read(&mut self, at: u64, into: &mut [u8]) -> Result<usize, Failed>
        ensures bound { IfOk result (λ count. count ≤ length into.new) }
        ensures spoiled { Endures (is_spoiled self.old) (is_spoiled self.new) result }
        ensures cause { HasCause (times_failed self.old) (times_failed self.new) result }
    {
        let mut file = self.take()?;
        let answer = read_at(&mut file, at, into);
        self.answer(file, answer)
    }

    fn write_at(&mut self, at: u64, bytes: &[u8]) -> Result<(), Failed>
        ensures size { OnOk result (at + length bytes.now < 2 ^ 63) }
        ensures spoiled { Endures (is_spoiled self.old) (is_spoiled self.new) result }
        ensures cause { HasCause (times_failed self.old) (times_failed self.new) result }
    {
        let mut file = self.take()?;
        let answer = write_all_at(&mut file, at, bytes);
        self.answer(file, answer)
    }

    fn cut(&mut self, len: u64) -> Result<(), Failed>
        ensures spoiled { Endures (is_spoiled self.old) (is_spoiled self.new) result }
        ensures cause { HasCause (times_failed self.old) (times_failed self.new) result }
    {
        let file = self.take()?;
        let answer = file.set_len(len);
        self.answer(file, answer)
    }

    fn sync(&mut self) -> Result<(), Failed>
        ensures spoiled { Spoils (is_spoiled self.old) (is_spoiled self.new) result }
        ensures cause { HasCause (times_failed self.old) (times_failed self.new) result }
    {
        let result = self.sync_file();
        self.spoiled = result.is_err();
        result
    }

    ghost honest = { λ disk told. untold told };
}
