//! Calls on a disk in memory, its images, and a fuse.
ghost use Rattle.std.specs.Prelude.{◌≡◌, ◌≤◌, length, IfOk, IsTrue};
ghost use Rattle.disk_model.specs.View.{IsOnlyImage, file_of};
ghost use Rattle.disk_model.specs.Memory.{memory_view};

use crate::names::{copy, number, told, word};
use case_lines::escaped;
use disk_model::{Choice, Disk, FuseDisk, MemoryDisk, add_and_mark};
use exact_time::{Bytes, Failed, Many, OutOfMemory};
use std::alloc::Global;

/// The disk that steps act on: bare, or behind a fuse.
#[derive(Drop)]
pub struct Drives {
    pub disk: Option<MemoryDisk>,
    pub fuse: Option<FuseDisk>,
}

/// The images that are asked for together.
pub const CHOICES: [Choice; 5] = [
    Choice::Old,
    Choice::New,
    Choice::Fill(0),
    Choice::Fill(1),
    Choice::Fill(255),
];

// The numbers that the words from the third on spell.
fn numbers(alloc: Global, words: &[Bytes]) -> Result<Many<u64>, OutOfMemory> {
    let mut numbers = Many::new(alloc);
    for n in 2..words.len() {
        numbers.push(number(words, n))?;
    }
    Ok(numbers)
}

// A synced disk with this file.
fn disk_of(alloc: Global, file: &[u8]) -> Result<MemoryDisk, OutOfMemory>
    ensures content { IfOk result (λ disk. file_of (memory_view disk) ≡ file.now) }
    ensures synced { IfOk result (λ disk. IsOnlyImage (memory_view disk) file.now) }
{
    let mut bytes = Bytes::new(alloc);
    bytes.extend(file)?;
    MemoryDisk::new(alloc, bytes, Many::new(alloc))
}

// Whether a call was done.
fn answer(is_done: bool) -> &'static str {
    if is_done { "ok" } else { "failed" }
}

// Whether an offset is inside the file, or at its end.
fn is_inside(disk: &MemoryDisk, at: u64) -> bool
    ensures { IsTrue result → at ≤ length (file_of (memory_view disk.now)) }
{
    match disk.image(Choice::New) {
        Ok(file) => at <= file.len() as u64,
        Err(OutOfMemory) => false,
    }
}

fn write(disk: &mut MemoryDisk, at: u64, bytes: &[u8]) -> &'static str {
    if is_inside(disk, at) {
        answer(disk.write_at(at, bytes).is_ok())
    } else {
        "not inside"
    }
}

fn cut(disk: &mut MemoryDisk, len: u64) -> &'static str {
    if is_inside(disk, len) {
        answer(disk.cut(len).is_ok())
    } else {
        "not inside"
    }
}

fn len(alloc: Global, disk: &mut MemoryDisk) -> Result<String, OutOfMemory> {
    Ok(match disk.len() {
        Ok(len) => format!(in alloc; "{len}")?,
        Err(Failed) => String::from_str(alloc, "failed")?,
    })
}

// What three bytes of room are given.
fn read(alloc: Global, disk: &mut MemoryDisk, at: u64) -> Result<String, OutOfMemory> {
    let mut into = [7; 3];
    let count = disk.read(at, &mut into).unwrap_or(0);
    escaped(alloc, into.get(..count).unwrap_or(b"too many"))
}

// An image, or the five.
fn images(alloc: Global, disk: &MemoryDisk, choices: &[Choice]) -> Result<String, OutOfMemory> {
    let mut shown = String::new(alloc);
    for (n, choice) in choices.iter().enumerate() {
        if n > 0 {
            shown.push_str(" ")?;
        }
        let image = disk.image(*choice)?;
        shown.push_str(escaped(alloc, image.as_slice())?.as_str())?;
    }
    Ok(shown)
}

fn choice_of(words: &[Bytes]) -> Choice {
    match word(words, 1) {
        b"old" => Choice::Old,
        b"new" => Choice::New,
        _ => Choice::Fill(u8::try_from(number(words, 1)).unwrap_or(0)),
    }
}

// How each call is answered.
fn five<D: Disk>(disk: &mut D) -> [&'static str; 5] {
    let mut into = [0; 3];
    [
        answer(disk.len().is_ok()),
        answer(disk.read(0, &mut into).is_ok()),
        answer(disk.write_at(0, b"abc").is_ok()),
        answer(disk.cut(0).is_ok()),
        answer(disk.sync().is_ok()),
    ]
}

// Adds bytes to a file behind a fuse that passes so many calls, and marks one of them.
fn marked(
    alloc: Global,
    drives: &mut Drives,
    words: &[Bytes],
) -> Result<&'static str, OutOfMemory> {
    let file = word(words, 2);
    let bytes = word(words, 3);
    let place = number(words, 4);
    if place >= bytes.len() as u64 {
        return Ok("not among them");
    }
    let disk = disk_of(alloc, file)?;
    let end = file.len() as u64;
    let mut fuse = FuseDisk::new(disk, number(words, 1));
    let done = add_and_mark(&mut fuse, end, bytes, end + place, b'1');
    drives.disk = Some(fuse.into_disk());
    Ok(answer(done.is_ok()))
}

// Puts a fuse before the disk.
fn fuse(drives: &mut Drives, calls: u64) -> &'static str {
    match drives.disk.take() {
        Some(disk) => {
            drives.fuse = Some(FuseDisk::new(disk, calls));
            "ok"
        }
        None => "no disk",
    }
}

// Takes the fuse away.
fn unfuse(drives: &mut Drives) -> &'static str {
    match drives.fuse.take() {
        Some(fuse) => {
            drives.disk = Some(fuse.into_disk());
            "ok"
        }
        None => "no fuse",
    }
}

fn five_of(drives: &mut Drives) -> [&'static str; 5] {
    match (&mut drives.disk, &mut drives.fuse) {
        (Some(disk), _) => five(disk),
        (None, Some(fuse)) => five(fuse),
        (None, None) => ["none"; 5],
    }
}

// A call on the disk.
fn on_disk(alloc: Global, disk: &mut MemoryDisk, words: &[Bytes]) -> Result<String, OutOfMemory> {
    match word(words, 0) {
        b"len" => len(alloc, disk),
        b"read" => read(alloc, disk, number(words, 1)),
        b"image" => images(alloc, disk, &[choice_of(words)]),
        b"images" => images(alloc, disk, &CHOICES),
        b"write" => told(alloc, write(disk, number(words, 1), word(words, 2))),
        b"cut" => told(alloc, cut(disk, number(words, 1))),
        b"sync" => told(alloc, answer(disk.sync().is_ok())),
        _ => told(alloc, "no such call"),
    }
}

/// What a step gives.
pub fn given(alloc: Global, drives: &mut Drives, words: &[Bytes]) -> Result<String, OutOfMemory> {
    match word(words, 0) {
        b"new" => {
            let fails = numbers(alloc, words)?;
            drives.disk = Some(MemoryDisk::new(alloc, copy(alloc, word(words, 1)), fails)?);
            told(alloc, "ok")
        }
        b"fuse" => told(alloc, fuse(drives, number(words, 1))),
        b"unfuse" => told(alloc, unfuse(drives)),
        b"marked" => told(alloc, marked(alloc, drives, words)?),
        b"five" => {
            let [len, read, write, cut, sync] = five_of(drives);
            Ok(format!(in alloc; "{len} {read} {write} {cut} {sync}")?)
        }
        _ => match &mut drives.disk {
            Some(disk) => on_disk(alloc, disk, words),
            None => told(alloc, "no disk"),
        },
    }
}
