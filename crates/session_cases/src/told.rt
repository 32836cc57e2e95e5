//! How a run ended, and what its disk holds then.
use archive_log::Archive;
use disk_model::{Choice, MemoryDisk};
use exact_time::{Bytes, Many, OutOfMemory};
use http_wire::MemoryLink;
use link_ports::MemoryPort;
use std::alloc::Global;

/// How a run ended: its status, its turns and the text on the errors, and what was written; the images that a crash may
/// leave of the disk: of before the last sync, of all that was written, and of the bytes 0, 1 and 255 in place of what may
/// have changed.
#[derive(Drop)]
pub struct Told {
    pub ending: String,
    pub written: Bytes,
    pub images: Many<Bytes>,
}

/// The images of a disk.
pub fn images_of(alloc: Global, disk: &MemoryDisk) -> Result<Many<Bytes>, OutOfMemory> {
    let mut images = Many::new(alloc);
    let choices = [
        Choice::Old,
        Choice::New,
        Choice::Fill(0),
        Choice::Fill(1),
        Choice::Fill(255),
    ];
    'choices: for choice in choices {
        images.push(disk.image(choice)?)?;
    }
    Ok(images)
}

/// A synced disk with this file, which fails at these calls.
pub fn disk_of(alloc: Global, file: &[u8], fails: Many<u64>) -> Result<MemoryDisk, OutOfMemory> {
    let mut bytes = Bytes::new(alloc);
    bytes.extend(file)?;
    MemoryDisk::new(alloc, bytes, fails)
}

/// How many entries are recovered of an image, or why none are.
pub fn recovered(alloc: Global, image: &[u8]) -> Result<String, OutOfMemory> {
    let disk = disk_of(alloc, image, Many::new(alloc))?;
    match Archive::start(alloc, disk) {
        Ok((_, entries, _)) => {
            let count = entries.len();
            Ok(format!(in alloc; "{count}")?)
        }
        Err((_, fault)) => Ok(format!(in alloc; "{fault:?}")?),
    }
}

// Puts the fronts of a link's turns, and what was written on it.
fn put_link(
    alloc: Global,
    fronts: &mut String,
    written: &mut Bytes,
    port: &MemoryPort<MemoryLink>,
) -> Result<(), OutOfMemory> {
    let Some(back) = port.back() else {
        return Ok(());
    };
    'links: for returned in back {
        fronts.push_str(" [")?;
        'turns: for turn in returned.turns.as_slice() {
            let front = turn.front;
            fronts.push_str(format!(in alloc; " {front}")?.as_str())?;
        }
        fronts.push_str(" ]")?;
        written.extend(returned.link.told().unwrap_or(&[]))?;
    }
    Ok(())
}

/// The fronts of the turns of each link that came back, and what was written on all of them.
pub fn links_back(
    alloc: Global,
    ports: &[MemoryPort<MemoryLink>],
    written: &mut Bytes,
) -> Result<String, OutOfMemory> {
    let mut fronts = String::new(alloc);
    'ports: for port in ports {
        put_link(alloc, &mut fronts, written, port)?;
    }
    Ok(fronts)
}
