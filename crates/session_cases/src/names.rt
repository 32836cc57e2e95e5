//! Bytes with names, and texts in which a name in braces stands for them.
use case_lines::unescaped;
use centre::{
    COVERAGE_HELP, DRILL_HELP, FETCH_HELP, HELP, INIT_HELP, SELECT_HELP, SERVE_HELP, TALK_HELP,
};
use exact_time::{Bytes, Many, OutOfMemory};
use sample_data::{EPOCHS, FOUNDED, USERS, anmo_record};
use std::alloc::Global;

#[derive(Drop)]
struct Named {
    name: Bytes,
    bytes: Bytes,
}

/// Bytes by their names.
#[derive(Drop)]
pub struct Names {
    // A record of 512 bytes: IU ANMO 00 BHZ, quality D, 100 samples at 20 Hz from 2024-02-01T00:00:00.
    anmo: [u8; 512],
    named: Many<Named>,
}

impl Names {
    pub fn new(alloc: Global) -> Names {
        Names {
            anmo: anmo_record(),
            named: Many::new(alloc),
        }
    }

    /// Gives bytes a name, which they have until other bytes are given it.
    pub fn give(&mut self, alloc: Global, name: &str, bytes: Bytes) -> Result<(), OutOfMemory> {
        let name = unescaped(alloc, name)?;
        self.named.push(Named { name, bytes })
    }

    /// The bytes of a name; of one that there isn't, none.
    pub fn get(&self, name: &str) -> &[u8] {
        match name {
            "anmo" => return &self.anmo,
            "founded" => return FOUNDED,
            "help" => return HELP.as_bytes(),
            "select-help" => return SELECT_HELP.as_bytes(),
            "init-help" => return INIT_HELP.as_bytes(),
            "talk-help" => return TALK_HELP.as_bytes(),
            "serve-help" => return SERVE_HELP.as_bytes(),
            "drill-help" => return DRILL_HELP.as_bytes(),
            "fetch-help" => return FETCH_HELP.as_bytes(),
            "coverage-help" => return COVERAGE_HELP.as_bytes(),
            "users" => return USERS.as_bytes(),
            "epochs" => return EPOCHS.as_bytes(),
            _ => {}
        }
        for named in self.named.as_slice().iter().rev() {
            if named.name.as_slice() == name.as_bytes() {
                return named.bytes.as_slice();
            }
        }
        &[]
    }

    // Puts what stands in braces: `8000*a`, so many times a text; else a name, which may be followed by a length,
    // `anmo..300`, or by offsets and the bytes that stand there instead, `anmo@26=\x05`.
    fn put_braced(&self, alloc: Global, into: &mut Bytes, braced: &str) -> Result<(), OutOfMemory> {
        if let Some((count, text)) = braced.split_once('*') {
            return put_often(
                into,
                count.parse().unwrap_or(0),
                unescaped(alloc, text)?.as_slice(),
            );
        }
        if let Some((name, length)) = braced.split_once("..") {
            let bytes = self.get(name);
            let length: usize = length.parse().unwrap_or(0);
            return into.extend(bytes.get(..length).unwrap_or(bytes));
        }
        let (name, changes) = braced.split_once('@').unwrap_or((braced, ""));
        put_changed(alloc, into, self.get(name), changes)
    }

    /// The bytes that a text stands for.
    pub fn expanded(&self, alloc: Global, text: &str) -> Result<Bytes, OutOfMemory> {
        let mut bytes = Bytes::new(alloc);
        'parts: for (number, part) in text.split('{').enumerate() {
            if number == 0 {
                bytes.extend(unescaped(alloc, part)?.as_slice())?;
                continue 'parts;
            }
            let (braced, after) = part.split_once('}').unwrap_or((part, ""));
            self.put_braced(alloc, &mut bytes, braced)?;
            bytes.extend(unescaped(alloc, after)?.as_slice())?;
        }
        Ok(bytes)
    }
}

fn put_often(into: &mut Bytes, count: u32, piece: &[u8]) -> Result<(), OutOfMemory> {
    'pieces: for _ in 0..count {
        into.extend(piece)?;
    }
    Ok(())
}

// Puts bytes with others from some offsets on, as `26=\x05@28=\x00\xfa`.
fn put_changed(
    alloc: Global,
    into: &mut Bytes,
    bytes: &[u8],
    changes: &str,
) -> Result<(), OutOfMemory> {
    let mut left = bytes;
    let mut gone: usize = 0;
    'changes: for change in changes.split('@') {
        let Some((at, text)) = change.split_once('=') else {
            continue 'changes;
        };
        let at: usize = at.parse().unwrap_or(0);
        let instead = unescaped(alloc, text)?;
        let before = at.saturating_sub(gone);
        into.extend(left.get(..before).unwrap_or(left))?;
        into.extend(instead.as_slice())?;
        left = left
            .get(before.saturating_add(instead.len())..)
            .unwrap_or(&[]);
        gone = at.saturating_add(instead.len());
    }
    into.extend(left)
}
