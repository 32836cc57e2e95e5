//! Names of bytes, and what the words of a step stand for.
use case_lines::unescaped;
use exact_time::{Bytes, OutOfMemory};
use std::alloc::Global;

#[derive(Drop)]
struct Named {
    name: Bytes,
    value: Bytes,
}

/// A copy of a text.
pub fn told(alloc: Global, text: &str) -> Result<String, OutOfMemory> {
    Ok(String::from_str(alloc, text)?)
}

/// A copy of some bytes.
pub fn copied(alloc: Global, piece: &[u8]) -> Result<Bytes, OutOfMemory> {
    Ok(Bytes::from_vec(piece.to_vec(alloc)?))
}

/// The same; none where memory runs out.
pub fn copy(alloc: Global, piece: &[u8]) -> Bytes {
    copied(alloc, piece).unwrap_or(Bytes::new(alloc))
}

/// What names stand for.
#[derive(Drop)]
pub struct Names {
    alloc: Global,
    named: Vec<Named>,
}

/// The nth word, from 0; none is empty.
pub fn word(words: &[Bytes], n: usize) -> &[u8] {
    match words.get(n) {
        Some(word) => word.as_slice(),
        None => b"",
    }
}

// The number that digits spell.
fn number_in(digits: &[u8]) -> u64 {
    let mut number = 0u64;
    for digit in digits {
        number = number
            .saturating_mul(10)
            .saturating_add(u64::from(digit.saturating_sub(b'0')));
    }
    number
}

/// The number that the nth word spells; none is 0.
pub fn number(words: &[Bytes], n: usize) -> u64 {
    number_in(word(words, n))
}

/// The nth word as text.
pub fn text(words: &[Bytes], n: usize) -> &str {
    str::from_utf8(word(words, n)).unwrap_or("")
}

/// How many parts of some bytes in a row, from none on, give what.
pub fn parts<F: Fn(Global, &[u8]) -> Result<String, OutOfMemory>>(
    alloc: Global,
    bytes: &[u8],
    outcome: F,
) -> Result<String, OutOfMemory>
    requires { F.IsAlwaysCallable outcome }
{
    let mut shown = String::new(alloc);
    let mut last = String::new(alloc);
    let mut begin = 0;
    'parts: for length in 0..bytes.len() {
        let next = outcome(alloc, &bytes[..length])?;
        if begin < length && next.as_str() != last.as_str() {
            write!(shown, "{} {last}, ", length - begin)?;
            begin = length;
        }
        last = next;
    }
    write!(shown, "{} {last}", bytes.len().saturating_sub(begin))?;
    Ok(shown)
}

impl Names {
    pub fn new(alloc: Global) -> Names {
        Names {
            alloc,
            named: Vec::new(alloc),
        }
    }

    /// Lets a name, the first word, stand for the second one. It says how many bytes these are.
    pub fn define(&mut self, words: &[Bytes]) -> Result<String, OutOfMemory> {
        self.named.push(Named {
            name: copied(self.alloc, word(words, 0))?,
            value: copied(self.alloc, word(words, 1))?,
        })?;
        Ok(format!(in self.alloc; "{}", word(words, 1).len())?)
    }

    // Puts what `NAME` or `NAME*TIMES` stands for. An unknown name stands for itself.
    fn put(&self, bytes: &mut Bytes, called: &str) -> Result<(), OutOfMemory> {
        let (name, times) = called.split_once('*').unwrap_or((called, "1"));
        let mut value = name.as_bytes();
        for named in &self.named {
            if named.name.as_slice() == name.as_bytes() {
                value = named.value.as_slice();
            }
        }
        for _ in 0..number_in(times.as_bytes()) {
            bytes.extend(value)?;
        }
        Ok(())
    }

    /// The bytes that a text stands for, with its escapes and its names in braces.
    pub fn expanded(&self, text: &str) -> Result<Bytes, OutOfMemory> {
        let mut bytes = Bytes::new(self.alloc);
        'pieces: for piece in text.split('{') {
            let (called, rest) = piece.split_once('}').unwrap_or(("", piece));
            self.put(&mut bytes, called)?;
            bytes.extend(unescaped(self.alloc, rest)?.as_slice())?;
        }
        Ok(bytes)
    }

    /// The bytes that each word of a text stands for.
    pub fn words(&self, text: &str) -> Result<Vec<Bytes>, OutOfMemory> {
        let mut words = Vec::new(self.alloc);
        'words: for word in text.split(' ') {
            words.push(self.expanded(word)?)?;
        }
        Ok(words)
    }
}
