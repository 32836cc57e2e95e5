//! What a step is given: bytes, words and numbers.
use case_lines::unescaped;
use exact_time::{Bytes, OutOfMemory};
use std::alloc::Global;
use std::str;
use std::str::{FromStr, Split};

// The first piece `<N*TEXT>` of what a step is given. It stands for N times the text.
#[derive(Clone, Copy)]
struct Piece<'a> {
    before: &'a str,
    times: u32,
    text: &'a str,
    after: &'a str,
}

fn piece_of(args: &str) -> Option<Piece<'_>> {
    let (before, rest) = args.split_once('<')?;
    let (times, rest) = rest.split_once('*')?;
    let (text, after) = rest.split_once('>')?;
    Some(Piece {
        before,
        times: times.parse().ok()?,
        text,
        after,
    })
}

fn written_out(alloc: Global, piece: Piece<'_>) -> Result<String, OutOfMemory> {
    let mut text = String::from_str(alloc, piece.before)?;
    'times: for _ in 0..piece.times {
        text.push_str(piece.text)?;
    }
    text.push_str(piece.after)?;
    Ok(text)
}

/// The bytes that a step is given.
pub fn given_of(alloc: Global, args: &str) -> Result<Bytes, OutOfMemory> {
    match piece_of(args) {
        Some(piece) => unescaped(alloc, written_out(alloc, piece)?.as_str()),
        None => unescaped(alloc, args),
    }
}

/// The bytes as text; no text where they are none.
pub fn text_of(bytes: &[u8]) -> &str {
    str::from_utf8(bytes).unwrap_or("")
}

/// The next word as a number.
pub fn next<T: FromStr + Drop>(words: &mut Split<'_, char>) -> Option<T>
where
    T::Err: Drop,
{
    words.next()?.parse::<T>().ok()
}

/// The next word; no text where there is none.
pub fn next_word<'a>(words: &mut Split<'a, char>) -> &'a str {
    words.next().unwrap_or("")
}
