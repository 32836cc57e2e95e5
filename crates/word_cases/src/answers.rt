//! Replies that come over a link.
use crate::fields::put;
use case_lines::escaped;
use exact_time::{OutOfMemory, Text};
use http_answers::{Got, GotEnd};
use std::alloc::Global;

// Status, front, nonce, size of the body, and the body where it isn't long.
fn put_reply(alloc: Global, out: &mut Text, got: &Got) -> Result<(), OutOfMemory> {
    put(alloc, out, format_args!("{} ", got.status))?;
    match got.front {
        Some(front) => put(alloc, out, front)?,
        None => out.push("-")?,
    }
    out.push(" ")?;
    match &got.nonce {
        Some(nonce) => out.push(nonce.as_str())?,
        None => out.push("-")?,
    }
    put(alloc, out, format_args!(" {}", got.body.len()))?;
    if got.body.is_empty() || got.body.len() > 100 {
        return Ok(());
    }
    out.push(" ")?;
    out.push(escaped(alloc, got.body.as_slice())?.as_str())
}

/// Puts what was read as a reply at the end, or why there is none.
pub fn put_got(
    alloc: Global,
    out: &mut Text,
    read: &Result<Got, GotEnd>,
) -> Result<(), OutOfMemory> {
    match read {
        Ok(got) => put_reply(alloc, out, got),
        Err(end) => put(alloc, out, format_args!("{end:?}")),
    }
}
