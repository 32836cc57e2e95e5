//! Requests as clients write them.
use exact_time::{Bytes, OutOfMemory};
use http_digest::{nonce_of, response_of};
use sample_data::{HA1_DIGITS, SECRET};
use std::alloc::Global;

/// A method with a path, and header fields that end in CRLF.
pub fn plain(alloc: Global, line: &str, fields: &str) -> Result<String, OutOfMemory> {
    Ok(format!(in alloc; "{line} HTTP/1.1\r\n{fields}\r\n")?)
}

/// The head of a request with a body of this size.
pub fn posted(
    alloc: Global,
    target: &str,
    fields: &str,
    size: usize,
) -> Result<String, OutOfMemory> {
    Ok(format!(in alloc; "POST {target} HTTP/1.1\r\nContent-Length: {size}\r\n{fields}\r\n")?)
}

/// What a user sends that answers the challenge of a second.
pub fn credentials(
    alloc: Global,
    user: &str,
    method: &str,
    target: &str,
    second: u64,
) -> Result<String, OutOfMemory> {
    let nonce = nonce_of(&SECRET, second);
    let response = response_of(
        &HA1_DIGITS,
        method.as_bytes(),
        target.as_bytes(),
        nonce.as_slice(),
        None,
    );
    let nonce = str::from_utf8(nonce.as_slice()).unwrap_or("");
    let response = str::from_utf8(response.as_slice()).unwrap_or("");
    Ok(format!(in alloc;
        "Authorization: Digest username=\"{user}\", realm=\"FDSN\", nonce=\"{nonce}\", uri=\"{target}\", response=\"{response}\"\r\n"
    )?)
}

/// The first word of a text, and what is behind it.
pub fn cut_word(text: &str) -> (&str, &str) {
    text.split_once(' ').unwrap_or((text, ""))
}

// The words of a status.
fn reason(status: &str) -> &str {
    match status {
        "200" => "OK",
        "204" => "No Content",
        "400" => "Bad Request",
        "401" => "Unauthorized",
        "403" => "Forbidden",
        "404" => "Not Found",
        "409" => "Conflict",
        "411" => "Length Required",
        "413" => "Payload Too Large",
        "414" => "URI Too Long",
        "431" => "Request Header Fields Too Large",
        "503" => "Service Unavailable",
        "507" => "Insufficient Storage",
        _ => "",
    }
}

/// Puts a reply: a status, a front, which a `c` follows where the reply closes, whether it is of records, and a body.
pub fn put_reply(
    alloc: Global,
    into: &mut Bytes,
    status: &str,
    front: &str,
    is_records: bool,
    body: &[u8],
) -> Result<(), OutOfMemory> {
    let reason = reason(status);
    let kind = if is_records {
        "application/vnd.fdsn.mseed"
    } else {
        "text/plain"
    };
    let (front, close) = match front.split_once('c') {
        Some((front, _)) => (front, "Connection: close\r\n"),
        None => (front, ""),
    };
    let size = body.len();
    let head = if status == "204" {
        format!(in alloc; "HTTP/1.1 {status} {reason}\r\nX-Archive-Front: {front}\r\n{close}\r\n")?
    } else {
        format!(in alloc;
            "HTTP/1.1 {status} {reason}\r\nContent-Type: {kind}\r\nContent-Length: {size}\r\nX-Archive-Front: {front}\r\n{close}\r\n"
        )?
    };
    into.extend(head.as_bytes())?;
    into.extend(body)
}
