//! How a session ends.

/// How a session ends.
#[derive(Clone, Copy, Debug, PartialEq, Eq)]
pub enum SessionEnd {
    /// The input ended between requests, or the last reply closes: its request asked for that, was of HTTP/1.0 or was the
    /// thousandth, or its head was refused.
    Closed,
    /// The input ended inside a request.
    Cut,
    /// The link failed.
    LinkFault,
    /// Memory ran out while a request was being read. A reply of 500 that closes was written, or a first part of it.
    Memory,
}
