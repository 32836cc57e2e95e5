//! A reply.
use exact_time::Bytes;
use http_digest::Challenge;

/// What a body is, as Content-Type says it (RFC 9110, section 8.3).
#[derive(Clone, Copy, Debug, PartialEq, Eq)]
pub enum BodyKind {
    /// Records of miniSEED: `application/vnd.fdsn.mseed`.
    Miniseed,
    /// Text: `text/plain`.
    Plain,
    /// Other bytes: `application/octet-stream`.
    Octets,
}

/// The methods that a path has, as Allow says them (RFC 9110, section 10.2.1).
#[derive(Clone, Copy, Debug, PartialEq, Eq)]
pub enum Allow {
    /// `GET`.
    Get,
    /// `POST`.
    Post,
    /// `GET, POST`.
    Both,
}

/// A reply to a request.
#[derive(Drop)]
pub struct Reply {
    /// One of 200, 204, 400, 401, 403, 404, 405, 409, 411, 413, 414, 431, 500, 503 and 507.
    pub status: u16,
    /// What the body is.
    pub kind: BodyKind,
    /// What a client is asked to answer, for 401; else it isn't written.
    pub challenge: Option<Challenge>,
    /// What is allowed, for 405; else it isn't written.
    pub allow: Option<Allow>,
    /// The number of entries that the reply speaks of, as X-Archive-Front tells it.
    pub front: u64,
    /// The body. That of 500 is fixed and 204 has none, whatever stands here.
    pub body: Bytes,
    /// Whether the connection closes behind the reply.
    pub close: bool,
    /// Whether the body's bytes are left away, as for a HEAD request.
    pub head_only: bool,
}
