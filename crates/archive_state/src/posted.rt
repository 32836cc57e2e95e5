//! What is posted.
use archive_entry::Kind;
use exact_time::Bytes;
use http_digest::Credentials;

/// A command as it is posted.
#[derive(Debug, Drop)]
pub struct Posted {
    pub credentials: Credentials,
    pub kind: Kind,
    /// Its number among those of its author, from 1.
    pub seq: u64,
    pub body: Bytes,
}
