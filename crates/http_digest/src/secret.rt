//! The secret of a server.

/// What only the server knows: it seals the nonces.
#[derive(Clone, Copy)]
pub struct Secret {
    pub bytes: [u8; 16],
}
