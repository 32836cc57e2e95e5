//! The challenge that asks a client for credentials.
ghost use Rattle.std.specs.Prelude.{◌≡◌, true};
ghost use Rattle.std.specs.List.{list_all};
ghost use Rattle.std.specs.Char.{is_ascii_hexdigit};

/// What the server asks a client to answer by the digest scheme (RFC 2617, section 3.2.1), as the header
/// WWW-Authenticate says it (`challenge_text` of `specs/Challenge.antt`).
#[derive(Debug, Clone, Copy, PartialEq, Eq)]
pub struct Challenge {
    /// 48 hexadecimal digits, which the type keeps: when it was issued, and a digest that only the server can make.
    pub nonce: [u8; 48],
    /// Whether the credentials that came were right but for the age of their nonce.
    pub stale: bool,
    pub ghost digits: { list_all is_ascii_hexdigit nonce ≡ true },
}
