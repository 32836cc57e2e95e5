//! The response to a challenge.
ghost use Rattle.std.specs.Prelude.{◌≡◌, ℕ, List, option_map, ◌∷◌, ◌++◌, [], codes};
ghost use Rattle.std.specs.List.{join_with_byte};
ghost use Rattle.hex.specs.Hex.{encode_lower};
ghost use Rattle.md5.specs.Md5.{Holds};
ghost use Rattle.http_digest.specs.Responses.{colon, digest_of, response_of};

use crate::authorization::AuthPart;
use md5::{Digest, Md5};

// A digest as its 32 digits.
fn text_of(digest: [u8; 16]) -> [u8; 32]
    ensures { result ≡ encode_lower digest }
{
    let mut text = [0; 32];
    hex::encode_to_slice(digest.as_slice(), &mut text).unwrap();
    text
}

// The digest of two parts with a colon between.
pub(crate) fn digest_of_two(first: &[u8], second: &[u8]) -> [u8; 32]
    ensures { result ≡ digest_of (first.now ∷ second.now ∷ []) }
{
    let mut hasher = Md5::new();
    hasher.update(first);
    hasher.update(b":");
    hasher.update(second);
    text_of(hasher.finalize())
}

// What every response begins with.
fn feed_user(hasher: &mut Md5, ha1: &[u8; 32], nonce: &[u8])
    ensures { (message : List ℕ) → Holds hasher.old message → Holds hasher.new (message ++ join_with_byte colon (ha1.now ∷ nonce.now ∷ [])) }
{
    hasher.update(ha1.as_slice());
    hasher.update(b":");
    hasher.update(nonce);
}

fn plain_response(ha1: &[u8; 32], nonce: &[u8], ha2: &[u8; 32]) -> [u8; 32]
    ensures { result ≡ digest_of (ha1.now ∷ nonce.now ∷ ha2.now ∷ []) }
{
    let mut hasher = Md5::new();
    feed_user(&mut hasher, ha1, nonce);
    hasher.update(b":");
    hasher.update(ha2.as_slice());
    text_of(hasher.finalize())
}

// What `auth` adds, between colons.
fn feed_part(hasher: &mut Md5, part: &AuthPart)
    ensures { (message : List ℕ) → Holds hasher.old message → Holds hasher.new (message ++ join_with_byte colon (part.now.nc ∷ part.now.cnonce ∷ codes "auth" ∷ [])) }
{
    hasher.update(part.nc.as_slice());
    hasher.update(b":");
    hasher.update(part.cnonce.as_slice());
    hasher.update(b":");
    hasher.update(b"auth");
}

fn auth_response(ha1: &[u8; 32], nonce: &[u8], part: &AuthPart, ha2: &[u8; 32]) -> [u8; 32]
    ensures { result ≡ digest_of (ha1.now ∷ nonce.now ∷ part.now.nc ∷ part.now.cnonce ∷ codes "auth" ∷ ha2.now ∷ []) }
{
    let mut hasher = Md5::new();
    feed_user(&mut hasher, ha1, nonce);
    hasher.update(b":");
    feed_part(&mut hasher, part);
    hasher.update(b":");
    hasher.update(ha2.as_slice());
    text_of(hasher.finalize())
}

/// The response that a user has to give (RFC 2617, section 3.2.2.1), as 32 lower-case hexadecimal digits.
/// `ha1` is the digest of `user:realm:password`; `auth` is there where the quality of protection is `auth`.
/// Takes no memory.
pub fn response_of(
    ha1: &[u8; 32],
    method: &[u8],
    target: &[u8],
    nonce: &[u8],
    auth: Option<&AuthPart>,
) -> [u8; 32]
    ensures { result ≡ response_of ha1.now method.now target.now nonce.now (option_map (λ part. part.now) auth.entry) }
{
    let ha2 = digest_of_two(method, target);
    match auth {
        None => plain_response(ha1, nonce, &ha2),
        Some(part) => auth_response(ha1, nonce, part, &ha2),
    }
}
