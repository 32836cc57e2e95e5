//! Nonces and challenges.
ghost use Rattle.std.specs.Prelude.{◌≡◌, length, take, unwrap_or};
ghost use Rattle.hex.specs.Hex.{encode_lower};
ghost use Rattle.http_digest.specs.Nonces.{second_digits, nonce_of, issue_of, second_of};

use crate::challenges::Challenge;
use crate::response::digest_of_two;
use crate::same::same_bytes;
use crate::secret::Secret;
use exact_time::Moment;

fn second_digits(second: u64) -> [u8; 16]
    ensures { result ≡ second_digits second }
{
    let mut digits = [0; 16];
    hex::encode_to_slice(second.to_be_bytes().as_slice(), &mut digits).unwrap();
    digits
}

fn secret_digits(secret: &Secret) -> [u8; 32]
    ensures { result ≡ encode_lower secret.now.bytes }
{
    let mut digits = [0; 32];
    hex::encode_to_slice(secret.bytes.as_slice(), &mut digits).unwrap();
    digits
}

/// The nonce of a second, counted from 1970: its 16 hexadecimal digits, and the digest of the secret's 32
/// digits, a colon and these. Takes no memory.
pub fn nonce_of(secret: &Secret, second: u64) -> [u8; 48]
    ensures { result ≡ nonce_of secret.now second }
{
    let digits = second_digits(second);
    let seal = digest_of_two(&secret_digits(secret), &digits);
    let mut nonce = [0; 48];
    nonce[..16].copy_from_slice(&digits);
    nonce[16..].copy_from_slice(&seal);
    nonce
}

/// The second of which a text is the nonce; None where it is the nonce of no second under this secret. Takes
/// no memory.
pub fn issue_of(secret: &Secret, nonce: &[u8]) -> Option<u64>
    ensures { result ≡ issue_of secret.now nonce.now }
{
    let digits = if nonce.len() < 16 {
        nonce
    } else {
        &nonce[..16]
    };
    let mut bytes = [0; 8];
    if hex::decode_to_slice(digits, &mut bytes).is_err() {
        return None;
    }
    let second = u64::from_be_bytes(bytes);
    if same_bytes(nonce, &nonce_of(secret, second)) {
        Some(second)
    } else {
        None
    }
}

/// The whole seconds since 1970; None before it.
pub fn second_of(now: Moment) -> Option<u64>
    ensures { result ≡ second_of now.micros }
{
    match u64::try_from(now.micros) {
        Ok(micros) => Some(micros / 1_000_000),
        Err(_) => None,
    }
}

/// What a client is asked at a moment: a nonce of its second. `stale` says that what came was old and no
/// more. Takes no memory.
pub fn challenge(secret: &Secret, now: Moment, stale: bool) -> Challenge
    ensures nonce { result.nonce ≡ nonce_of secret.now (unwrap_or (second_of now.micros) 0) }
    ensures stale { result.stale ≡ stale }
{
    Challenge {
        nonce: nonce_of(secret, second_of(now).unwrap_or(0)),
        stale,
    }
}
