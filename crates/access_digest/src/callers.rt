//! Who the credentials of a request name.
ghost use Rattle.std.specs.Prelude.{◌≡◌, option_map, MatchResult, IfOk, IfErr, Ok};
ghost use Rattle.std.specs.Str.{bytes_eq};
ghost use Rattle.http_digest.specs.Nonces.{issue_of, second_of};
ghost use Rattle.http_digest.specs.Responses.{response_of};
ghost use Rattle.access_digest.specs.Who.{reading_of, authorized, is_fresh, ha1_of, denial_by, denial_of, who_of, Denies, Misreads};

use crate::denial::{Denial, WhoFault};
use epoch_catalog::Catalog;
use exact_time::{Moment, Text};
use http_digest::{
    AuthFault, Authorization, Credentials, Secret, issue_of, read_authorization, response_of,
    same_bytes, second_of,
};
use std::alloc::Global;

// For how many seconds a nonce may be used.
const LIFETIME: u64 = 300;

fn reading_of(alloc: Global, header: &[u8]) -> Result<Authorization, AuthFault>
    ensures { MatchResult result (λ read. reading_of header.now ≡ Ok read) (Misreads (reading_of header.now)) }
{
    read_authorization(alloc, header)
}

// What the credentials say for their own target.
fn authorized(alloc: Global, credentials: &Credentials) -> Result<Authorization, WhoFault>
    ensures { MatchResult result (λ read. authorized credentials.now.header credentials.now.target ≡ Ok read) (Denies (authorized credentials.now.header credentials.now.target)) }
{
    let Some(header) = &credentials.header else {
        return Err(WhoFault::Denied(Denial::Absent));
    };
    match reading_of(alloc, header.as_slice()) {
        Ok(read) => {
            if read.uri.as_slice() != credentials.target.as_slice() {
                return Err(WhoFault::Denied(Denial::Unreadable));
            }
            Ok(read)
        }
        Err(AuthFault::Unreadable) => Err(WhoFault::Denied(Denial::Unreadable)),
        Err(AuthFault::OutOfMemory) => Err(WhoFault::OutOfMemory),
    }
}

// Whether a nonce is one of the secret and may be used now.
fn is_fresh(secret: &Secret, nonce: &[u8], now: Moment) -> bool
    ensures { result ≡ is_fresh (issue_of secret.now nonce.now) (second_of now.micros) }
{
    let Some(issued) = issue_of(secret, nonce) else {
        return false;
    };
    match second_of(now) {
        Some(second) => issued <= second && second - issued <= LIFETIME,
        None => false,
    }
}

fn ha1_of<'a>(catalog: &'a Catalog, name: &[u8]) -> Option<&'a [u8; 32]>
    ensures { option_map (λ ha1. ha1.now) result ≡ ha1_of catalog.now name.now }
{
    match catalog.user(name) {
        Some(user) => Some(&user.ha1),
        None => None,
    }
}

// Whether the response is the one that a user has to give.
fn denial_by(
    ha1: Option<&[u8; 32]>,
    credentials: &Credentials,
    read: &Authorization,
) -> Option<Denial>
    ensures { result ≡ denial_by (option_map (λ digits. digits.now) ha1.entry) credentials.now read.now }
{
    let Some(ha1) = ha1 else {
        return Some(Denial::UnknownUser);
    };
    let right = response_of(
        ha1,
        credentials.method.as_slice(),
        credentials.target.as_slice(),
        read.nonce.as_slice(),
        read.auth.as_ref(),
    );
    if same_bytes(read.response.as_slice(), &right) {
        None
    } else {
        Some(Denial::WrongResponse)
    }
}

// The first reason to deny what was read.
fn denial_of(
    catalog: &Catalog,
    credentials: &Credentials,
    now: Moment,
    secret: &Secret,
    read: &Authorization,
) -> Option<Denial>
    ensures { result ≡ denial_of catalog.now credentials.now now secret.now read.now }
{
    if !is_fresh(secret, read.nonce.as_slice(), now) {
        return Some(Denial::Stale);
    }
    denial_by(ha1_of(catalog, read.user.as_slice()), credentials, read)
}

/// The name of the live user whose password made the response (RFC 2617, section 3.2.2), or the first reason
/// to deny it: Absent, Unreadable, Stale, UnknownUser, WrongResponse. A nonce may be used from its issue
/// second to 300 seconds later.
pub fn who(
    alloc: Global,
    catalog: &Catalog,
    credentials: &Credentials,
    now: Moment,
    secret: &Secret,
) -> Result<Text, WhoFault>
    ensures name { IfOk result (λ name. who_of catalog.now credentials.now now secret.now ≡ Ok name) }
    ensures denied { IfErr result (Denies (who_of catalog.now credentials.now now secret.now)) }
{
    match authorized(alloc, credentials) {
        Ok(read) => match denial_of(catalog, credentials, now, secret, &read) {
            Some(denial) => Err(WhoFault::Denied(denial)),
            None => Ok(read.user),
        },
        Err(fault) => Err(fault),
    }
}
