//! The reader of a header Authorization.
ghost use Rattle.std.specs.Prelude.{◌≡◌, option_map, MatchResult, IfOk, IfErr};
ghost use Rattle.http_digest.specs.Items.{Refuses, behind_space, names_scheme, behind_scheme, items_in, authorization_in};
ghost use Rattle.http_digest.specs.Parts.{IsAuthorization, RefusesHeader};

use crate::authorization::{AuthFault, Authorization};
use crate::item::Item;
use crate::parts::authorization_said;
use crate::scan::items_of;
use exact_time::Many;
use std::alloc::Global;

fn behind_space(text: &[u8]) -> Option<&[u8]>
    ensures { option_map (λ rest. rest.now) result ≡ behind_space text.now }
{
    match text {
        [b' ', rest @ ..] => Some(rest),
        _ => None,
    }
}

fn names_scheme(header: &[u8]) -> bool
    ensures { result ≡ names_scheme header.now }
{
    header.len() >= 6 && header[..6].eq_ignore_ascii_case(b"Digest")
}

// What is behind the name of the scheme.
fn behind_scheme(header: &[u8]) -> Option<&[u8]>
    ensures { option_map (λ rest. rest.now) result ≡ behind_scheme header.now }
{
    if !names_scheme(header) {
        return None;
    }
    behind_space(&header[6..])
}

fn items_in(alloc: Global, header: &[u8]) -> Result<Many<Item>, AuthFault>
    ensures { MatchResult result (λ items. items_in header.now ≡ Some items) (Refuses (items_in header.now)) }
{
    match behind_scheme(header) {
        None => Err(AuthFault::Unreadable),
        Some(text) => items_of(alloc, text),
    }
}

fn authorization_in(alloc: Global, header: &[u8]) -> Result<Authorization, AuthFault>
    ensures { MatchResult result (λ parts. authorization_in header.now ≡ Some parts) (Refuses (authorization_in header.now)) }
{
    let items = items_in(alloc, header)?;
    authorization_said(alloc, items.as_slice())
}

/// The parts of the value of a header Authorization (RFC 2617, section 3.2.2). Unreadable exactly where the
/// value spells no authorization: it has another form, a name twice, a value that isn't UTF-8; it lacks
/// username, realm, nonce, uri or response; its realm isn't `FDSN`, its response isn't 32 hexadecimal digits,
/// its algorithm isn't MD5, its qop isn't `auth` or comes without nc and cnonce.
pub fn read_authorization(alloc: Global, header: &[u8]) -> Result<Authorization, AuthFault>
    ensures parts { IfOk result (IsAuthorization header.now) }
    ensures refused { IfErr result (RefusesHeader header.now) }
{
    authorization_in(alloc, header)
}
