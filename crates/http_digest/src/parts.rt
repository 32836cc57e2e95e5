//! What the items of credentials say.
ghost use Rattle.std.specs.Prelude.{◌≡◌, ◌||◌, not, List, ℕ, option_map, option_and_then, MatchResult, IfOk, OnOk, codes};
ghost use Rattle.std.specs.List.{list_all};
ghost use Rattle.std.specs.Char.{is_ascii_hexdigit};
ghost use Rattle.std.specs.Str.{bytes_eq, is_utf8};
ghost use Rattle.http_digest.specs.Items.{Refuses, has_name};
ghost use Rattle.http_digest.specs.Parts.{value_of, names_are_once, are_texts, text_in, required, is_realm, is_algorithm, are_fit, is_digest, response_in, part_said, auth_said, parts_said, authorization_said};

use crate::authorization::{AuthFault, AuthPart, Authorization};
use crate::item::Item;
use exact_time::{OutOfMemory, Text};
use std::alloc::Global;
use std::collections::BTreeSet;

fn is_named(item: &Item, name: &[u8]) -> bool
    ensures { result ≡ bytes_eq item.now.name name.now }
{
    item.name.as_slice() == name
}

fn value_of<'a>(items: &'a [Item], name: &[u8]) -> Option<&'a [u8]>
    ensures { option_map (λ value. value.now) result ≡ value_of name.now items.now }
{
    'items: for item in items {
        if is_named(item, name) {
            return Some(item.value.as_slice());
        }
    }
    None
}

// Adds a name. False where it is there already.
fn add_name<'a>(names: &mut BTreeSet<&'a [u8]>, name: &'a [u8]) -> Result<bool, OutOfMemory>
    ensures added { IfOk result (λ new. new ≡ not (has_name names.old name.now)) }
    ensures names { OnOk result ((other : List ℕ) → has_name names.new other ≡ (bytes_eq name.now other || has_name names.old other)) }
{
    Ok(names.insert(name)?)
}

// Whether no name stands twice, by the names from the last to the first.
fn names_are_once(alloc: Global, items: &[Item]) -> Result<bool, OutOfMemory>
    ensures { IfOk result (λ once. once ≡ names_are_once items.now) }
{
    let mut names = BTreeSet::new(alloc);
    let mut left = items;
    'items: while let Some((item, rest)) = left.split_last() {
        if !add_name(&mut names, item.name.as_slice())? {
            return Ok(false);
        }
        left = rest;
    }
    Ok(true)
}

fn is_text(bytes: &[u8]) -> bool
    ensures { result ≡ is_utf8 bytes.now }
{
    str::from_utf8(bytes).is_ok()
}

fn are_texts(items: &[Item]) -> bool
    ensures { result ≡ are_texts items.now }
{
    items.iter().all(|item| is_text(item.value.as_slice()))
}

fn is_realm(realm: Option<&[u8]>) -> bool
    ensures { result ≡ is_realm (option_map (λ text. text.now) realm.entry) }
{
    match realm {
        None => false,
        Some(realm) => realm == b"FDSN".as_slice(),
    }
}

fn is_algorithm(name: Option<&[u8]>) -> bool
    ensures { result ≡ is_algorithm (option_map (λ text. text.now) name.entry) }
{
    match name {
        None => true,
        Some(name) => name.eq_ignore_ascii_case(b"MD5"),
    }
}

fn are_fit(alloc: Global, items: &[Item]) -> Result<bool, OutOfMemory>
    ensures { IfOk result (λ fit. fit ≡ are_fit items.now) }
{
    let once = names_are_once(alloc, items)?;
    Ok(
        are_texts(items)
            && once
            && is_realm(value_of(items, b"realm"))
            && is_algorithm(value_of(items, b"algorithm")),
    )
}

// The bytes as a text.
fn text_in(alloc: Global, bytes: &[u8]) -> Result<Text, AuthFault>
    ensures { MatchResult result (λ text. text_in bytes.now ≡ Some text) (Refuses (text_in bytes.now)) }
{
    let Ok(read) = str::from_utf8(bytes) else {
        return Err(AuthFault::Unreadable);
    };
    let mut text = Text::new(alloc);
    text.push(read)?;
    Ok(text)
}

// The text of an item that has to be there.
fn required(alloc: Global, items: &[Item], name: &[u8]) -> Result<Text, AuthFault>
    ensures { MatchResult result (λ text. required name.now items.now ≡ Some text) (Refuses (required name.now items.now)) }
{
    match value_of(items, name) {
        None => Err(AuthFault::Unreadable),
        Some(value) => text_in(alloc, value),
    }
}

fn are_digits(text: &[u8]) -> bool
    ensures { result ≡ list_all is_ascii_hexdigit text.now }
{
    text.iter().all(|byte| byte.is_ascii_hexdigit())
}

fn response_in(alloc: Global, text: &[u8]) -> Result<Text, AuthFault>
    ensures { MatchResult result (λ read. response_in text.now ≡ Some read) (Refuses (response_in text.now)) }
{
    if text.len() != 32 || !are_digits(text) {
        return Err(AuthFault::Unreadable);
    }
    let mut lower = [0; 32];
    lower.copy_from_slice(text);
    lower.make_ascii_lowercase();
    text_in(alloc, &lower)
}

fn required_response(alloc: Global, items: &[Item]) -> Result<Text, AuthFault>
    ensures { MatchResult result (λ read. (option_and_then response_in (value_of (codes "response") items.now)) ≡ Some read) (Refuses ((option_and_then response_in (value_of (codes "response") items.now)))) }
{
    match value_of(items, b"response") {
        None => Err(AuthFault::Unreadable),
        Some(value) => response_in(alloc, value),
    }
}

fn part_said(alloc: Global, items: &[Item]) -> Result<AuthPart, AuthFault>
    ensures { MatchResult result (λ part. part_said items.now ≡ Some part) (Refuses (part_said items.now)) }
{
    let nc = required(alloc, items, b"nc")?;
    let cnonce = required(alloc, items, b"cnonce")?;
    Ok(AuthPart { nc, cnonce })
}

fn auth_said(
    alloc: Global,
    items: &[Item],
    qop: Option<&[u8]>,
) -> Result<Option<AuthPart>, AuthFault>
    ensures { MatchResult result (λ auth. auth_said items.now (option_map (λ text. text.now) qop.entry) ≡ Some auth) (Refuses (auth_said items.now (option_map (λ text. text.now) qop.entry))) }
{
    let Some(qop) = qop else {
        return Ok(None);
    };
    if qop != b"auth".as_slice() {
        return Err(AuthFault::Unreadable);
    }
    let part = part_said(alloc, items)?;
    Ok(Some(part))
}

fn parts_said(alloc: Global, items: &[Item]) -> Result<Authorization, AuthFault>
    ensures { MatchResult result (λ parts. parts_said items.now ≡ Some parts) (Refuses (parts_said items.now)) }
{
    let user = required(alloc, items, b"username")?;
    let realm = required(alloc, items, b"realm")?;
    let nonce = required(alloc, items, b"nonce")?;
    let uri = required(alloc, items, b"uri")?;
    let response = required_response(alloc, items)?;
    let auth = auth_said(alloc, items, value_of(items, b"qop"))?;
    Ok(Authorization {
        user,
        realm,
        nonce,
        uri,
        response,
        auth,
    })
}

/// What the items say.
pub(crate) fn authorization_said(alloc: Global, items: &[Item]) -> Result<Authorization, AuthFault>
    ensures { MatchResult result (λ parts. authorization_said items.now ≡ Some parts) (Refuses (authorization_said items.now)) }
{
    if !are_fit(alloc, items)? {
        return Err(AuthFault::Unreadable);
    }
    parts_said(alloc, items)
}
