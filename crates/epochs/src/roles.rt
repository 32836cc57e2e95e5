//! The roles of a user.
ghost use Rattle.std.specs.Prelude.{◌≡◌, IfOk, IfErr, length, map};
ghost use Rattle.std.specs.List.{list_all, list_any};
ghost use Rattle.std.specs.Str.{bytes_eq};
ghost use Rattle.epochs.specs.Kinds.{RoleNames};
ghost use Rattle.epochs.specs.Fields.{IsField, role_words, is_role, has_word, are_distinct, roles_named, roles};
ghost use Rattle.epochs.specs.Reading.{RefusesField};

use crate::parts::Roles;
use crate::values::{FieldFault, bad_value};
use std::alloc::{AllocError, Global};

// The words of a list by commas.
fn role_words(alloc: Global, text: &[u8]) -> Result<Vec<&[u8]>, AllocError>
    ensures { IfOk result (λ v. map (λ x. x.now) v.items ≡ role_words text.now) }
{
    text.split(|byte| *byte == b',').collect(alloc)
}

fn is_role(word: &[u8]) -> bool
    ensures { result ≡ is_role word.now }
{
    word == b"reader".as_slice()
        || word == b"feed".as_slice()
        || word == b"operator".as_slice()
        || word == b"replica".as_slice()
}

fn all_are_roles(words: &[&[u8]]) -> bool
    ensures { result ≡ list_all (λ x. is_role x.now) words.now }
{
    words.iter().all(|word| is_role(word))
}

fn are_roles(words: &[&[u8]]) -> bool
    ensures { result ≡ list_all is_role (map (λ x. x.now) words.now) }
{
    all_are_roles(words)
}

fn one_is(word: &[u8], words: &[&[u8]]) -> bool
    ensures { result ≡ list_any (λ x. bytes_eq x.now word.now) words.now }
{
    words.iter().any(|other| *other == word)
}

fn has_word(word: &[u8], words: &[&[u8]]) -> bool
    ensures { result ≡ has_word word.now (map (λ x. x.now) words.now) }
{
    one_is(word, words)
}

// Whether no word stands twice.
fn are_distinct(words: &[&[u8]]) -> bool
    ensures { result ≡ are_distinct (map (λ x. x.now) words.now) }
{
    let mut left = words;
    'words: while let [word, rest @ ..] = left {
        if has_word(word, rest) {
            return false;
        }
        left = rest;
    }
    true
}

// The roles that these words name.
fn roles_named(words: &[&[u8]]) -> Roles
    ensures { result ≡ roles_named (map (λ x. x.now) words.now) }
{
    Roles {
        reader: has_word(b"reader", words),
        feed: has_word(b"feed", words),
        operator: has_word(b"operator", words),
        replica: has_word(b"replica", words),
    }
}

/// Roles: a list by commas of `reader`, `feed`, `operator` and `replica`, of which each may stand once.
pub fn read_roles(alloc: Global, number: u64, text: &str) -> Result<Roles, FieldFault>
    ensures value { IfOk result (λ r. IsField RoleNames text.now (roles r)) }
    ensures refused { IfErr result (RefusesField RoleNames number text.now) }
{
    let words = role_words(alloc, text.as_bytes())?;
    if !are_roles(&words) || !are_distinct(&words) {
        return Err(bad_value(number));
    }
    Ok(roles_named(&words))
}
