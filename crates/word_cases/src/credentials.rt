//! Steps on Digest credentials.
use crate::fields::{Answer, Field, NO_CALL, put, put_answer, put_fields};
use crate::given::{next_word, text_of};
use exact_time::{Moment, OutOfMemory, Text};
use http_digest::{
    AuthPart, Authorization, Secret, challenge, issue_of, nonce_of, read_authorization, response_of,
};
use std::alloc::Global;
use std::str::Split;

fn text(alloc: Global, piece: &str) -> Result<Text, OutOfMemory> {
    let mut text = Text::new(alloc);
    text.push(piece)?;
    Ok(text)
}

// What a client has to answer: the words are HA1, method, target, nonce, and perhaps the number and the client's nonce.
fn put_response(
    alloc: Global,
    words: &mut Split<'_, char>,
    out: &mut Text,
) -> Result<(), OutOfMemory> {
    let Some(ha1) = next_word(words).as_bytes().first_chunk::<32>() else {
        return out.push("not an HA1");
    };
    let method = next_word(words).as_bytes();
    let target = next_word(words).as_bytes();
    let nonce = next_word(words).as_bytes();
    let nc = text(alloc, next_word(words))?;
    let cnonce = text(alloc, next_word(words))?;
    let part = AuthPart { nc, cnonce };
    let auth = if part.nc.is_empty() {
        None
    } else {
        Some(&part)
    };
    out.push(text_of(&response_of(ha1, method, target, nonce, auth)))
}

fn put_parts(out: &mut Text, read: &Authorization) -> Result<(), OutOfMemory> {
    let (nc, cnonce) = match &read.auth {
        Some(part) => (part.nc.as_str(), part.cnonce.as_str()),
        None => ("no part", ""),
    };
    put_fields(
        out,
        &[
            Field::Word(read.user.as_str()),
            Field::Word(read.realm.as_str()),
            Field::Word(read.nonce.as_str()),
            Field::Word(read.uri.as_str()),
            Field::Word(read.response.as_str()),
            Field::Word(nc),
            Field::Word(cnonce),
        ],
    )
}

fn put_authorization(alloc: Global, given: &[u8], out: &mut Text) -> Result<(), OutOfMemory> {
    match &read_authorization(alloc, given) {
        Ok(read) => put_parts(out, read),
        Err(fault) => put(alloc, out, fault),
    }
}

fn put_challenge(secret: &Secret, now: Option<Moment>, out: &mut Text) -> Result<(), OutOfMemory> {
    let Some(now) = now else {
        return out.push("not a moment");
    };
    let asked = challenge(secret, now, true);
    out.push(text_of(&asked.nonce))?;
    out.push(if asked.stale { " stale" } else { " fresh" })
}

fn issue(secret: &Secret, nonce: &[u8]) -> Answer {
    match issue_of(secret, nonce) {
        Some(second) => Answer::Whole(i128::from(second)),
        None => Answer::Word("none"),
    }
}

// What a step with a secret gives, which are the first 16 bytes.
fn put_secret(alloc: Global, call: &str, given: &[u8], out: &mut Text) -> Result<(), OutOfMemory> {
    let Some((bytes, rest)) = given.split_first_chunk::<16>() else {
        return out.push("no secret");
    };
    let secret = Secret { bytes: *bytes };
    match call {
        "nonce" => out.push(text_of(&nonce_of(&secret, text_of(rest).parse().unwrap_or(0)))),
        "issue" => put_answer(alloc, out, issue(&secret, rest)),
        "challenge" => put_challenge(&secret, Moment::read(rest).ok(), out),
        _ => put_answer(alloc, out, NO_CALL),
    }
}

/// What a step on credentials gives.
pub fn show(alloc: Global, call: &str, given: &[u8], out: &mut Text) -> Result<(), OutOfMemory> {
    match call {
        "authorization" => put_authorization(alloc, given, out),
        "response" => put_response(alloc, &mut text_of(given).split(' '), out),
        _ => put_secret(alloc, call, given, out),
    }
}
