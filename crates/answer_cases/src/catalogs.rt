//! Catalogs of revision lines: what is kept, which rule is broken first, and what a catalog hands out.
use crate::names::{number, told, word};
use channel_globs::{Code, Nslc};
use epoch_catalog::{Catalog, Family};
use epoch_rules::CheckFault;
use epochs::{Line, read_revision};
use exact_time::{Bytes, Many, OutOfMemory};
use std::alloc::Global;

// What became of lines that were read: they are kept, or the first one breaks a rule.
fn outcome(alloc: Global, done: Result<(), CheckFault>) -> Result<String, OutOfMemory> {
    Ok(match done {
        Ok(()) => String::from_str(alloc, "ok")?,
        Err(fault) => format!(in alloc; "{fault}")?,
    })
}

// Takes lines into the catalog.
fn taken(catalog: &mut Catalog, lines: &Many<Line>) -> Result<(), CheckFault> {
    match catalog.check(lines) {
        Ok(()) => match catalog.apply(lines) {
            Ok(()) => Ok(()),
            Err(OutOfMemory) => Err(CheckFault::OutOfMemory),
        },
        Err(fault) => Err(fault),
    }
}

fn take(alloc: Global, catalog: &mut Catalog, body: &[u8]) -> Result<String, OutOfMemory> {
    match read_revision(alloc, body) {
        Ok(lines) => outcome(alloc, taken(catalog, &lines)),
        Err(fault) => Ok(format!(in alloc; "{fault}")?),
    }
}

fn check(alloc: Global, catalog: &Catalog, body: &[u8]) -> Result<String, OutOfMemory> {
    match read_revision(alloc, body) {
        Ok(lines) => outcome(alloc, catalog.check(&lines)),
        Err(fault) => Ok(format!(in alloc; "{fault}")?),
    }
}

// What is said of an operator's line and so many events over no lines.
fn check_events(alloc: Global, count: u64) -> Result<String, OutOfMemory> {
    let mut body = String::new(alloc);
    body.push_str("USR|op|939e7578ed9e3c518a452acee763bce9|operator\n")?;
    for number in 0..count {
        writeln!(body, "EVT|e{number}|2024-01-01|0|0|||||||||")?;
    }
    check(alloc, &Catalog::new(alloc), body.as_str().as_bytes())
}

// The kind of a line.
fn kind_of(line: &Line) -> &'static str {
    match line {
        Line::Net(_) => "NET",
        Line::Sta(_) => "STA",
        Line::Cha(_) => "CHA",
        Line::Evt(_) => "EVT",
        Line::Rst(_) => "RST",
        Line::Grt(_) => "GRT",
        Line::Usr(_) => "USR",
        Line::Wdr(_) => "WDR",
        Line::Del(_) => "DEL",
    }
}

// How many live lines are of a kind.
fn count_of(catalog: &Catalog, kind: &[u8]) -> usize {
    catalog
        .lines()
        .iter()
        .filter(|line| kind_of(line).as_bytes() == kind)
        .count()
}

// The description of the network that the nth live line is.
fn network(catalog: &Catalog, n: u64) -> &str {
    match catalog.lines().get(n as usize) {
        Some(Line::Net(network)) => network.description.as_str(),
        _ => "no network",
    }
}

// The roles of a user.
fn user(alloc: Global, catalog: &Catalog, name: &[u8]) -> Result<String, OutOfMemory> {
    Ok(match catalog.user(name) {
        Some(user) => format!(in alloc; "{} {}", user.roles.operator, user.roles.reader)?,
        None => String::from_str(alloc, "none")?,
    })
}

// The withdrawals that are written for the channel which the words from the third on name, the location as it is written.
fn withdrawals_on(words: &[Bytes]) -> Option<Family<'_>> {
    let name = Nslc {
        network: Code::of(word(words, 2))?,
        station: Code::of(word(words, 3))?,
        location: Code::blank(),
        channel: Code::of(word(words, 5))?,
    };
    Some(Family::WithdrawalsOn(name, word(words, 4)))
}

// The family that the words from the second on name.
fn family_of(words: &[Bytes]) -> Option<Family<'_>> {
    let first = Code::of(word(words, 2));
    let second = Code::of(word(words, 3));
    match word(words, 1) {
        b"networks" => Some(Family::Networks),
        b"stations" => Some(Family::Stations),
        b"channels" => Some(Family::Channels),
        b"stations-of" => Some(Family::StationsOf(first?)),
        b"channels-of" => Some(Family::ChannelsOf(first?, second?)),
        b"restrictions" => Some(Family::Restrictions),
        b"restrictions-on" => Some(Family::RestrictionsOn(first?)),
        b"grants-of" => Some(Family::GrantsOf(word(words, 2))),
        b"grants-on" => Some(Family::GrantsOn(word(words, 2), second?)),
        b"withdrawals" => Some(Family::Withdrawals),
        b"withdrawals-on" => withdrawals_on(words),
        _ => None,
    }
}

// How many lines are in a family.
fn count_in(catalog: &Catalog, words: &[Bytes]) -> usize {
    match family_of(words) {
        Some(family) => catalog.family(&family).len(),
        None => usize::MAX,
    }
}

// How many lines of a family are written with patterns: of networks, and of withdrawals of any code.
fn wide_in(catalog: &Catalog, words: &[Bytes]) -> usize {
    match family_of(words) {
        Some(family) => catalog.wide(&family).len(),
        None => usize::MAX,
    }
}

/// What a step gives.
pub fn given(alloc: Global, catalog: &mut Catalog, words: &[Bytes]) -> Result<String, OutOfMemory> {
    match word(words, 0) {
        b"new" => {
            *catalog = Catalog::new(alloc);
            told(alloc, "ok")
        }
        b"take" => take(alloc, catalog, word(words, 1)),
        b"check" => check(alloc, catalog, word(words, 1)),
        b"events" => check_events(alloc, number(words, 1)),
        b"count" => Ok(format!(in alloc; "{}", catalog.lines().len())?),
        b"kind" => Ok(format!(in alloc; "{}", count_of(catalog, word(words, 1)))?),
        b"network" => told(alloc, network(catalog, number(words, 1))),
        b"user" => user(alloc, catalog, word(words, 1)),
        b"family" => Ok(format!(in alloc; "{}", count_in(catalog, words))?),
        b"wide" => Ok(format!(in alloc; "{}", wide_in(catalog, words))?),
        _ => told(alloc, "no such call"),
    }
}
