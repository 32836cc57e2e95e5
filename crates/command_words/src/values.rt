//! The values that the words give.
ghost use Rattle.std.specs.Prelude.{◌≡◌, IfOk, IfSome, Some, map, option_map, string_bytes, true};
ghost use Rattle.command_words.specs.Limits.{is_limit};
ghost use Rattle.clap.specs.Words.{first_of, found_of, rows_of};
ghost use Rattle.command_words.specs.Layouts.{app_for};
ghost use Rattle.command_words.specs.Values.{value_or, limit_of, limit_in, number_or, number_if, within, Matches};

use crate::layouts::layout_for;
use crate::name::CommandName;
use clap::ArgMatches;
use clap::error::ErrorKind;
use exact_time::OutOfMemory;
use query_parameters::read_whole;
use std::alloc::Global;

/// The values that the words give a command, whose name is the first of them; None where they aren't its words.
pub(crate) fn matches_in<'a>(
    alloc: Global,
    name: CommandName,
    words: &'a [String],
) -> Result<Option<ArgMatches<'a>>, OutOfMemory>
    ensures { IfOk result (Matches (app_for name) (map string_bytes words.entry.now)) }
{
    let command = layout_for(alloc, name)?;
    match command.try_get_matches_from(words) {
        Ok(matches) => Ok(Some(matches)),
        Err(error) => {
            if error.kind() == ErrorKind::OutOfMemory {
                return Err(OutOfMemory);
            }
            Ok(None)
        }
    }
}

// The value under a name, if it is given.
fn value<'a>(matches: &ArgMatches<'a>, name: &str) -> Option<&'a str>
    ensures { option_map (λ text. text.now) result ≡ first_of name.now (rows_of (found_of matches.now)) }
{
    matches.get_str(name)
}

/// The value under a name, or a default.
pub(crate) fn value_or<'a>(matches: &ArgMatches<'a>, name: &str, default: &'static str) -> &'a str
    ensures { result.now ≡ value_or default.now name.now (rows_of (found_of matches.now)) }
{
    match value(matches, name) {
        Some(value) => value,
        None => default,
    }
}

// The number, if it is from 1 to the greatest.
fn within(most: u64, number: u64) -> Option<u64>
    ensures same { result ≡ within most (Some number) }
    ensures is { IfSome result (λ n. is_limit most n ≡ true) }
{
    if 1 <= number && number <= most {
        Some(number)
    } else {
        None
    }
}

// A limit that a text spells.
fn limit_of(most: u64, text: &str) -> Option<u64>
    ensures same { result ≡ limit_of most (Some text.now) }
    ensures is { IfSome result (λ n. is_limit most n ≡ true) }
{
    match read_whole(text.as_bytes()) {
        Ok(number) => within(most, number),
        Err(_) => None,
    }
}

/// The limit under a name: from 1 to the greatest, which it is by default.
pub(crate) fn limit_in(matches: &ArgMatches<'_>, name: &str, most: u64) -> Option<u64>
    requires { is_limit most most ≡ true }
    ensures same { result ≡ limit_in most name.now (rows_of (found_of matches.now)) }
    ensures is { IfSome result (λ n. is_limit most n ≡ true) }
{
    match value(matches, name) {
        Some(text) => limit_of(most, text),
        None => Some(most),
    }
}

/// The number under a name: from 1 to the greatest, and the default where none is given.
pub(crate) fn number_or(
    matches: &ArgMatches<'_>,
    name: &str,
    default: u64,
    most: u64,
) -> Option<u64>
    requires { is_limit most default ≡ true }
    ensures same { result ≡ number_or default most name.now (rows_of (found_of matches.now)) }
    ensures is { IfSome result (λ n. is_limit most n ≡ true) }
{
    match value(matches, name) {
        Some(text) => limit_of(most, text),
        None => Some(default),
    }
}

/// The number under a name, from 1 to the greatest, where one is given. None where it is none.
pub(crate) fn number_if(matches: &ArgMatches<'_>, name: &str, most: u64) -> Option<Option<u64>>
    ensures { result ≡ number_if most name.now (rows_of (found_of matches.now)) }
{
    match value(matches, name) {
        Some(text) => limit_of(most, text).map(Some),
        None => Some(None),
    }
}
