//! The command that the words of the command line give.
ghost use Rattle.std.specs.Prelude.{◌≡◌, IfOk, map, option_map, string_bytes};
ghost use Rattle.clap.specs.Words.{found_of, rows_of};
ghost use Rattle.command_words.specs.Arguments.{words_at, init_words_at, limits_at, talk_words_at, serve_words_at, drill_words_at, fetch_words_at, coverage_words_at, command_at};
ghost use Rattle.command_words.specs.Commands.{select_words_in, init_words_with, init_words_in, limits_in, talk_words_in, serve_words_in, drill_words_in, fetch_words_in, coverage_words_in, words_of_command, command_named, lone_command_of, asks_help, named_command_of, command_of};
ghost use Rattle.command_words.specs.Layouts.{app_for};
ghost use Rattle.command_words.specs.Values.{read_by};

use crate::arguments::{
    CommandWords, CoverageArguments, DrillArguments, FetchArguments, InitArguments, LimitArguments,
    SelectArguments, ServeArguments, TalkArguments,
};
use crate::name::{CommandName, Shown};
use crate::values::{limit_in, matches_in, number_if, number_or, value_or};
use clap::ArgMatches;
use epochs::{is_ha1, is_user_name};
use exact_time::OutOfMemory;
use std::alloc::Global;

fn select_with<'a>(matches: &ArgMatches<'a>) -> Option<SelectArguments<'a>>
    ensures { option_map words_at result ≡ select_words_in (rows_of (found_of matches.now)) }
{
    let limit = limit_in(matches, "max-bytes", 67_108_864)?;
    Some(SelectArguments {
        network: value_or(matches, "NET", ""),
        station: value_or(matches, "STA", ""),
        location: value_or(matches, "LOC", ""),
        channel: value_or(matches, "CHA", ""),
        start: value_or(matches, "START", ""),
        end: value_or(matches, "END", ""),
        quality: value_or(matches, "quality", "B"),
        minimum: value_or(matches, "minimum", "0"),
        longest: value_or(matches, "longest", "false"),
        limit,
    })
}

fn select_in<'a>(
    alloc: Global,
    words: &'a [String],
) -> Result<Option<SelectArguments<'a>>, OutOfMemory>
    ensures { IfOk result (λ found. option_map words_at found ≡ read_by (app_for CommandName.Select) select_words_in (map string_bytes words.entry.now)) }
{
    match matches_in(alloc, CommandName::Select, words)? {
        Some(matches) => Ok(select_with(&matches)),
        None => Ok(None),
    }
}

fn init_of<'a>(journal: &'a str, operator: &'a str, ha1: &'a str) -> Option<InitArguments<'a>>
    ensures { option_map init_words_at result ≡ init_words_with journal.entry.now operator.entry.now ha1.entry.now }
{
    if is_user_name(operator.as_bytes()) && is_ha1(ha1.as_bytes()) {
        Some(InitArguments {
            journal,
            operator,
            ha1,
        })
    } else {
        None
    }
}

fn init_with<'a>(matches: &ArgMatches<'a>) -> Option<InitArguments<'a>>
    ensures { option_map init_words_at result ≡ init_words_in (rows_of (found_of matches.now)) }
{
    init_of(
        value_or(matches, "journal", ""),
        value_or(matches, "operator", ""),
        value_or(matches, "ha1", ""),
    )
}

fn init_in<'a>(alloc: Global, words: &'a [String]) -> Result<Option<InitArguments<'a>>, OutOfMemory>
    ensures { IfOk result (λ found. option_map init_words_at found ≡ read_by (app_for CommandName.Init) init_words_in (map string_bytes words.entry.now)) }
{
    match matches_in(alloc, CommandName::Init, words)? {
        Some(matches) => Ok(init_with(&matches)),
        None => Ok(None),
    }
}

fn limits_with(matches: &ArgMatches<'_>) -> Option<LimitArguments>
    ensures { option_map limits_at result ≡ limits_in (rows_of (found_of matches.now)) }
{
    Some(LimitArguments {
        max_bytes: limit_in(matches, "max-bytes", 67_108_864)?,
        max_lines: limit_in(matches, "max-lines", 100_000)?,
        max_records: limit_in(matches, "max-records", 2_097_152)?,
        max_archive: limit_in(matches, "max-archive", 536_870_912)?,
    })
}

fn talk_with<'a>(matches: &ArgMatches<'a>) -> Option<TalkArguments<'a>>
    ensures { option_map talk_words_at result ≡ talk_words_in (rows_of (found_of matches.now)) }
{
    let limits = limits_with(matches)?;
    Some(TalkArguments {
        journal: value_or(matches, "journal", ""),
        limits,
    })
}

fn talk_in<'a>(alloc: Global, words: &'a [String]) -> Result<Option<TalkArguments<'a>>, OutOfMemory>
    ensures { IfOk result (λ found. option_map talk_words_at found ≡ read_by (app_for CommandName.Talk) talk_words_in (map string_bytes words.entry.now)) }
{
    match matches_in(alloc, CommandName::Talk, words)? {
        Some(matches) => Ok(talk_with(&matches)),
        None => Ok(None),
    }
}

// From 1 to 10^18.
const MOST_SESSIONS: u64 = 1_000_000_000_000_000_000;

fn serve_with<'a>(matches: &ArgMatches<'a>) -> Option<ServeArguments<'a>>
    ensures { option_map serve_words_at result ≡ serve_words_in (rows_of (found_of matches.now)) }
{
    let workers = number_or(matches, "workers", 1, 16)?;
    let sessions = number_if(matches, "sessions", MOST_SESSIONS)?;
    let limits = limits_with(matches)?;
    Some(ServeArguments {
        journal: value_or(matches, "journal", ""),
        address: value_or(matches, "listen", ""),
        workers,
        sessions,
        limits,
    })
}

fn serve_in<'a>(
    alloc: Global,
    words: &'a [String],
) -> Result<Option<ServeArguments<'a>>, OutOfMemory>
    ensures { IfOk result (λ found. option_map serve_words_at found ≡ read_by (app_for CommandName.Serve) serve_words_in (map string_bytes words.entry.now)) }
{
    match matches_in(alloc, CommandName::Serve, words)? {
        Some(matches) => Ok(serve_with(&matches)),
        None => Ok(None),
    }
}

fn drill_with<'a>(matches: &ArgMatches<'a>) -> Option<DrillArguments<'a>>
    ensures { option_map drill_words_at result ≡ drill_words_in (rows_of (found_of matches.now)) }
{
    let records = limit_in(matches, "N", 200_000)?;
    Some(DrillArguments {
        journal: value_or(matches, "journal", ""),
        records,
    })
}

fn drill_in<'a>(
    alloc: Global,
    words: &'a [String],
) -> Result<Option<DrillArguments<'a>>, OutOfMemory>
    ensures { IfOk result (λ found. option_map drill_words_at found ≡ read_by (app_for CommandName.Drill) drill_words_in (map string_bytes words.entry.now)) }
{
    match matches_in(alloc, CommandName::Drill, words)? {
        Some(matches) => Ok(drill_with(&matches)),
        None => Ok(None),
    }
}

fn fetch_with<'a>(matches: &ArgMatches<'a>) -> Option<FetchArguments<'a>>
    ensures { option_map fetch_words_at result ≡ fetch_words_in (rows_of (found_of matches.now)) }
{
    Some(FetchArguments {
        peer: value_or(matches, "peer", ""),
        network: value_or(matches, "NET", ""),
        station: value_or(matches, "STA", ""),
        location: value_or(matches, "LOC", ""),
        channel: value_or(matches, "CHA", ""),
        start: value_or(matches, "START", ""),
        end: value_or(matches, "END", ""),
    })
}

fn fetch_in<'a>(
    alloc: Global,
    words: &'a [String],
) -> Result<Option<FetchArguments<'a>>, OutOfMemory>
    ensures { IfOk result (λ found. option_map fetch_words_at found ≡ read_by (app_for CommandName.Fetch) fetch_words_in (map string_bytes words.entry.now)) }
{
    match matches_in(alloc, CommandName::Fetch, words)? {
        Some(matches) => Ok(fetch_with(&matches)),
        None => Ok(None),
    }
}

fn coverage_with<'a>(matches: &ArgMatches<'a>) -> Option<CoverageArguments<'a>>
    ensures { option_map coverage_words_at result ≡ coverage_words_in (rows_of (found_of matches.now)) }
{
    let max_lines = limit_in(matches, "max-lines", 100_000)?;
    Some(CoverageArguments {
        journal: value_or(matches, "journal", ""),
        start: value_or(matches, "START", ""),
        end: value_or(matches, "END", ""),
        max_lines,
    })
}

fn coverage_in<'a>(
    alloc: Global,
    words: &'a [String],
) -> Result<Option<CoverageArguments<'a>>, OutOfMemory>
    ensures { IfOk result (λ found. option_map coverage_words_at found ≡ read_by (app_for CommandName.Coverage) coverage_words_in (map string_bytes words.entry.now)) }
{
    match matches_in(alloc, CommandName::Coverage, words)? {
        Some(matches) => Ok(coverage_with(&matches)),
        None => Ok(None),
    }
}

// What the words give that begin with a command's name.
fn words_of_command<'a>(
    alloc: Global,
    name: CommandName,
    words: &'a [String],
) -> Result<Option<CommandWords<'a>>, OutOfMemory>
    ensures { IfOk result (λ found. option_map command_at found ≡ words_of_command name (map string_bytes words.entry.now)) }
{
    match name {
        CommandName::Select => Ok(select_in(alloc, words)?.map(CommandWords::Select)),
        CommandName::Init => Ok(init_in(alloc, words)?.map(CommandWords::Init)),
        CommandName::Talk => Ok(talk_in(alloc, words)?.map(CommandWords::Talk)),
        CommandName::Serve => Ok(serve_in(alloc, words)?.map(CommandWords::Serve)),
        CommandName::Drill => Ok(drill_in(alloc, words)?.map(CommandWords::Drill)),
        CommandName::Fetch => Ok(fetch_in(alloc, words)?.map(CommandWords::Fetch)),
        CommandName::Coverage => Ok(coverage_in(alloc, words)?.map(CommandWords::Coverage)),
    }
}

fn command_named(word: &str) -> Option<CommandName>
    ensures { result ≡ command_named word.now }
{
    if word == "select" {
        return Some(CommandName::Select);
    }
    if word == "init" {
        return Some(CommandName::Init);
    }
    if word == "talk" {
        return Some(CommandName::Talk);
    }
    if word == "serve" {
        return Some(CommandName::Serve);
    }

    if word == "drill" {
        return Some(CommandName::Drill);
    }
    if word == "fetch" {
        return Some(CommandName::Fetch);
    }
    if word == "coverage" {
        return Some(CommandName::Coverage);
    }
    None
}

// The command that a word is by itself.
fn lone_command<'a>(word: &str) -> Option<CommandWords<'a>>
    ensures { option_map command_at result ≡ lone_command_of word.now }
{
    if word == "--help" {
        return Some(CommandWords::Show(Shown::Help));
    }
    if word == "--version" {
        return Some(CommandWords::Show(Shown::Version));
    }
    None
}

// Whether the words behind a command's name ask what its words are.
fn asks_help(behind: &[String]) -> bool
    ensures { result ≡ asks_help (map string_bytes behind.now) }
{
    match behind {
        [word] => word.as_str() == "--help",
        _ => false,
    }
}

/// The command that the words give: `--help` or `--version` alone, `--help` behind the name of a command, or a command
/// with its positions and options. None where they give none.
pub fn command_in<'a>(
    alloc: Global,
    words: &'a [String],
) -> Result<Option<CommandWords<'a>>, OutOfMemory>
    ensures { IfOk result (λ found. option_map command_at found ≡ command_of (map string_bytes words.entry.now)) }
{
    let [word, behind @ ..] = words else {
        return Ok(None);
    };
    if behind.is_empty() {
        return Ok(lone_command(word.as_str()));
    }
    let Some(name) = command_named(word.as_str()) else {
        return Ok(None);
    };
    if asks_help(behind) {
        return Ok(Some(CommandWords::Show(Shown::HelpOf(name))));
    }
    words_of_command(alloc, name, words)
}
