//! The objects that the words ask for.
ghost use Rattle.std.specs.Prelude.{◌≡◌, map, string_bytes, IfOk, Some};
ghost use Rattle.command_words.specs.Arguments.{fetch_words_at, serve_words_at};
ghost use Rattle.command_words.specs.Commands.{command_of};
ghost use Rattle.centre.specs.Outside.{IsOutside, NamesJournal, NamesPeer, NamesService};

use crate::objects::Outside;
use command_words::{CommandWords, FetchArguments, ServeArguments, command_in};
use exact_time::{OutOfMemory, Text};
use std::alloc::Global;

// One file of an archive, or none.
fn with_journal(journal: Option<Text>, may_make: bool) -> Outside
    ensures { NamesJournal result journal may_make }
{
    Outside {
        journal,
        may_make,
        second: None,
        address: None,
        dials: false,
        workers: 1,
        sessions: None,
    }
}

fn path_of(alloc: Global, path: &str) -> Result<Text, OutOfMemory>
    ensures { IfOk result (λ text. text ≡ path.now) }
{
    let mut text = Text::new(alloc);
    text.push(path)?;
    Ok(text)
}

// The file of an archive, and what its workers listen at.
fn with_service(alloc: Global, arguments: &ServeArguments) -> Result<Outside, OutOfMemory>
    ensures { IfOk result (λ outside. NamesService outside (serve_words_at arguments.now)) }
{
    Ok(Outside {
        journal: Some(path_of(alloc, arguments.journal)?),
        may_make: false,
        second: None,
        address: Some(path_of(alloc, arguments.address)?),
        dials: false,
        workers: arguments.workers as u8,
        sessions: arguments.sessions,
    })
}

// The data centre that is dialled.
fn with_peer(alloc: Global, arguments: &FetchArguments) -> Result<Outside, OutOfMemory>
    ensures { IfOk result (λ outside. NamesPeer outside (fetch_words_at arguments.now)) }
{
    Ok(Outside {
        journal: None,
        may_make: false,
        second: None,
        address: Some(path_of(alloc, arguments.peer)?),
        dials: true,
        workers: 1,
        sessions: None,
    })
}

/// The outside that the words ask for.
pub fn outside_of(alloc: Global, words: &[String]) -> Result<Outside, OutOfMemory>
    ensures { IfOk result (IsOutside (command_of (map string_bytes words.now))) }
{
    match command_in(alloc, words)? {
        Some(CommandWords::Init(arguments)) => {
            Ok(with_journal(Some(path_of(alloc, arguments.journal)?), true))
        }
        Some(CommandWords::Drill(arguments)) => {
            Ok(with_journal(Some(path_of(alloc, arguments.journal)?), true))
        }
        Some(CommandWords::Talk(arguments)) => {
            Ok(with_journal(Some(path_of(alloc, arguments.journal)?), false))
        }
        Some(CommandWords::Coverage(arguments)) => {
            Ok(with_journal(Some(path_of(alloc, arguments.journal)?), false))
        }
        Some(CommandWords::Serve(arguments)) => with_service(alloc, &arguments),
        Some(CommandWords::Fetch(arguments)) => with_peer(alloc, &arguments),
        _ => Ok(with_journal(None, false)),
    }
}
