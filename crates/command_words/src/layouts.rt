//! The commands as `clap` knows them.
ghost use Rattle.std.specs.Prelude.{◌≡◌, IfOk, map, fold};
ghost use Rattle.clap.specs.Words.{app_of};
ghost use Rattle.command_words.specs.Layouts.{add_position, add_required, add_option, app_with, app_for};

use crate::name::CommandName;
use clap::{Arg, Command};
use std::alloc::{AllocError, Global};

// The command with these positions besides.
fn with_positions<'a>(
    alloc: Global,
    command: Command<'a>,
    names: &[&'a str],
) -> Result<Command<'a>, AllocError>
    ensures { IfOk result (λ c. app_of c ≡ fold add_position (app_of command.entry) (map (λ t. t.now) names.now)) }
{
    let mut built = command;
    'names: for name in names {
        built = built.arg(Arg::new(alloc, name).required(true))?;
    }
    Ok(built)
}

// The command with these options besides, which have to be given.
fn with_required<'a>(
    alloc: Global,
    command: Command<'a>,
    names: &[&'a str],
) -> Result<Command<'a>, AllocError>
    ensures { IfOk result (λ c. app_of c ≡ fold add_required (app_of command.entry) (map (λ t. t.now) names.now)) }
{
    let mut built = command;
    'names: for name in names {
        built = built.arg(Arg::new(alloc, name).long(name).required(true))?;
    }
    Ok(built)
}

// The command with these options besides.
fn with_options<'a>(
    alloc: Global,
    command: Command<'a>,
    names: &[&'a str],
) -> Result<Command<'a>, AllocError>
    ensures { IfOk result (λ c. app_of c ≡ fold add_option (app_of command.entry) (map (λ t. t.now) names.now)) }
{
    let mut built = command;
    'names: for name in names {
        built = built.arg(Arg::new(alloc, name).long(name))?;
    }
    Ok(built)
}

// A command with these positions and options.
fn layout<'a>(
    alloc: Global,
    name: &'a str,
    positions: &[&'a str],
    required: &[&'a str],
    options: &[&'a str],
) -> Result<Command<'a>, AllocError>
    ensures { IfOk result (λ c. app_of c ≡ app_with name.entry.now (map (λ t. t.now) positions.now) (map (λ t. t.now) required.now) (map (λ t. t.now) options.now)) }
{
    let positioned = with_positions(alloc, Command::new(alloc, name), positions)?;
    let asked = with_required(alloc, positioned, required)?;
    with_options(alloc, asked, options)
}

fn select_layout<'a>(alloc: Global) -> Result<Command<'a>, AllocError>
    ensures { IfOk result (λ c. app_of c ≡ app_for CommandName.Select) }
{
    let positions = ["NET", "STA", "LOC", "CHA", "START", "END"];
    let options = ["quality", "minimum", "longest", "max-bytes"];
    layout(alloc, "select", &positions, &[], &options)
}

fn init_layout<'a>(alloc: Global) -> Result<Command<'a>, AllocError>
    ensures { IfOk result (λ c. app_of c ≡ app_for CommandName.Init) }
{
    let required = ["journal", "operator", "ha1"];
    layout(alloc, "init", &[], &required, &[])
}

fn talk_layout<'a>(alloc: Global) -> Result<Command<'a>, AllocError>
    ensures { IfOk result (λ c. app_of c ≡ app_for CommandName.Talk) }
{
    let options = ["max-bytes", "max-lines", "max-records", "max-archive"];
    layout(alloc, "talk", &[], &["journal"], &options)
}

fn serve_layout<'a>(alloc: Global) -> Result<Command<'a>, AllocError>
    ensures { IfOk result (λ c. app_of c ≡ app_for CommandName.Serve) }
{
    let required = ["journal", "listen"];
    let options = [
        "workers",
        "sessions",
        "max-bytes",
        "max-lines",
        "max-records",
        "max-archive",
    ];
    layout(alloc, "serve", &[], &required, &options)
}

fn drill_layout<'a>(alloc: Global) -> Result<Command<'a>, AllocError>
    ensures { IfOk result (λ c. app_of c ≡ app_for CommandName.Drill) }
{
    layout(alloc, "drill", &["N"], &["journal"], &[])
}

fn fetch_layout<'a>(alloc: Global) -> Result<Command<'a>, AllocError>
    ensures { IfOk result (λ c. app_of c ≡ app_for CommandName.Fetch) }
{
    let positions = ["NET", "STA", "LOC", "CHA", "START", "END"];
    layout(alloc, "fetch", &positions, &["peer"], &[])
}

fn coverage_layout<'a>(alloc: Global) -> Result<Command<'a>, AllocError>
    ensures { IfOk result (λ c. app_of c ≡ app_for CommandName.Coverage) }
{
    let positions = ["START", "END"];
    layout(alloc, "coverage", &positions, &["journal"], &["max-lines"])
}

/// The command of a name, with the positions and options that it takes.
pub(crate) fn layout_for<'a>(alloc: Global, name: CommandName) -> Result<Command<'a>, AllocError>
    ensures { IfOk result (λ c. app_of c ≡ app_for name) }
{
    match name {
        CommandName::Select => select_layout(alloc),
        CommandName::Init => init_layout(alloc),
        CommandName::Talk => talk_layout(alloc),
        CommandName::Serve => serve_layout(alloc),
        CommandName::Drill => drill_layout(alloc),
        CommandName::Fetch => fetch_layout(alloc),
        CommandName::Coverage => coverage_layout(alloc),
    }
}
