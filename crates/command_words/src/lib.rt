//! The words of the command line.
//!
//! What the crate above uses: [`command_in`] says which command the words give, with their values, or that they give
//! none. Its contract cites `command_of` of `specs/Commands.antt`.
//!
//! The definition: the first word is a command's name, and the words behind it are positions and options as the
//! definition of clap's simple commands reads them (`specs/Layouts.antt` says which a command takes; the kit's `clap`
//! says what becomes of words). An option is `--name value` or `--name=value`, in any place and once at most. Over the
//! values stand the tests that clap doesn't make: that a limit or a number of records, workers or sessions is a number from 1 to its greatest,
//! and that an operator and an HA1 are such. `--help` and `--version` as the only word, and `--help` as the only word behind a command's name,
//! are commands too.
#![tactic(auto)]

mod arguments;
mod commands;
mod layouts;
mod name;
mod values;

pub use arguments::{
    CommandWords, CoverageArguments, DrillArguments, FetchArguments, InitArguments, LimitArguments,
    SelectArguments, ServeArguments, TalkArguments,
};
pub use commands::command_in;
pub use name::{CommandName, Shown};
