//! The names of commands.

/// A command that takes words behind its name.
#[derive(Clone, Copy, Debug, PartialEq, Eq)]
pub enum CommandName {
    Select,
    Init,
    Talk,
    Serve,
    Drill,
    Fetch,
    Coverage,
}

/// A text that is shown.
#[derive(Clone, Copy, Debug, PartialEq, Eq)]
pub enum Shown {
    /// By `--help`: the commands.
    Help,
    /// By `--version`.
    Version,
    /// By `--help` behind a command's name: the words of that command.
    HelpOf(CommandName),
}
