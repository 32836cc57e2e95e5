//! What the words say behind a command's name.
ghost use Rattle.std.specs.Prelude.{◌≡◌, true};
ghost use Rattle.command_words.specs.Limits.{is_limit};
ghost use Rattle.epochs.specs.Fields.{is_user_name, is_ha1};

use crate::name::Shown;

/// The words of `select` behind its name: its positions, and what its options say.
#[derive(Clone, Copy)]
pub struct SelectArguments<'a> {
    pub network: &'a str,
    pub station: &'a str,
    pub location: &'a str,
    pub channel: &'a str,
    pub start: &'a str,
    pub end: &'a str,
    pub quality: &'a str,
    pub minimum: &'a str,
    pub longest: &'a str,
    /// How many bytes the answer may have.
    pub limit: u64,
}

/// The words of `init` behind its name: what its options say.
#[derive(Clone, Copy)]
pub struct InitArguments<'a> {
    /// The path of the journal.
    pub journal: &'a str,
    /// The user name of the operator.
    pub operator: &'a str,
    /// The operator's HA1: 32 hexadecimal digits in lower case.
    pub ha1: &'a str,
    pub ghost operator_is: { is_user_name operator.now ≡ true },
    pub ghost ha1_is: { is_ha1 ha1.now ≡ true },
}

/// How much an answer and the archive may have. The type keeps that each limit is from 1 to its greatest number.
#[derive(Clone, Copy)]
pub struct LimitArguments {
    /// Bytes of an answer of records.
    pub max_bytes: u64,
    /// Lines of an answer of text.
    pub max_lines: u64,
    /// Records of all batches.
    pub max_records: u64,
    /// Bytes of all bodies.
    pub max_archive: u64,
    pub ghost bytes_in: { is_limit 67_108_864 max_bytes ≡ true },
    pub ghost lines_in: { is_limit 100_000 max_lines ≡ true },
    pub ghost records_in: { is_limit 2_097_152 max_records ≡ true },
    pub ghost archive_in: { is_limit 536_870_912 max_archive ≡ true },
}

/// The words of `talk` behind its name: what its options say.
#[derive(Clone, Copy)]
pub struct TalkArguments<'a> {
    /// The path of the journal.
    pub journal: &'a str,
    /// How much an answer and the archive may have.
    pub limits: LimitArguments,
}

/// The words of `serve` behind its name: what its options say.
#[derive(Clone, Copy)]
pub struct ServeArguments<'a> {
    /// The path of the journal.
    pub journal: &'a str,
    /// The address at which the first worker listens.
    pub address: &'a str,
    /// How many workers there are.
    pub workers: u64,
    /// Behind how many sessions each worker ends, if it does.
    pub sessions: Option<u64>,
    /// How much an answer and the archive may have.
    pub limits: LimitArguments,
    pub ghost workers_in: { is_limit 16 workers ≡ true },
}

/// The words of `drill` behind its name: its position, and what its option says.
#[derive(Clone, Copy)]
pub struct DrillArguments<'a> {
    /// The path of the journal.
    pub journal: &'a str,
    /// How many records are made.
    pub records: u64,
    pub ghost records_in: { is_limit 200_000 records ≡ true },
}

/// The words of `fetch` behind its name: its positions, and what its option says.
#[derive(Clone, Copy)]
pub struct FetchArguments<'a> {
    /// The address of the data centre.
    pub peer: &'a str,
    pub network: &'a str,
    pub station: &'a str,
    pub location: &'a str,
    pub channel: &'a str,
    pub start: &'a str,
    pub end: &'a str,
}

/// The words of `coverage` behind its name: its positions, and what its options say.
#[derive(Clone, Copy)]
pub struct CoverageArguments<'a> {
    /// The path of the journal.
    pub journal: &'a str,
    pub start: &'a str,
    pub end: &'a str,
    /// How many lines the report may have.
    pub max_lines: u64,
    pub ghost lines_in: { is_limit 100_000 max_lines ≡ true },
}

/// What the program is asked to do, with the words for it.
#[derive(Clone, Copy)]
pub enum CommandWords<'a> {
    Select(SelectArguments<'a>),
    Init(InitArguments<'a>),
    Talk(TalkArguments<'a>),
    Serve(ServeArguments<'a>),
    Drill(DrillArguments<'a>),
    Fetch(FetchArguments<'a>),
    Coverage(CoverageArguments<'a>),
    Show(Shown),
}
