//! The names that a method has.
ghost use Rattle.std.specs.Prelude.{◌≡◌, position};
ghost use Rattle.query_parameters.specs.Rows.{is_called, place_of_name, names_of, named, with_alias, alone};

use channel_globs::Part;

/// What a name's value is.
#[derive(Clone, Copy, Debug, PartialEq, Eq)]
pub enum ValueKind {
    /// A time.
    Time,
    /// A list of patterns of that code.
    Patterns(Part),
    /// The status of an answer without data.
    Nodata,
    /// A quality of records.
    Quality,
    /// A length of time, in seconds.
    Seconds,
    /// True or false.
    Flag,
    /// The form of records: `miniseed`.
    Format,
    /// A number.
    Decimal,
    /// A whole number from 1.
    Count,
    /// The number of an entry: a whole number from 1 to 10^18.
    EntryNumber,
    /// Any text.
    Text,
    /// An order of events.
    EventOrder,
    /// A list of qualities.
    Qualities,
    /// A list of what is merged.
    Merges,
    /// An order of spans.
    SpansOrder,
    /// An order of extents.
    ExtentOrder,
    /// The form of availability: `text` or `request`; `geocsv`, `json` and `zip` are left out.
    AvailForm,
    /// Degrees, -90 to 90.
    Latitude,
    /// Degrees, -180 to 180.
    Longitude,
    /// What an answer has a line for; `response` is left out.
    Level,
    /// The form of other answers: `text`; `xml` is left out.
    TextForm,
    /// True; false is left out.
    Always,
    /// False; true is left out.
    Never,
    /// Nothing: the name is left out.
    LeftOut,
}

/// A name that a method has; its alias is the name itself where it has none.
#[derive(Clone, Copy)]
pub struct ParameterName {
    pub name: &'static str,
    pub alias: &'static str,
    pub kind: ValueKind,
}

impl ParameterName {
    /// A name with an alias.
    pub fn with_alias(name: &'static str, alias: &'static str, kind: ValueKind) -> ParameterName
        ensures { named result ≡ with_alias name.now alias.now kind }
    {
        ParameterName { name, alias, kind }
    }

    /// A name without one.
    pub fn new(name: &'static str, kind: ValueKind) -> ParameterName
        ensures { named result ≡ alone name.now kind }
    {
        ParameterName::with_alias(name, name, kind)
    }
}

fn is_called(row: &ParameterName, name: &[u8]) -> bool
    ensures { result ≡ is_called (named row.now) name.now }
{
    name.eq_ignore_ascii_case(row.name.as_bytes())
        || name.eq_ignore_ascii_case(row.alias.as_bytes())
}

fn place_of(table: &[ParameterName], name: &[u8]) -> Option<usize>
    ensures { result ≡ position (λ row. is_called (named row) name.now) table.now }
{
    table.iter().position(|row| is_called(row, name))
}

/// The row of a name in a table.
pub fn place_of_name(table: &[ParameterName], name: &[u8]) -> Option<usize>
    ensures { result ≡ place_of_name (names_of table.now) name.now }
{
    place_of(table, name)
}
