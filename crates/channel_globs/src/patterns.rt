ghost use Rattle.std.specs.Prelude.{◌≡◌, ◌↔◌, ◌⊎◌, List, ℕ, [], ◌∷◌, IsTrue, Any, IfOk, IfErr, IsErrOf, IfSome, nat_eq};
ghost use Rattle.std.specs.List.{list_all};
ghost use Rattle.std.specs.Cmp.Lexicographic.{pointwise};
ghost use Rattle.list_laws.specs.Only.{IsOnly};
ghost use Rattle.channel_globs.specs.Matching.{Matches, is_match_any, is_plain, single_code, star};
ghost use Rattle.channel_globs.specs.PatternText.{IsPatternList, IsListFault, RefusesList};

use crate::matching::matches;
use crate::reading::{comma_count, pieces, read_item, trimmed};
use crate::{Code, Part};
use std::alloc::{AllocError, AllocFailed, Global};
use std::error::Error;
use std::fmt;
use std::marker::Model;

// How many items a list may have.
const MOST_ITEMS: usize = 64;

/// Why a text is no pattern list, in the order of the tests; of the last two, the first faulty item
/// decides.
#[derive(Clone, Copy, Debug, PartialEq, Eq)]
pub enum GlobFault {
    /// There are more than 64 items.
    TooMany,
    /// An item has a byte that is no letter, digit, `*` or `?`.
    Character,
    /// An item has more than eight bytes, or none where that isn't the blank location.
    Length,
    OutOfMemory,
}

impl fmt::Display for GlobFault {
    fn fmt<W: fmt::Write>(&self, f: &mut fmt::Formatter<W>) -> fmt::Result {
        f.write_str(match self {
            GlobFault::TooMany => "TooMany",
            GlobFault::Character => "Character",
            GlobFault::Length => "Length",
            GlobFault::OutOfMemory => "out of memory",
        })
    }
}

impl Error for GlobFault {}

impl From<AllocError> for GlobFault {
    ghost use Rattle.channel_globs.specs.declared.patterns.GlobFault.TheVariants.{OutOfMemory as NoMemory};

    ghost from_gives = { λ _ e. e ≡ NoMemory };

    fn from(_error: AllocError) -> GlobFault {
        GlobFault::OutOfMemory
    }
}

impl From<AllocFailed<Code>> for GlobFault {
    ghost use Rattle.channel_globs.specs.declared.patterns.GlobFault.TheVariants.{OutOfMemory as NoMemory};

    ghost from_gives = { λ _ e. e ≡ NoMemory };

    fn from(_error: AllocFailed<Code>) -> GlobFault {
        GlobFault::OutOfMemory
    }
}

// Whether one of the patterns matches the code.
fn some_matches(patterns: &[Code], code: &Code) -> bool
    ensures { result ≡ is_match_any patterns.now code.now }
{
    patterns
        .iter()
        .any(|pattern| matches(pattern.as_slice(), code.as_slice()))
}

// The patterns of a list.
fn items_in(alloc: Global, text: &[u8], part: Part) -> Result<Vec<Code>, GlobFault>
    ensures list { IfOk result (λ list. IsPatternList part text.now list.items) }
    ensures refused { IfErr result (RefusesList part text.now) }
{
    if comma_count(text) >= MOST_ITEMS {
        return Err(GlobFault::TooMany);
    }
    let pieces = pieces(alloc, text)?;
    let mut items = Vec::new(alloc);
    'items: for piece in &pieces {
        items.push(read_item(part, trimmed(piece))?)?;
    }
    Ok(items)
}

// Whether a pattern has no wildcard.
fn is_plain(pattern: &[u8]) -> bool
    ensures { result ≡ list_all is_plain pattern.now }
{
    pattern.iter().all(|byte| *byte != b'*' && *byte != b'?')
}

/// Patterns of one to eight bytes, of which one has to match: `*` is any run of characters, `?` one
/// character, and a letter or digit itself.
#[derive(Debug, Drop)]
pub struct PatternList {
    items: Vec<Code>,
}

impl Model for PatternList {
    ghost use Rattle.std.specs.Prelude.{List, ℕ};

    ghost Value = { List (List ℕ) };

    ghost view = { λ p. p.items.items };
}

impl PatternList {
    /// Reads a list whose items stand between commas. Spaces round an item are removed; as a location,
    /// an item `--` or an empty item is the blank location. At most 64 items.
    pub fn read(alloc: Global, text: &[u8], part: Part) -> Result<PatternList, GlobFault>
        ensures list { IfOk result (λ list. IsPatternList part text.now list) }
        ensures refused { IfErr result (RefusesList part text.now) }
        ensures exact { IsErrOf result GlobFault.OutOfMemory
            ⊎ IsOnly (IsPatternList part text.now) (IsListFault part text.now) result }
    {
        match items_in(alloc, text, part) {
            Ok(items) => Ok(PatternList { items }),
            Err(fault) => Err(fault),
        }
    }

    /// Whether some pattern matches the code. Takes no memory.
    pub fn matches(&self, code: &Code) -> bool
        ensures relation { IsTrue result ↔ Any (λ pattern. Matches pattern code.now) self.now }
        ensures test { result ≡ is_match_any self.now code.now }
    {
        some_matches(&self.items, code)
    }

    /// The one code that the list matches, where it is a single pattern without wildcards; else none. Takes no
    /// memory.
    pub fn single(&self) -> Option<Code>
        ensures code { result ≡ single_code self.now }
        ensures alone { IfSome result (λ code. (other : List ℕ) → is_match_any self.now other ≡ pointwise nat_eq code other) }
    {
        match self.items.as_slice() {
            [only] if is_plain(only.as_slice()) => Some(*only),
            _ => None,
        }
    }

    /// Whether the list is the one pattern `*`, which matches every code. No other list is meant, as
    /// `**` or `*,*`.
    pub fn is_any(&self) -> bool
        ensures { IsTrue result ↔ (self.now ≡ (star ∷ []) ∷ []) }
    {
        match self.items.as_slice() {
            [only] => only.as_slice() == b"*".as_slice(),
            _ => false,
        }
    }
}
