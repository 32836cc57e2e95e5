//! Tokens of the beginnings of a history.
ghost use Rattle.std.specs.Prelude.{true, ◌≡◌, ◌≢◌, ◌++◌, ◌∷◌, ◌⊎◌, [], length, MatchBool};
ghost use mathlib.Core.List.{IsPrefix};
ghost use Rattle.archive_state.specs.Lawful.{IsLawful, is_next};
ghost use Rattle.archive_history.specs.Fronts.{GoesPast};

use crate::book::{Book, Naming};
use crate::rule::{Add, Law, Nothing};
use archive_entry::Entry;
use logbook::{Offer, Seen};
use std::marker::{Model, PhantomData};

/// A beginning of the history that was seen. Contracts see it as the list of its entries.
#[derive(Drop)]
pub struct Front<J: Naming> {
    pub(crate) entries: u64,
    pub(crate) seen: Seen<Entry, u64, Law>,
    pub(crate) of: PhantomData<J>,
}

impl<J: Naming> Model for Front<J> {
    ghost use Rattle.std.specs.Prelude.{◌≡◌, List, length};
    ghost use Rattle.archive_entry.specs.declared.entry.Entry.{Entry};
    ghost use Rattle.archive_state.specs.Lawful.{IsLawful};

    ghost Value = { List Entry };

    ghost view = { λ f. f.seen.log };

    ghost invariant = { λ f. (f.entries ≡ length f.seen.log) × (f.seen.book ≡ J.book) × IsLawful f.seen.log };
}

impl<J: Naming> Front<J> {
    /// How many entries it has.
    pub fn count(&self) -> u64
        ensures count { result ≡ length self.now }
        ensures lawful { IsLawful self.now }
    {
        self.entries
    }

    /// A copy.
    pub fn again(&self) -> Front<J>
        ensures { result ≡ self.now }
    {
        Front {
            entries: self.entries,
            seen: self.seen.again(),
            of: PhantomData,
        }
    }

    /// The longer of two, which begins with the other.
    pub fn longer(&self, other: &Front<J>) -> Front<J>
        ensures one { (result ≡ self.now) ⊎ (result ≡ other.now) }
        ensures this { IsPrefix self.now result }
        ensures that { IsPrefix other.now result }
    {
        let mut both = self.seen.again();
        both.learn(&other.seen);
        if self.entries < other.entries {
            other.again()
        } else {
            self.again()
        }
    }

    /// Whether both have the same length. Then they are the same.
    pub fn same_as(&self, other: &Front<J>) -> bool
        ensures { MatchBool result (self.now ≡ other.now) (length self.now ≢ length other.now) }
    {
        let _both = self.longer(other);
        self.entries == other.entries
    }

    /// Whether it is no shorter than the other. Then it begins with the other.
    pub fn covers(&self, other: &Front<J>) -> bool
        ensures { MatchBool result (IsPrefix other.now self.now) (GoesPast self.now other.now) }
    {
        let _both = self.longer(other);
        other.entries <= self.entries
    }

    /// Adds the entry that comes next to all that was seen, and says whether it did. It didn't where the history has
    /// more entries than were seen; then all of them are seen.
    pub fn add(&mut self, book: &Book<J>, entry: &Entry) -> bool
        requires { is_next self.old entry.now ≡ true }
        ensures { MatchBool result (self.new ≡ self.old ++ entry.now ∷ []) (GoesPast self.old self.new) }
    {
        let mut offer: Offer<Entry, u64, Law, Nothing> = self
            .seen
            .plain::<Nothing, Entry, Add>(entry);
        let mut pen = self.seen.no_pen();
        let entries = self.entries;
        let found = book
            .head
            .compare_exchange::<Add, Nothing>(
                entries,
                entries + 1,
                &mut self.seen,
                &mut offer,
                &mut pen,
            );
        self.entries = if found == entries { entries + 1 } else { found };
        found == entries
    }

    /// Begins a history with these entries, and says whether it did. It didn't where the history has been begun
    /// otherwise.
    pub fn begin(&mut self, book: &Book<J>, entries: &[Entry]) -> bool
        requires none { self.old ≡ [] }
        requires lawful { IsLawful entries.now }
        ensures { MatchBool result (self.new ≡ entries.now) (GoesPast [] self.new) }
    {
        'entries: for entry in entries {
            if !self.add(book, entry) {
                return false;
            }
        }
        true
    }
}
