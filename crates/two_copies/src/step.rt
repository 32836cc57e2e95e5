//! What the writer takes.
ghost use Rattle.std.specs.Prelude.{◌≡◌, ◌++◌, ◌∷◌, []};

use archive_entry::Entry;
use archive_history::{Front, Naming};
use std::marker::Model;

/// An entry, between the tokens of the histories before it and behind it. Seen as the history before it and the entry.
#[derive(Drop)]
pub struct Step<J: Naming> {
    pub(crate) entry: Entry,
    pub(crate) before: Front<J>,
    pub(crate) after: Front<J>,
}

impl<J: Naming> Model for Step<J> {
    ghost use Rattle.std.specs.Prelude.{◌≡◌, ◌++◌, ◌∷◌, [], List};
    ghost use Rattle.archive_entry.specs.declared.entry.Entry.{Entry};

    ghost Value = { List Entry × Entry };

    ghost view = { λ s. (s.before, s.entry) };

    ghost invariant = { λ s. s.after ≡ s.before ++ s.entry ∷ [] };
}

impl<J: Naming> Step<J> {
    /// The step of an entry from one history to the next.
    pub fn of(entry: Entry, before: Front<J>, after: Front<J>) -> Step<J>
        requires { after ≡ before ++ entry ∷ [] }
        ensures { result ≡ (before, entry) }
    {
        Step {
            entry,
            before,
            after,
        }
    }

    /// The entry.
    pub fn entry(&self) -> &Entry
        ensures { result.now ≡ self.now.1 }
    {
        &self.entry
    }

    /// The history before the entry.
    pub fn before(&self) -> &Front<J>
        ensures { result.now ≡ self.now.0 }
    {
        &self.before
    }

    /// The history behind the entry.
    pub fn after(&self) -> &Front<J>
        ensures { result.now ≡ self.now.0 ++ self.now.1 ∷ [] }
    {
        &self.after
    }
}
