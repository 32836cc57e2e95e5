//! The book of a history.
ghost use Rattle.std.specs.Prelude.{◌≡◌, []};
ghost use Rattle.archive_history.specs.Rules.{head_of};

use crate::front::Front;
use crate::rule::Law;
use archive_entry::Entry;
use logbook::{Seen, Start, Word};
use std::marker::{Brand, Model, PhantomData};

/// Which history it is, and what every type that has to agree on it knows of its beginning. These are names in proofs
/// alone: each run of a program picks them once, where it opens the book.
pub trait Naming {
    ghost use Rattle.std.specs.Prelude.{List, Bool, ℕ};
    ghost use Rattle.archive_entry.specs.declared.entry.Entry.{Entry};
    ghost use Rattle.logbook.specs.Pages.{Book};

    /// The book.
    ghost book: { Book };

    /// The history that its archive had when it was opened.
    ghost opening: { List Entry };

    /// Whether its archive's disk tells what it holds.
    ghost told: { Bool };

    /// How often that disk had failed when the archive was opened.
    ghost faults: { ℕ };
}

impl Naming for Brand {
    ghost use Rattle.std.specs.Prelude.{[], false};

    ghost book = { record { number = 0; log_name = 0; cells_name = 0 } };

    ghost opening = { [] };

    ghost told = { false };

    ghost faults = { 0 };
}

/// A book without entries, which has no name yet. Seen as the book.
pub struct Opened {
    head: Word<Entry, u64, Law>,
    seen: Seen<Entry, u64, Law>,
}

impl Model for Opened {
    ghost use Rattle.std.specs.Prelude.{◌≡◌, []};
    ghost use Rattle.logbook.specs.Pages.{Book};
    ghost use Rattle.archive_history.specs.Rules.{head_of};

    ghost Value = { Book };

    ghost view = { λ o. o.seen.book };

    ghost invariant = { λ o. (o.seen.log ≡ []) × (o.head ≡ head_of o.seen.book) };
}

impl Opened {
    /// A new book. It takes no memory.
    pub fn new() -> Opened {
        let (seen, mut first, _second) = Seen::open(Start::alone(), 0, 0);
        Opened {
            head: Word::tracked(0, &mut first),
            seen,
        }
    }

    /// The book under its name, and the token of no entries.
    pub fn named<J: Naming>(self) -> (Book<J>, Front<J>)
        requires { self ≡ J.book }
        ensures { result.1 ≡ [] }
    {
        let Opened { head, seen } = self;
        (
            Book {
                head,
                of: PhantomData,
            },
            Front {
                entries: 0,
                seen,
                of: PhantomData,
            },
        )
    }
}

/// A history that only grows: in memory the number of its entries.
#[derive(Drop)]
pub struct Book<J: Naming> {
    pub(crate) head: Word<Entry, u64, Law>,
    of: PhantomData<J>,
    ghost head_is: { head ≡ head_of J.book },
}
