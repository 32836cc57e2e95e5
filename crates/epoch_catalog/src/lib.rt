//! The live lines of a data centre: of all revision lines ever taken the last line of each key, where it
//! isn't a deletion, in the order of keys.
//!
//! What the crates above use: a [`Catalog`] holds live lines. [`Catalog::check`] answers Ok exactly where
//! lines keep the rules, each over the live lines with those before it (`AreKept`), and else the first line
//! that breaks one, and the first rule that it breaks (`IsFirstBroken`; both in `specs/Kept.antt` of the crate
//! `epoch_rules`). [`Catalog::apply`] takes in lines that keep the rules; afterwards the catalog holds the
//! live lines of all lines (`live_lines` of that crate), and where memory is missing, what it held before.
//! [`Catalog::lines`] hands out all lines, [`Catalog::family`] those of a [`Family`], [`Catalog::wide`] the
//! places of those of them that are wide (`specs/Wide.antt`), and [`Catalog::user`] the user of a name; the
//! last three search by halves. A catalog is seen as the list of its lines, without
//! memory (`specs/Views.antt` of the crate `epochs`), and its type keeps `IsCatalog`. Beside the lines it keeps
//! what the rules need of them all (`Index` of the crate `epoch_rules`), so that n lines over N live ones cost
//! about N + n log N, and a check of few lines about n log N.
//!
//! The laws of live lines are in `src/law.rt`: a line is live exactly if it is one of the lines, isn't a
//! deletion, and no later line has its key; what is live after some lines and then others is what is live
//! after them all; lines that are kept make of a catalog a catalog; and of a name there is one user.
//!
//! `src/merging.rt` merges live lines and new ones: it finds the last new line of each key from the last line
//! to the first, puts these in the order of their keys and copies them (`src/copying.rt`). When there is room for all
//! lines, and the index has taken them in, it changes the live lines, in one walk from the greatest key to the
//! least new one: the live lines of greater keys are moved, that of the same key is dropped, and the new line
//! follows unless it is a deletion. `src/families.rt`, `src/wide.rt` and `src/users.rt` have the searches.
#![tactic(auto)]

mod catalog;
mod copying;
mod families;
mod law;
mod merging;
mod placing;
mod users;
mod wide;
mod withdrawals;

pub use catalog::Catalog;
pub use families::Family;
pub use law::{
    a_name_is_that_of_one_user, kept_lines_keep_a_catalog, live_lines_go_on,
    live_lines_in_the_subjects_words,
};
pub use withdrawals::Mark;
