//! Which revision lines of a data centre are live, and the rules that a new line has to keep over them.
//!
//! What the crate above uses: [`check_lines`] answers Ok exactly where lines keep the rules, each over the
//! live lines with those before it (`AreKept` of `specs/Kept.antt`), and else the first line that breaks a
//! rule, and the first rule that it breaks (`IsFirstBroken`). `first_broken` tells that line as a function of
//! the live lines and the lines; by the law of `src/check_law.rt` it is the one right answer. `check_lines` asks
//! that the live lines are a catalog (`IsCatalog` of `specs/Catalog.antt`): keys rise, no line is a deletion, no
//! epoch overlaps another of its codes, and each line has what it rests on. It is passed their [`Index`] (`IsCatalogIndex` of `specs/Indexes.antt`),
//! which the crate above keeps beside them: how many operators there are, and the ends of stations and channels
//! in order. [`Index::take_in`] makes it that of the live lines after some lines more, in place.
//!
//! Which lines are live is defined in `specs/LiveLines.antt`, and the order of keys in
//! `specs/KeyOrder.antt` ([`cmp_keys`], [`key_view`]). The rules stand in `specs/Rules.antt`, in the order in
//! which they are tested; [`Rule`] names them. Lines are seen without memory (`specs/Views.antt` of the crate
//! `epochs`).
//!
//! `src/check.rt` holds each line against an outline of the live lines (`src/outline.rt`). Where few lines come,
//! these are laid over the live ones, which stay where they are and are looked up by halves (`src/overlay.rt`,
//! `src/by_halves.rt`), and so are their ends (`src/ends_over.rt`). Where many come, all live lines go into a map by
//! their keys, in one walk since they are in order, and the ends are copied. Since the live lines are a catalog,
//! the lines next to a key decide (`src/judging.rt`, `src/neighbours.rt`, `src/endings.rt`), so that a line costs
//! a logarithm. `src/laying.rt` puts changed ends into an index for good.
#![tactic(auto)]

mod by_halves;
mod check;
mod check_law;
mod container;
mod endings;
mod ends_over;
mod index;
mod judging;
mod key_code;
mod key_kind;
mod key_order;
mod laying;
mod neighbours;
mod outline;
mod overlay;
mod relations;
mod rule;
mod spans;

pub use by_halves::count_below;
pub use check::check_lines;
pub use check_law::lines_are_kept_or_one_is_the_first_broken;
pub use index::Index;
pub use key_kind::KeyKind;
pub use key_order::{KeyView, cmp_keys, key_view};
pub use relations::is_said;
pub use rule::{CheckFault, Rule};
