//! Revision lines: what a data centre says of its networks, stations, channels, events and users.
//!
//! What the crates above use: [`read_revision`] reads a body of revision lines. It answers Ok exactly with
//! the lines that the body spells (`IsRevision` of `specs/Revisions.antt`), and else the first fault
//! (`IsRevisionFault`): by those definitions each body has exactly one answer (`src/law.rt`). Only
//! [`RevisionFault::OutOfMemory`] needs no cause. [`is_user_name`], [`is_ha1`] and [`is_skipped`] are the tests
//! of single texts: a user's name, an HA1, a line that says nothing.
//!
//! Which kinds of lines there are, with their fields and keys, stands as a table in
//! `specs/Kinds.antt`, for lines and for deletions, and what each field spells in `specs/Fields.antt`. A
//! line spells one set of values or has one fault (`IsLine` and `IsLineFault` of `specs/Lines.antt`). These
//! definitions speak of a [`Line`] and a [`Key`] as `specs/Views.antt` and `specs/Keys.antt` see them,
//! without memory.
//!
//! The type of a line keeps that its fields are values that a line can spell, and that its end is after
//! its start (`IsSpellable` of `specs/Spellable.antt`).
//!
//! A line holds groups of fields that stand together (`src/parts.rt`), and is read by these (`src/groups.rt`), each
//! field by a reader of its own (`src/values.rt`, `src/roles.rt`); `src/statements.rt` and `src/deletions.rt` have a function for each kind.
#![tactic(auto)]

mod deletions;
mod fault;
mod groups;
mod key;
mod kinds;
mod law;
mod line;
mod parts;
mod quantity;
mod reading;
mod revision;
mod roles;
mod statements;
mod values;

pub use fault::{LineFault, RevisionFault};
pub use key::Key;
pub use law::{a_body_is_one_revision_or_one_fault, a_field_can_have_what_some_text_spells};
pub use line::{
    ChannelEpoch, Deletion, Event, Grant, Line, NetworkEpoch, Restriction, StationEpoch, User,
    Withdrawal,
};
pub use parts::{
    Attribution, EpochTimes, Glob, Globs, Hypocentre, Magnitude, Position, Response, Roles, Sensor,
};
pub use reading::is_skipped;
pub use revision::read_revision;
pub use values::{is_ha1, is_user_name};
