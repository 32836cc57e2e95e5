//! The paths of the services, and what each leads to.
//!
//! What the crate above uses: [`page_of`] tells what a path leads to, and [`is_allowed`] whether the methods of
//! its page ([`Page::methods`]) have that of a request. By its clause the answer of `page_of` is that of the
//! table of `specs/Paths.antt`, whatever the bytes of the path are: the page of the row whose path is exactly
//! this one, and else none. Only `OutOfMemory` needs no cause. [`split_target`] gives the path and the query of
//! a target, and [`Service::version`] the text that tells a version.
//!
//! The table, `routes` there, is that of `FDSN Web Service Specifications 1.2` (dataselect, station and event:
//! the methods query, queryauth and version) and of `fdsnws-availability 1.0` (query, extent, queryauth,
//! extentauth and version), beside three paths of this data centre's own, by which entries are brought and copied.
//! [`routes`] is the same table in code, from which a help text can be written.
//!
//! A path is found by the router of `matchit`, which is made of the table's rows (`src/routing.rt`). No path of
//! the table has a parameter, so a router finds exactly the texts that it holds (`proofs/StaticLemmas.antt`).
#![tactic(auto)]

mod methods;
mod page;
mod routing;
mod table;
mod target;

pub use methods::is_allowed;
pub use page::{Access, Asked, Page, Service};
pub use routing::page_of;
pub use table::{Route, routes};
pub use target::{Target, split_target};
