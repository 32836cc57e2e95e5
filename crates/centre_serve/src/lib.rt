//! A service: several workers over the archive of one disk, each with a port, a clock and a thread of its own.
//!
//! What the crate above uses: [`serve`] opens the archive, serves the ports side by side, each over a desk of its own, and
//! closes the archive when the last port is closed or has failed. Its contract, `ServeRow` of `specs/Service.antt`, says by how
//! it ended what was read and written on each link that came back, over one history that all workers share, and what the disk
//! then holds.
//!
//! The definition: what became of the links of one port is `IsVisits` of `centre_port`, here over the history with which the
//! disk comes back (`specs/Whole.antt`). A desk is a `SharedDesk` of `snapshot_hall`.
//!
//! What the workers themselves need is taken before the first link is; sessions take memory as they go.
#![tactic(auto)]

mod ending;
mod seats;
mod serving;
mod worker;

pub use ending::ServeStop;
pub use seats::ports_of;
pub use serving::{Served, serve};
pub use worker::Worker;
