//! Serving a port: a session on each link that it gives, one after another, over one desk.
//!
//! What the crate above uses: [`serve_port`]. Its contract, `ServesPort` of `specs/Visits.antt`, holds over any desk, port and
//! clock: the links that came back are those that were given, in order; what was read and written on each and its turns are
//! those of a session over what the desk then sees (`IsVisit`, by `SessionRow` of `centre_session`); and fronts never fall,
//! link after link. It returns where the port closes or fails.
//!
//! That what was served over a history was served over each longer one is a law, and that a visit is a session over the whole
//! history another.
#![tactic(auto)]

mod law;
mod serving;

pub use law::{a_longer_history_keeps_visits, a_visit_is_a_session};
pub use serving::serve_port;
