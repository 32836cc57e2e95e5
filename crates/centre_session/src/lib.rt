//! A session: the requests of one link, served one after another over a desk.
//!
//! What the crate above uses: [`serve_session`] serves the requests of a `Link` over any `Desk`, at the moments of a
//! [`Clock`], until the session ends, and records a turn for each in a [`Trail`]. Its contract, `SessionRow` of
//! `specs/Session.antt`, says by the end what was taken, replied and written.
//!
//! The definition: `specs/Items.antt` says which items the bytes of a link are and how they end (RFC 9112, section 2.1), and
//! what is written of each; `specs/Turns.antt` what an item's turn is, that all turns are over one history, whose fronts
//! never fall, and what they count at the desk; `specs/Sources.antt` that over a desk that is alone they are the sources of
//! all entries that were added. The reply to a request is that of `centre_desk`. That a longer history keeps a session is a
//! law. `SessionSays` is what every session says, whatever its end (`session_says` of `proofs/Says.antt`).
//!
//! A session costs what its bytes and its replies cost: nothing goes over the turns or the bytes again.
#![tactic(auto)]

mod clock;
mod clocks;
mod ending;
mod fixed;
mod law;
mod real;
mod serving;
mod session;
mod trail;
mod turns;

pub use clock::Clock;
pub use ending::SessionEnd;
pub use fixed::FixedClock;
pub use law::a_longer_history_keeps_a_session;
pub use real::RealClock;
pub use session::serve_session;
pub use trail::Trail;
