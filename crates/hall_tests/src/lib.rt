//! Tests of several desks over one archive: the two copies, the hall, workers side by side; and of a session whose client waits.
//!
//! They stand apart from what they test, so that it is proved once.
#![tactic(auto)]

#[cfg(test)]
mod beside;
#[cfg(test)]
mod copies;
#[cfg(test)]
mod halls;
#[cfg(test)]
mod waiting;
