//! Tests of what goes over a link that need threads, sockets or a stream of their own. The other cases are those of `word_cases`.
//!
//! They stand apart from what they test, so that it is proved once.
#![tactic(auto)]

#[cfg(test)]
mod asking;
#[cfg(test)]
mod ends;
#[cfg(test)]
mod ports;
#[cfg(test)]
mod replies;
#[cfg(test)]
mod samples;
