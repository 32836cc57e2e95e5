//! A test of what is found in an index of many rows. The cases that are data are in `answer_cases`.
//!
//! It stands apart from what it tests, so that it is proved once.
#![tactic(auto)]

#[cfg(test)]
mod fetched;
#[cfg(test)]
mod gathered;
#[cfg(test)]
mod many;
#[cfg(test)]
mod targets;
