//! Tests of what the disk keeps that need real files, threads or tokens. The cases that are data are in `archive_cases`.
//!
//! They stand apart from what they test, so that it is proved once.
#![tactic(auto)]

#[cfg(test)]
mod archives_in_files;
#[cfg(test)]
mod disks_in_files;
#[cfg(test)]
mod fronts;
#[cfg(test)]
mod journals_in_files;
#[cfg(test)]
mod threads;
