//! Codes and names of channels, and the pattern lists that choose among them.
//!
//! What the crates above use: [`PatternList::matches`] is the relation of patterns, both ways
//! (`specs/Matching.antt`), and [`PatternList::read`] reads exactly the lists that
//! `specs/PatternText.antt` spells (FDSN Web Service Specifications 1.2, dataselect, channel options:
//! lists by commas with the wildcards `*` and `?`).
//!
//! A [`Code`] is seen in contracts as the list of its bytes, a [`PatternList`] as the list of its
//! patterns.
#![tactic(auto)]

mod code;
mod law;
mod matching;
mod nslc;
mod patterns;
mod reading;

pub use code::Code;
pub use law::{a_text_is_one_list_or_one_fault, names_are_in_order_of_their_fields};
pub use nslc::{Nslc, Part};
pub use patterns::{GlobFault, PatternList};
pub use reading::is_blank_location;
