//! Columns of text answers (FDSN Web Service Specifications 1.2, station and event, format=text).
//!
//! What the crates above use: [`write_columns`] appends the columns of a line, with bars between them and a
//! line feed behind them (`barred` of `specs/Texts.antt`). What stands in a column is a [`Column`]; how a
//! value of a revision line is printed is `column_text` of the same file. `proofs/Printable.antt` says that
//! what the type of a line keeps of its codes and moments suffices to print them.
#![tactic(auto)]

mod columns;

pub use columns::{Column, write_columns};
