//! How much of each day an archive holds, channel by channel.
//!
//! What the crates above use: [`report_of`] is `report` of `specs/Answers.antt`, over the rows of any `Shelf` that a
//! `Sight` sees: a line for each channel and day with something covered, or Empty exactly where there is no line, or
//! TooLarge(n) exactly where these are n lines and more than the limit.
//!
//! What is covered stands in `specs/Covered.antt`, microsecond by microsecond; the lines in `specs/Lines.antt`, and how
//! they are printed in `specs/Texts.antt`. The program counts none of them: it puts what records cover in order of
//! their starts and sweeps it (`specs/Sweep.antt`). [`covered_in_the_subjects_words`] says what the definition counts.
#![tactic(auto)]

mod law;
mod line;
mod lines;
mod report;
mod rows;
mod stretch;
mod sweep;
mod texts;
mod walk;

pub use law::covered_in_the_subjects_words;
pub use report::report_of;
