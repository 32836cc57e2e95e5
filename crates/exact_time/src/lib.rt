//! Exact times, rates and small growing values, under every other crate.
//!
//! What the crates above use: a sample's time is an exact fraction, and [`cmp_sample_time`] compares
//! it with a moment without rounding; [`SampleTime::floor`] and [`reach`] say the same in whole
//! microseconds (`specs/SampleTime.antt`). Texts of times are read by
//! [`Moment::read`] (`specs/MomentText.antt`; FDSN Web Service Specifications 1.2, time values), the
//! start of a record by [`btime`] (`specs/BTime.antt`; SEED 2.4, chapter 3, the BTIME structure), its
//! rate by [`Ratio::of`] (`specs/Rate.antt`; SEED 2.4, fixed section of data header, fields 10 and 11).
//! Rates are ordered by their values (`specs/RateOrder.antt`).
//!
//! Moments, numbers and rates are written by [`Moment::write`] (`specs/Written.antt`),
//! [`Decimal::write`] and [`Ratio::write`] (`specs/Decimals.antt`), and numbers are read by
//! [`Decimal::read`] and, where they are whole, by [`whole_number`]. A number that is written reads back as the same number, and a moment of 1900 to
//! 2599 as the same moment; a rate is rounded down to six decimals.
//!
//! [`Bytes`], [`Text`] and [`Many`] are seen in contracts as their lists. [`Failed`] is the one error
//! of every trait of the outside; `specs/Causes.antt` says when it may come.
#![tactic(auto)]

mod civil;
mod compare;
mod decimal;
mod error;
mod fields;
mod growing;
mod law;
mod moment;
mod part;
mod rate_order;
mod ratio;
mod reading;
mod sample;
mod whole;
mod writing;

pub use civil::btime;
pub use compare::{cmp_sample_time, cmp_times, gap_at_most, lateness, overlap_at_most, parts};
pub use decimal::{Decimal, are_digits, number_of, whole_number};
pub use error::{Failed, OutOfMemory, TextRefusal};
pub use fields::BTime;
pub use growing::{Bytes, Many, Text};
pub use law::{a_text_is_one_value_or_one_fault, rates_are_in_order_of_their_values};
pub use moment::{Moment, TimeFault};
pub use ratio::Ratio;
pub use sample::SampleTime;
pub use whole::reach;
