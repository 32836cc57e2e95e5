//! A window of a data centre's archive, asked for in parts and put together.
//!
//! What the crates above use: [`fetch`] asks for a window over the links of a port, by one request on each, and gives the records of
//! all (`specs/Fetching.antt`). What is heard on a link is a function of the bytes that came and of whether it failed
//! (`specs/Peers.antt`, [`one_thing_is_heard`]).
//!
//! [`target_of`] writes the target of a request for one window, and [`gather_owned`] puts the answers for windows that adjoin
//! together: the records without doubles, by name, quality letter and start
//! (`IsGathered` of `specs/Gathering.antt`); or it says why not, the fronts of two neighbours that differ before a size
//! that is too large. [`gather`] does the same by reference, and copies each record.
//!
//! Three laws say what this is worth (`src/law.rt`). [`parts_make_the_whole`]: where the answers have one front, and each
//! is the data body of its own window (`data_body` of `dataselect`), what is gathered is the data body of the whole
//! (`specs/Parts.antt`). [`rows_are_gathered_in_order`]: the rows without doubles, sorted, ties kept.
//! [`a_target_reads_back`]: read as a query string, a target asks for its codes and its window, and for nothing else
//! (`specs/Targets.antt`).
//!
//! Which window is asked next, and how asking ends, are functions of what was heard (`specs/Rounds.antt`); a [`Plan`] is where a
//! round stands, and has one step, [`Plan::after`]. Laws: the windows of the answers that were accepted adjoin, make the whole and
//! have one front ([`accepted_windows_make_the_whole`]), and none is asked twice in a round ([`no_window_is_asked_twice`]).
//!
//! A window has its start and its end in it, and windows adjoin where each begins one microsecond after the end of the one
//! before and none ends before it begins (`specs/Windows.antt`; FDSN Web Service Specifications 1.2, dataselect, gives a
//! record that has a sample in the window, so that a record may be in the answers for several windows).
#![tactic(auto)]

mod answer;
mod asked;
mod asking;
mod copying;
mod everything;
mod fault;
mod fetching;
mod fronts;
mod gathering;
mod halves;
mod heard;
mod law;
mod numbering;
mod plan;
mod planning;
mod target;
mod window;

pub use answer::WindowAnswer;
pub use asked::Codes;
pub use copying::gather;
pub use fault::GatherFault;
pub use fetching::{FetchFault, fetch};
pub use gathering::gather_owned;
pub use heard::{Heard, Outcome};
pub use law::{
    a_target_reads_back, accepted_windows_make_the_whole, no_window_is_asked_twice,
    one_thing_is_heard, parts_make_the_whole, rows_are_gathered_in_order,
    windows_are_asked_in_order,
};
pub use plan::{Plan, Step};
pub use target::target_of;
pub use window::Window;
