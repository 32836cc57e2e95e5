//! The reply to a request over a desk.
//!
//! What the crate above uses: [`reply`] answers a request over any `Desk`, at a moment. Its contract, `Replies` of
//! `specs/Turns.antt`, says that the reply is `reply_of` over what the desk sees after the call, or tells that a disk
//! stopped the command, which then may be stopped and which the desk counted; that the desk caught up exactly where the
//! request asks for more entries than it saw; and what the turn says. Every reply that it makes can be sent. Over a desk
//! that is alone, `AloneReply` of `specs/Sources.antt` says what the request added to what is seen, and what it left.
//!
//! The definition, `specs/Replies.antt`: what a request is told over a history, by tests in their order. First the path
//! and the method; on a feed path the fault of the sequence number, and then the verdict; on a query path a bad field
//! X-Archive-Front, that there are too few entries, the denial, the fault of the query, no data, too much, the body (FDSN
//! Web Service Specifications 1.2; fdsnws-availability 1.0). `specs/Faults.antt` has the status and the text of each
//! fault (RFC 9110, section 15), `specs/Fields.antt` what the fields of a request say, `specs/Queries.antt` what a query
//! path is asked for. That the first test that fails decides, row by row, that nothing is told of a disk or of memory but
//! by a desk, and that a command acts once however often requests repeat it, are laws (`specs/Laws.antt`), each the
//! contract of a function without body.
//!
//! A request costs its router, its query, and one question or one command of the desk. A faulty query asks the desk who
//! asks and nothing else.
#![tactic(auto)]

mod answering;
mod fault;
mod fields;
mod law;
mod posting;
mod queries;
mod replying;
mod told;

pub use fault::Fault;
pub use fields::Repeated;
pub use law::{
    a_repeated_command_acts_once, a_request_is_told_by_the_first_test_it_fails,
    no_request_is_told_of_disk_or_memory,
};
pub use replying::reply;
pub use told::{Told, head_reply};
