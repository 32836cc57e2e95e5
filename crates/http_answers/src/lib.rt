//! What a client of HTTP/1 needs: replies, read from a link however it cuts them, and requests without a body, written to it.
//!
//! What the crates above use: [`read_reply`] over a `Link`, with the `Inbox` of `http_wire` that keeps what was taken and not
//! used yet. Its contract is words of `specs/Reading.antt`: the next reply of all that was held and that the link gave, or why
//! there is none. It says nothing of the pieces in which the bytes came, and writes nothing.
//!
//! The definition, on whole lists of bytes: `specs/ReplyHeads.antt` says what a head says (RFC 9112, sections 4 to 6): a head is
//! what the grammar of `httparse` reads by its default settings, the first field of a name decides, and a reply with status 204
//! has no body. That what is heard of a peer is a function of the bytes that came and of whether the link failed, and that what
//! `http_replies` wrote reads back as it was meant and as nothing else, are laws (`specs/Hearing.antt`, `specs/Laws.antt`), each
//! the contract of a function without body.
//!
//! A head that comes byte by byte is parsed once a line. A head with more fields than are read is parsed once more, with room for
//! all, since a bad field behind the last that is read makes it no head. A body is taken in pieces as it comes, without room for
//! what the peer merely says, and is handed on as it lies.
#![tactic(auto)]

mod asked;
mod got;
mod law;
mod parsing;
mod reading;
mod values;
mod writing;

pub use asked::Asked;
pub use got::{Got, GotEnd};
pub use law::{
    a_request_reads_back, bytes_begin_with_no_head, one_hearing, what_was_written_reads_back,
};
pub use reading::read_reply;
pub use writing::write_request;
