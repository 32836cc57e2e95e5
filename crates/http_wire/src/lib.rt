//! Requests of HTTP/1, read from a link however it cuts them.
//!
//! What the crate above uses: [`read_request`] over a [`Link`], with the [`Inbox`] that keeps what was
//! taken and not used yet. Its contract is words of `specs/Requests.antt`: the next request of all that
//! was held and that the link gave, or why there is none, and what was written. It says nothing of the
//! pieces in which the bytes came. It writes the interim reply (RFC 9110, section 10.1.1) and nothing
//! else. A link, one in memory and [`put_all`], which writes bytes to a link however many it takes at a time,
//! are those of `streams`.
//!
//! The definition, on whole lists of bytes: `specs/Blocks.antt` says where a head's block ends (RFC 9112,
//! section 2.1), `specs/Fronts.antt` how a stream is cut into blank bytes, the front of a request and the
//! rest, `specs/Heads.antt` what a front says, by the tests of a head in their order, and
//! `specs/Items.antt` what a request is, and how a stream ends that begins with none. A head is
//! what the grammar of `httparse` reads by its default settings. That a stream begins with one front, which
//! says one thing, that the answers speak of all that was held and left and are the same however it was cut,
//! and that a front holds its target are laws (`specs/Laws.antt`), each the contract of a function without body.
//!
//! Each byte of a head is looked at once for the end of its block, whatever the pieces; then the front is
//! tested and parsed. A head with more fields than are read is parsed once more, with room for all, since
//! a bad field behind the last that is read makes it no head. Bytes are taken straight into the inbox,
//! behind what it holds: its room is cleared once, and lent again until it is full, so a client may send
//! a byte at a time; as much more is made as came. The body is copied from there once.
//!
//! [`Inbox`] and [`fill`] serve for replies too, which `http_answers` reads.
#![tactic(auto)]

mod asking;
mod block;
mod ending;
mod field;
mod fields;
mod front;
mod head;
mod inbox;
mod judging;
mod law;
mod parsing;
mod reading;
mod request;
mod taking;
mod turn;
mod writing;

pub use ending::{HeadFault, ReadEnd};
pub use field::Field;
pub use fields::{is_named, length_in};
pub use inbox::Inbox;
pub use law::{
    a_front_holds_its_target, a_request_in_hand_is_a_whole_item, a_stream_begins_with_one_front,
    answers_speak_of_all_bytes, bytes_begin_with_one_request, pieces_do_not_matter,
};
pub use reading::read_request;
pub use request::Request;
pub use streams::{Link, MemoryLink, Sink, Source, Stream, put_all};
pub use taking::{TakeStop, fill};
pub use turn::Turn;
