//! Replies of HTTP/1, written to a link.
//!
//! What the crate above uses: [`write_reply`], which writes a [`Reply`] to a `Link`. Its contract says that
//! exactly the bytes of the reply were written, or a first part of them where the link failed, which comes
//! only where the link's count of faults rose. It takes no memory.
//!
//! The definition, `reply_bytes` of `specs/Replies.antt`: a head of lines that end with CR LF, the first
//! line, a line for each field in a fixed order, and an empty line (RFC 9112, sections 4 and 5), and then
//! the body. The phrases are those of the crate `http`, and the challenge of 401 is that of `http_digest`.
//! What a reply must have is `IsSendable`.
//!
//! That the head is one of HTTP's grammar, which says what was meant and nothing else, is a law
//! (`specs/Laws.antt`), the contract of a function without body.
//!
//! A head has 512 bytes at most, and is put together on the stack and written in one piece; the body is
//! written as it lies.
#![tactic(auto)]

mod head_text;
mod law;
mod lines;
mod reply;
mod writing;

pub use law::a_reply_reads_back;
pub use reply::{Allow, BodyKind, Reply};
pub use writing::{LinkFault, write_reply};
