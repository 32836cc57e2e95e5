//! Digest authentication of HTTP (RFC 2617 with MD5, RFC 1321): credentials, responses, nonces and
//! challenges.
//!
//! What the crates above use: [`read_authorization`] reads the value of a header Authorization. It is Ok
//! exactly where the value spells these parts, and Unreadable exactly where it spells none
//! (`IsAuthorization` of `specs/Parts.antt`, over the grammar of `specs/Credentials.antt`: trees, what each
//! prints, and which are valid; RFC 2617, section 3.2.2). [`response_of`] is what a client has to answer
//! (`specs/Responses.antt`; section 3.2.2.1). [`nonce_of`] and [`issue_of`] make a nonce and read its second
//! (`specs/Nonces.antt`), [`challenge`] asks a client for credentials, and [`Challenge`] is what a header
//! WWW-Authenticate says (`specs/Challenge.antt`; section 3.2.1). [`authorization_of`] is what a client answers
//! (`specs/Answers.antt`). But for the reader and that answer nothing takes memory.
//!
//! The digest is `md5` as the crate `md5` defines it, and digits are those of the crate `hex`. That a value
//! spells one authorization or none, that a nonce tells its second, and that an answer reads back are laws
//! (`src/law.rt`).
#![tactic(auto)]

mod answering;
mod authorization;
mod challenges;
mod item;
mod law;
mod nonce;
mod parts;
mod reading;
mod response;
mod same;
mod scan;
mod secret;

pub use answering::authorization_of;
pub use authorization::{AuthFault, AuthPart, Authorization, Credentials};
pub use challenges::Challenge;
pub use law::{
    a_nonce_tells_its_second, a_value_is_one_authorization_or_none, an_answer_reads_back,
};
pub use nonce::{challenge, issue_of, nonce_of, second_of};
pub use reading::read_authorization;
pub use response::response_of;
pub use same::same_bytes;
pub use secret::Secret;
