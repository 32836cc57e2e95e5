//! Who asks, and which rows of an archive a caller sees: restrictions hide rows, grants give them back to users,
//! and withdrawals take them from everybody.
//!
//! What the crates above use: [`who`] gives the user whom the credentials of a request name, or the first
//! reason to deny, as `who_of` of `specs/Who.antt` says by the live lines, the credentials, the moment and the
//! secret (Digest of RFC 2617; the crate `http_digest` has its parts). A [`Pass`] is the `Sight` of one caller
//! under the live lines of a catalog, so that any answer over a shelf has what that caller sees (`is_seen` of
//! `specs/Access.antt`): a row where [`may`] is true, that is no live restriction touches it or a live grant of
//! the user covers it, and [`withdrawn`] is not, that is no live withdrawal covers it. It marks a row exactly
//! where a live restriction touches it, and a name is whole exactly where the patterns of no live restriction
//! and of no live withdrawal match it. But for `who` nothing here takes memory.
//!
//! A restriction touches a row where its patterns match the four codes, the row's last sample isn't before
//! its start, and the first isn't after its end. A grant covers a row where its patterns match, and no
//! sample is before its start or after its end. A withdrawal covers a row where this holds of it and the row's
//! entry is no later than the last one that it reaches. An absent end holds always. `src/law.rt` has this in
//! the subject's words (`specs/AccessLaw.antt`), and that the live restrictions and withdrawals and the user's
//! own grants alone decide what a caller sees; and whom credentials name (`specs/WhoLaw.antt`).
#![tactic(auto)]

mod access;
mod callers;
mod denial;
mod law;
mod pass;
mod patterns;
mod withdrawals;

pub use access::may;
pub use callers::who;
pub use denial::{Denial, WhoFault};
pub use law::{
    an_answer_names_its_user, credentials_name_whom_they_prove, may_have_in_the_subjects_words,
    restrictions_and_own_grants_decide,
};
pub use pass::Pass;
pub use withdrawals::withdrawn;
