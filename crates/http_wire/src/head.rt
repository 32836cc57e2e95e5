//! A head in parts.
ghost use Rattle.std.specs.Prelude.{◌≡◌, true};
ghost use Rattle.httparse.specs.Grammar.{is_token};
ghost use Rattle.http_wire.specs.Heads.{is_target};

use crate::field::Field;
use exact_time::{Bytes, Many};

/// A head of HTTP/1.0 or HTTP/1.1.
#[derive(Drop)]
pub struct Head {
    pub method: Bytes,
    pub target: Bytes,
    pub minor: u8,
    pub fields: Many<Field>,
    pub ghost method_is: { is_token method ≡ true },
    pub ghost target_is: { is_target target ≡ true },
}

/// What a parse of a block gives.
#[derive(Drop)]
pub enum HeadRead {
    /// It is this head.
    Whole(Head),
    /// It is a head that has more fields than are read.
    Crowded,
    /// It is no head.
    Bad,
}
