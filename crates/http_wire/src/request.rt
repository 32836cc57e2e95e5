//! A request.
ghost use Rattle.std.specs.Prelude.{◌≡◌, true};
ghost use Rattle.httparse.specs.Grammar.{is_token};
ghost use Rattle.http_wire.specs.Heads.{is_target};

use crate::field::Field;
use exact_time::{Bytes, Many};

/// A request with its body.
#[derive(Drop)]
pub struct Request {
    /// The method as it was sent: a token.
    pub method: Bytes,
    /// The target as it was sent: one byte or more, none of them a space or a control byte.
    pub target: Bytes,
    /// The fields of the head, in order.
    pub headers: Many<Field>,
    pub body: Bytes,
    /// Whether the connection closes behind the reply.
    pub close: bool,
    pub ghost method_is: { is_token method ≡ true },
    pub ghost target_is: { is_target target ≡ true },
}
