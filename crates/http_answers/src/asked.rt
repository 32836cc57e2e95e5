//! A request that is written.
ghost use Rattle.std.specs.Prelude.{◌≡◌, true};
ghost use Rattle.httparse.specs.Grammar.{is_token};
ghost use Rattle.http_wire.specs.Heads.{is_target};

use exact_time::{Bytes, Many};
use http_wire::Field;

/// A request without a body.
#[derive(Drop)]
pub struct Asked {
    /// The method: a token (RFC 9110, section 5.6.2).
    pub method: Bytes,
    /// The target: one byte or more, none of them a space or a control byte.
    pub target: Bytes,
    /// The fields of the head, in order.
    pub fields: Many<Field>,
    pub ghost method_is: { is_token method ≡ true },
    pub ghost target_is: { is_target target ≡ true },
}
