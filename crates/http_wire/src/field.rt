//! A field of a head.
ghost use Rattle.std.specs.Prelude.{◌≡◌, true};
ghost use Rattle.http_wire.specs.Heads.{is_lower_token, is_value};

use exact_time::Bytes;

/// A field of a head.
#[derive(Drop)]
pub struct Field {
    /// The name, in lower case: a token.
    pub name: Bytes,
    /// The value, without the white space around it: no control byte but tabs.
    pub value: Bytes,
    pub ghost name_is: { is_lower_token name ≡ true },
    pub ghost value_is: { is_value value ≡ true },
}
