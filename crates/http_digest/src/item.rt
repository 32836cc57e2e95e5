//! An item of credentials.
use exact_time::Bytes;

/// A name, and the text that its value says.
#[derive(Drop)]
pub(crate) struct Item {
    pub(crate) name: Bytes,
    pub(crate) value: Bytes,
}
