//! The values of fields.

use bml_bytes::Text;

/// The value of a field of a persistent array.
#[derive(Debug, Drop)]
pub enum Field {
    /// The value of a bit.
    Bit(bool),
    /// The number of a field with or without a sign.
    Whole(i32),
    /// The text of a field of fixed or varying size.
    Words(Text),
}
