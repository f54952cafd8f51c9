//! A module's entry in a DII.

use bml_bytes::Sequence;

/// What a DII says of one module (ISO/IEC 13818-6, 7.3).
#[derive(Debug, Drop)]
pub struct Entry {
    /// The module's number, moduleId.
    pub id: u16,
    /// The module's length in bytes.
    pub size: u32,
    pub version: u8,
    /// Its descriptors, at most 255 bytes. `find_descriptor` reads them.
    pub info: Sequence<u8>,
}
