//! The bytes of the persistent area.

ghost use Rattle.std.specs.Prelude.{◌≡◌, length, replicate};
ghost use Rattle.bml_bytes.specs.Areas.{area_length};

use std::marker::Model;

/// How many bytes a receiver keeps while it is switched off.
pub const AREA_LENGTH: usize = 3072;

/// The bytes that a receiver keeps while it is switched off. Contracts see the list of its bytes.
#[derive(Debug, Drop)]
pub struct AreaBytes {
    pub bytes: [u8; AREA_LENGTH],
}

impl Model for AreaBytes {
    ghost use Rattle.std.specs.Prelude.{◌≡◌, List, ℕ, length};
    ghost use Rattle.bml_bytes.specs.Areas.{area_length};

    ghost Value = { List ℕ };

    ghost view = { λ area. area.bytes };

    ghost invariant = { λ area. length area.bytes ≡ area_length };

    ghost inverse = { λ bytes. record { bytes = bytes } };
}

impl AreaBytes {
    /// The area of a receiver that never wrote to it.
    pub fn zeros() -> AreaBytes
        ensures { result ≡ replicate area_length 0 }
    {
        AreaBytes {
            bytes: [0; AREA_LENGTH],
        }
    }

    /// All of the bytes.
    pub fn bytes(&self) -> &[u8]
        ensures bytes { result.now ≡ self.now }
        ensures size { length self.now ≡ area_length }
    {
        &self.bytes
    }
}
