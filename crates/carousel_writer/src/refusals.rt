//! Why files aren't written.

use bml_bytes::NoMemory as MemoryGone;
use thiserror::Error;

/// Why files weren't written.
#[derive(Clone, Copy, Debug, PartialEq, Eq, Error)]
pub enum WriteRefusal {
    /// They are no files that can be written so that they are read again.
    #[error("BadFiles")]
    BadFiles,
    /// Want of memory, and nothing else.
    #[error("NoMemory")]
    NoMemory,
}

impl From<MemoryGone> for WriteRefusal {
    ghost use Rattle.std.specs.Prelude.{◌≡◌};
    ghost use Rattle.carousel_writer.specs.declared.refusals.WriteRefusal.TheVariants.{NoMemory};

    ghost from_gives = { λ _ refusal. refusal ≡ NoMemory };

    fn from(_error: MemoryGone) -> WriteRefusal {
        WriteRefusal::NoMemory
    }
}
