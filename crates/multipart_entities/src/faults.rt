//! Why bytes have no parts.

use bml_bytes::NoMemory as MemoryGone;
use std::alloc::{AllocError, AllocFailed};
use thiserror::Error;

/// Why bytes weren't read as an entity. The first fault that they have is told, in the order
/// written here.
#[derive(Clone, Copy, Debug, PartialEq, Eq, Error)]
pub enum EntityFault {
    /// They have no head of header lines and an empty line, or are of several parts and have no
    /// boundary or no last delimiter line.
    #[error("Malformed")]
    Malformed,
    /// More than 512 body parts stand between delimiter lines, up to the first last one.
    #[error("TooManyParts")]
    TooManyParts,
    /// Want of memory, and nothing else.
    #[error("NoMemory")]
    NoMemory,
}

impl From<MemoryGone> for EntityFault {
    ghost use Rattle.std.specs.Prelude.{◌≡◌};
    ghost use Rattle.multipart_entities.specs.declared.faults.EntityFault.TheVariants.{NoMemory};

    ghost from_gives = { λ _ fault. fault ≡ NoMemory };

    fn from(_error: MemoryGone) -> EntityFault {
        EntityFault::NoMemory
    }
}

impl From<AllocError> for EntityFault {
    ghost use Rattle.std.specs.Prelude.{◌≡◌};
    ghost use Rattle.multipart_entities.specs.declared.faults.EntityFault.TheVariants.{NoMemory};

    ghost from_gives = { λ _ fault. fault ≡ NoMemory };

    fn from(_error: AllocError) -> EntityFault {
        EntityFault::NoMemory
    }
}

impl<T: Drop> From<AllocFailed<T>> for EntityFault {
    ghost use Rattle.std.specs.Prelude.{◌≡◌};
    ghost use Rattle.multipart_entities.specs.declared.faults.EntityFault.TheVariants.{NoMemory};

    ghost from_gives = { λ _ fault. fault ≡ NoMemory };

    fn from(_error: AllocFailed<T>) -> EntityFault {
        EntityFault::NoMemory
    }
}
