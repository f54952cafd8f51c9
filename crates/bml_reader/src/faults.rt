//! Why bytes are no document that is shown.

use bml_bytes::NoMemory as MemoryGone;
use std::alloc::{AllocError, AllocFailed};
use thiserror::Error;

/// Why bytes weren't read as a document. The first fault that they have is told, in the order
/// written here.
#[derive(Clone, Copy, Debug, PartialEq, Eq, Error)]
pub enum DocFault {
    /// They aren't in the grammar.
    #[error("Malformed")]
    Malformed,
    /// The root is another element than `bml`.
    #[error("WrongRoot")]
    WrongRoot,
    /// An element stands at level 65, the root's being 1.
    #[error("TooDeep")]
    TooDeep,
    /// There are more than 16,384 elements and texts.
    #[error("TooManyNodes")]
    TooManyNodes,
    /// Want of memory, and nothing else.
    #[error("NoMemory")]
    NoMemory,
}

impl From<MemoryGone> for DocFault {
    ghost use Rattle.std.specs.Prelude.{◌≡◌};
    ghost use Rattle.bml_reader.specs.declared.faults.DocFault.TheVariants.{NoMemory};

    ghost from_gives = { λ _ fault. fault ≡ NoMemory };

    fn from(_error: MemoryGone) -> DocFault {
        DocFault::NoMemory
    }
}

impl From<AllocError> for DocFault {
    ghost use Rattle.std.specs.Prelude.{◌≡◌};
    ghost use Rattle.bml_reader.specs.declared.faults.DocFault.TheVariants.{NoMemory};

    ghost from_gives = { λ _ fault. fault ≡ NoMemory };

    fn from(_error: AllocError) -> DocFault {
        DocFault::NoMemory
    }
}

impl<T: Drop> From<AllocFailed<T>> for DocFault {
    ghost use Rattle.std.specs.Prelude.{◌≡◌};
    ghost use Rattle.bml_reader.specs.declared.faults.DocFault.TheVariants.{NoMemory};

    ghost from_gives = { λ _ fault. fault ≡ NoMemory };

    fn from(_error: AllocFailed<T>) -> DocFault {
        DocFault::NoMemory
    }
}
