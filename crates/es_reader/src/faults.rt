//! Why a part of a program wasn't read.

use bml_bytes::NoMemory as MemoryGone;
use std::alloc::{AllocError, AllocFailed};

/// Why a part wasn't read: nothing goes on with the token at a place, or memory is gone.
#[derive(Clone, Copy)]
pub enum PartFault {
    Bad(usize),
    NoMemory,
}

impl From<MemoryGone> for PartFault {
    ghost use Rattle.std.specs.Prelude.{◌≡◌};
    ghost use Rattle.es_reader.specs.declared.faults.PartFault.TheVariants.{NoMemory};

    ghost from_gives = { λ _ fault. fault ≡ NoMemory };

    fn from(_error: MemoryGone) -> PartFault {
        PartFault::NoMemory
    }
}

impl From<AllocError> for PartFault {
    ghost use Rattle.std.specs.Prelude.{◌≡◌};
    ghost use Rattle.es_reader.specs.declared.faults.PartFault.TheVariants.{NoMemory};

    ghost from_gives = { λ _ fault. fault ≡ NoMemory };

    fn from(_error: AllocError) -> PartFault {
        PartFault::NoMemory
    }
}

impl<T: Drop> From<AllocFailed<T>> for PartFault {
    ghost use Rattle.std.specs.Prelude.{◌≡◌};
    ghost use Rattle.es_reader.specs.declared.faults.PartFault.TheVariants.{NoMemory};

    ghost from_gives = { λ _ fault. fault ≡ NoMemory };

    fn from(_error: AllocFailed<T>) -> PartFault {
        PartFault::NoMemory
    }
}
