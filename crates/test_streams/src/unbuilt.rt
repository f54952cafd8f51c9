//! Why a stream can't be written.

use bml_bytes::NoMemory;
use std::alloc::{AllocError, AllocFailed};
use thiserror::Error;

/// Why a section or a stream can't be written.
#[derive(Clone, Copy, Debug, PartialEq, Eq, Error)]
pub enum Unbuilt {
    /// A growth found no memory.
    #[error("no memory")]
    NoMemory,
    /// A length doesn't fit its field, or a place isn't in the section.
    #[error("a section of that length can't be written")]
    Length,
}

impl From<AllocError> for Unbuilt {
    fn from(_error: AllocError) -> Unbuilt {
        Unbuilt::NoMemory
    }
}

impl<T: Drop> From<AllocFailed<T>> for Unbuilt {
    fn from(_error: AllocFailed<T>) -> Unbuilt {
        Unbuilt::NoMemory
    }
}

impl From<NoMemory> for Unbuilt {
    fn from(_error: NoMemory) -> Unbuilt {
        Unbuilt::NoMemory
    }
}
