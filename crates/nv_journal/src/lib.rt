//! A keeper of the persistent area that outlives a stop at any moment.
//!
//! A `Disk` tells which byte lists a stop may leave on it. A `Journal` keeps the area in two slots
//! of a disk, in turn. At each moment of a store, each byte list that a stop may leave then stands
//! for an area that one at the start of the store stood for, or for the new one; and after a store
//! that succeeds for the new one alone. `law_of_stops` says what that comes to where one store
//! follows another. An older keeper has what was kept before the first store; it is never written.
//! A `MemoryDisk` tells all of its content, fails at given calls, and gives some of the byte lists
//! that a stop may leave.
#![tactic(auto)]

mod disks;
mod journals;
mod memory_disks;
mod slots;
mod steps;
mod stop_laws;
mod stores;

pub use crate::disks::{Disk, Extent};
pub use crate::journals::Journal;
pub use crate::memory_disks::MemoryDisk;
pub use crate::slots::{JOURNAL_LENGTH, SLOT_LENGTH, Slot};
pub use crate::steps::{close_gate, open_gate, write_area};
pub use crate::stop_laws::law_of_stops;
