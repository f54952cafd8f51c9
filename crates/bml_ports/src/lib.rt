//! The outside of a replay: what is read, written and kept.
//!
//! A `World` opens and reads files, a `Sink` takes what is written, and a `Keeper` keeps a persistent
//! area. Each tells, for contracts alone, its counts of faults and whether the last call failed, what was
//! asked for, and maybe its content. So a caller can prove what was read and written, however the calls
//! were cut, and that a fault which it reports was one. The ports in memory tell all of their content, and
//! fail exactly where they are told to, where a file is missing or was opened before, and where no room
//! is left.
#![tactic(auto)]

pub mod laws;
mod memory_calls;
mod memory_keepers;
mod memory_sinks;
mod memory_worlds;
mod outside;

pub use crate::memory_calls::{Calls, is_listed};
pub use crate::memory_keepers::MemoryKeeper;
pub use crate::memory_sinks::MemorySink;
pub use crate::memory_worlds::{MemorySource, MemoryWorld};
pub use crate::outside::{Failed, Keeper, Port, Sink, World};
pub use bml_bytes::{AreaBytes, NoMemory, Text};
