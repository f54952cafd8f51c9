//! What the tables and messages of all kinds have in common: the body of a section, and descriptors.
//!
//! [`body`] is what a section carries between its header and its CRC_32. [`Descriptors`] walks bytes
//! that are descriptors laid end to end, and there are none exactly where the bytes aren't; bytes are at most one list
//! of descriptors.
#![tactic(auto)]

mod descriptors;
mod laws;
mod sections;

pub use crate::descriptors::{Descriptor, Descriptors};
pub use crate::laws::law_of_descriptors;
pub use crate::sections::body;
