//! Tests of `persistent_arrays` and `binary_table`: bytes and values that were worked out by hand, which no clause says,
//! and each public call with memory to spare. It has no code of its own.
//!
//! They stand here since a crate with tests is proved twice, and a library is proved once.
#![tactic(auto)]

#[cfg(test)]
mod names;
#[cfg(test)]
mod packing;
#[cfg(test)]
mod reading;
#[cfg(test)]
mod tables;
#[cfg(test)]
mod written;
