//! Tests of `nv_journal`: what a new journal loads after a stop at any call on the disk, which byte
//! lists a disk in memory leaves, and what an older keeper keeps. It has no code of its own.
//!
//! They stand here since a crate with tests is proved twice, and the library is proved once.
#![tactic(auto)]

#[cfg(test)]
mod images;
#[cfg(test)]
mod journals;
#[cfg(test)]
mod older_areas;
#[cfg(test)]
mod stops;
