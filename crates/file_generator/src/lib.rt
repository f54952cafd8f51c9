//! The files of a generated stream: a page with a menu, and modules of random sizes and bytes.
//!
//! [`gen_files`] gives the same files for the same seed and count, whatever the machine. They can always be written as
//! a stream ([`law_of_generated_files`]).
#![tactic(auto)]

mod files;
mod laws;
mod menu;
mod modules;

pub use crate::files::gen_files;
pub use crate::laws::law_of_generated_files;
