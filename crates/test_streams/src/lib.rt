//! Transport streams for tests (ISO/IEC 13818-1 and 13818-6).
//!
//! A [`Sent`] says what a section is, and writes its bytes; [`Stream`] puts sections into packets with
//! continuity counters, and lets a section begin in the middle of one. Headers, the CRC_32 and packets are
//! those of `section_writer`. Nothing here reads a stream. Each function returns, whatever it is given: what
//! can't be written is [`Unbuilt`].
#![tactic(auto)]

mod sections;
mod streams;
mod unbuilt;

pub use crate::sections::{Announced, DATA_PID, DOCUMENT, Entry, MAP_PID, Sent};
pub use crate::streams::Stream;
pub use crate::unbuilt::Unbuilt;
