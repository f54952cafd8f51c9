//! Sections and packets as a sender writes them (ISO/IEC 13818-1, 2.4.3 and 2.4.4).
//!
//! [`section_of`] writes a section in the long form with its CRC_32, which is intact. [`push_section`] appends a section
//! in packets of its own on any PID, and tells the continuity_counter with which the PID goes on: a reader of the PID gets
//! just the sections that were sent on it, and other PIDs carry what they did. [`push_packet`] appends one packet with a
//! payload that the caller lays out. What a stream carries is said in the words of the crates that read it, `ts_packets`
//! and `ts_sections`.
#![tactic(auto)]

mod heads;
mod laws;
mod packets;
mod sections;

pub use crate::heads::SectionHead;
pub use crate::laws::{law_of_carried_sections, law_of_written_sections, law_of_written_streams};
pub use crate::packets::{push_packet, push_section};
pub use crate::sections::section_of;
