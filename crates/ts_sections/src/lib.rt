//! Sections of an MPEG-2 transport stream (ISO/IEC 13818-1, 2.4.4), put together from the packets
//! of one PID.
//!
//! An [`Assembler`] gives, packet by packet, exactly the sections that the list of all packets
//! handed in carries, in their order, each as soon as its last byte is there. The laws say that
//! more packets only add sections at the end, how sections lie in a piece, and what is read of
//! packets and sections as a sender lays them out.
#![tactic(auto)]

mod assembler;
mod crc;
mod laws;
mod piece;
mod remainder;
mod whole;

pub use assembler::Assembler;
pub use crc::{crc_behind_its_message, crc_of, is_intact, remainder_by_register};
pub use laws::{
    packets_in_one_run, pieces_behind_their_marks, section_before_stuffing,
    sections_lie_end_to_end, sections_only_grow,
};
pub use whole::sections_of;
