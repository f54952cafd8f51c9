//! Packets of an MPEG-2 transport stream (ISO/IEC 13818-1, 2.4.3).
//!
//! [`Cutter`] cuts a stream that comes in pieces of any size into its packets, and gives exactly
//! those of the whole stream, whatever follows a piece. [`Packet`] is one of them, with the fields
//! of its header. Nothing here takes memory.
#![tactic(auto)]

mod buffer;
mod cutter;
mod laws;
mod packet;

pub use cutter::{Ahead, CAPACITY, Cut, Cutter};
pub use laws::{
    certain_whatever_follows, packets_are_computed, packets_are_unique, packets_fit,
    packets_laid_end_to_end,
};
pub use packet::{PACKET_LENGTH, Packet, SYNC_BYTE};
