//! The sections of several PIDs of a transport stream, put together side by side (ISO/IEC 13818-1,
//! 2.4.3 and 2.4.4).
//!
//! [`Demultiplexer`] has an assembler for each PID that is wanted and on which packets came. Its
//! contract says, PID by PID, for which packets it stands, those since the PID was wanted without a
//! break, and which of their sections were given; a PID that isn't wanted any more loses what was
//! begun. The laws say that there is room for each wanted PID, and which packets of all that were
//! handed in are those.
#![tactic(auto)]

mod demultiplexer;
mod laws;

pub use crate::demultiplexer::Demultiplexer;
pub use crate::laws::{law_of_packets, law_of_room, law_of_same_lists};
