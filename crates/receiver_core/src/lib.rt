//! The receiver: from what comes to it, packets of a stream, keys, time and wishes to see the
//! display, to what it prints.
//!
//! [`Receiver`] puts the sections of the wanted PIDs together, follows the tables of the service
//! that is asked for, acquires the modules of its data carousels, and reads its event messages
//! (ISO/IEC 13818-1, 13818-6; ARIB STD-B24, volume 3). What becomes of its documents is the page's
//! (volume 2), to which changes of modules and messages are posted: each intact section, each key
//! and each moment when timers are due is followed by a turn of it. Its contract names the whole
//! list of inputs: what it prints for them is `specs/Outputs`, whatever it keeps. Which scripts are
//! programs is told by a reader of programs that is right by their grammar.
//! [`law_of_outputs`] and [`law_of_receivers`] say what the layer above builds on: more inputs only
//! add pieces, and the pieces given so far are the first of those that the inputs come to. Time
//! passes millisecond by millisecond there; [`law_of_ticks`] says that it goes from due moment to
//! due moment, and [`law_of_passing_time`] that it may be handed in in parts.
#![tactic(auto)]

mod broadcast;
mod laws;
mod receiver;

pub use crate::broadcast::Input;
pub use crate::laws::{
    law_of_outputs, law_of_passing_time, law_of_receivers, law_of_ticks, law_of_wanted_sections,
};
pub use crate::receiver::Receiver;
