//! What holds of pages, whatever comes to them: laws above the page.
//!
//! A page is sound where what it keeps names what is there: nodes of its document, objects of its
//! heap, functions of its programs; and where its timers and the document that is wanted fit the one
//! that is there, and few locks stand (`specs/Soundness.antt`). [`law_of_soundness`] says that it is
//! so at first, and stays so, and [`law_of_sound_receivers`] that the page of a receiver is sound
//! whatever came to it. [`law_of_turns`] says how far a turn goes (`specs/Turns.antt`), and
//! [`law_of_clocks`] that it leaves the clock, and of the modules changes the locks alone.
//! [`law_of_repeated_messages`] says that a message that is repeated fires no item again.
//! [`law_of_time`] says that no timer is overdue (`specs/Times.antt`), and [`law_of_timer_events`] that
//! of each timer so many events are out as wait (`specs/Counts.antt`).
//!
//! All that a script, a handler or an event has of a node is its number in the one tree of the
//! document ([`law_of_reached_nodes`], `specs/Reached.antt`). What is written through one reference is
//! what is read through each other, also by handlers that run later ([`law_of_written_nodes`],
//! `specs/Nodes.antt`, `specs/Moments.antt`).
#![tactic(auto)]

mod counts;
mod laws;
mod nodes;

pub use crate::counts::law_of_timer_events;
pub use crate::laws::{
    law_of_clocks, law_of_repeated_messages, law_of_sound_receivers, law_of_soundness, law_of_time,
    law_of_turns,
};
pub use crate::nodes::{law_of_moments, law_of_reached_nodes, law_of_written_nodes};
