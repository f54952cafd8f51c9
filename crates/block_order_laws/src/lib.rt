//! The order of blocks never reaches a load.
//!
//! A receiver begins in the midst of a carousel, so the blocks of its modules come in an order that
//! nobody chose. Let no document be there yet, and none that can be loaded. Let one DII be in force,
//! and let two lists of sections bring the same blocks, in whatever order and however often. Then a
//! document is loaded after some section of both lists, or of neither. Where one is, it is the same
//! load: from the same path, of the same bytes, and with the same bytes for each of its needs. So
//! the same document is read, or it is refused for the same fault. Until then lines `module` are
//! printed, and nothing else. Where none is, the receiver is in the same state after both lists, but
//! for the packets and sections that came and the numbers of deliveries. [`law_of_first_loads`] says
//! so of the steps of a receiver, and by its contract each `Receiver` makes these steps.
//! `specs/FirstLoads.antt` has the words.
//!
//! Nothing is said of what comes after the first load: its scripts see which modules are there by
//! then.
#![tactic(auto)]

mod laws;

pub use crate::laws::law_of_first_loads;
