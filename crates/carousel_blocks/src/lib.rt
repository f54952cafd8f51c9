//! One data carousel: the modules of the DII in force, with the blocks that came for them.
//!
//! A carousel stands for the messages that came, DIIs and DDBs in their order. Which DII is in force, which blocks
//! count, and which modules are held with which bytes, is said of that list of messages in `specs/`; each call that
//! changes a carousel says that it then stands for the list with the new message behind it, and each answer is that
//! of the list. Memory is taken for a module with its first block, and given back when its entry changes or goes; a
//! block costs its copy and a look-up. `Carousel::take` also tells what each section changed: which modules came, went
//! or changed, and which are held or skipped from then on. `Carousel::take_back` takes the
//! last block of a module back. `Carousel::data_event_id` and `data_event_between` tell data events.
#![tactic(auto)]

mod buffer;
mod carousel;
mod changes;
mod laws;
mod modules;
mod put;
mod standing;

pub use crate::carousel::Carousel;
pub use crate::changes::{Change, ChangeLine, data_event_between};
pub use crate::laws::{
    law_of_block_change, law_of_block_counts, law_of_block_order, law_of_change_order,
    law_of_completed_modules, law_of_counting, law_of_entries, law_of_first_blocks,
    law_of_held_modules, law_of_held_sizes, law_of_messages, law_of_new_entries, law_of_no_change,
    law_of_same_modules, law_of_transactions,
};
pub use crate::put::Put;
pub use crate::standing::{SkipCause, Standing};
