//! The document as scripts see it: what they read and write of its nodes, of the styles of its
//! elements and of the current event (after the DOM interfaces of BML, ARIB STD-B24 volume 2, in
//! this project's own profile).
//!
//! `specs/Reads.antt` is the table of what is read, a row for each name, and `specs/Writes.antt`
//! that of what a write changes: [`get_node`] gives just the value of the row, and [`set_node`]
//! makes just the change. What is called, and what the browser keeps, isn't here.
#![tactic(auto)]

mod current_events;
mod elements;
mod events;
mod reads;
mod styles;
mod texts;
mod walks;
mod writes;

pub use crate::current_events::CurrentEvent;
pub use crate::reads::get_node;
pub use crate::writes::set_node;
