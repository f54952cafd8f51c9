//! The modules of a service: the carousel of each component of its map, followed from section to section and from one
//! component map to the next.
//!
//! A [`Store`] stands for the components with the messages that came for each since it got its PID, and for all deliveries
//! of modules so far, in order. What one more section or another map changes, which number the delivery of a module has,
//! what is there under a path, and where the start document is, is said of these in `specs/`. Memory is taken for a
//! component when the map brings it, and for its numbers, half a megabyte, with its first section; both are given back
//! when it leaves the map or gets another PID; and for the parts of an entity when its module is held. A look-up takes none
//! and copies nothing. Whether a module is there is told by [`Store::presence`], and a [`ModuleCopy`] outlives the module
//! that it was made of. [`Store::data_event_id`] tells one data event of the service from the next. [`push_change_line`]
//! writes the line that tells of a change (`specs/Lines.antt`).
#![tactic(auto)]

mod copies;
mod entities;
mod laws;
mod lines;
mod numbers;
mod resources;
mod slot;
mod staging;
mod store;

pub use crate::copies::ModuleCopy;
pub use crate::laws::{
    law_of_component_messages, law_of_data_events, law_of_found_resources, law_of_start_paths,
    law_of_undelivered_modules,
};
pub use crate::lines::push_change_line;
pub use crate::resources::{Look, ModulePresence};
pub use crate::store::Store;
pub use carousel_blocks::{Change, ChangeLine, SkipCause, data_event_between};
