//! A page of a data broadcast: its documents, and what becomes of them.
//!
//! A page is a document that acts, or one that is wanted, with the time, and with what belongs to
//! the receiver: the registers, the persistent area and the random words, with the timers of the
//! document, and the modules of the service with the locks on them (`specs/State.antt`).
//! [`Page::turn`] makes dispatches, each of which handles a data event, which ends the document, or
//! loads the wanted document (`specs/Loading.antt`),
//! or lets the document that acts handle the event that waits longest: `specs/Dispatches.antt` says
//! which, and the crate `acting_documents` what a document does. A document that launches another
//! one ends, and that one is wanted. `specs/Inputs.antt` has what comes to a page beside its turns,
//! and what it shows. Which programs the scripts of a document are is told by a reader of programs.
//! It remembers the documents of its last loads, and doesn't read one again of which nothing has
//! come anew (`specs/Remembering.antt`).
//! A page keeps less than its state, and is lent the modules for its turns: what it stands for with
//! them is `specs/Standing.antt`, and [`law_of_posted_changes`] says that it goes on to stand for
//! it with modules that changed, where each change was posted.
#![tactic(auto)]

mod acts;
mod laws;
mod lines;
mod loading;
mod memory;
mod pages;
mod pending;

pub use crate::laws::{law_of_data_events, law_of_posted_changes};
pub use crate::pages::Page;
