//! A document that acts: its scripts run, and its events are handled.
//!
//! [`ActingDocument::begin`] runs the scripts of a document that was read, and posts its first
//! events (`specs/Beginnings.antt`); [`ActingDocument::handle`] does what the dispatch of an event
//! does (`specs/Handling.antt`), and [`ActingDocument::tell`] posts the events of what the document is
//! told: keys, messages, changes in modules, and moments (`specs/Notices.antt`). What the run of a
//! script comes to is said by `specs/Runs.antt`. Contracts see what is kept of a document, and
//! say what becomes of each document for which it stands (`specs/devices/Kept.antt`,
//! `specs/devices/Doings.antt`).
#![tactic(auto)]

mod documents;
mod handlers;
mod notices;
mod stop_lines;

pub use crate::documents::ActingDocument;
pub use crate::notices::Notice;
