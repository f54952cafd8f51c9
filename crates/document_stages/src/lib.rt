//! What the handlers and default actions of a document act on.
//!
//! A [`Stage`] has the parts of a document that its scripts see: the nodes, their styles, which
//! elements have the focus and are active, its event items, and the events that wait. It is lent what
//! belongs to the receiver: the registers, the persistent area and the random words, with the timers.
//! `specs/Acting.antt` has a row for each name that scripts read and write of these parts, and says
//! what posts, timers, event items, moves of the focus and default actions of keys do to them. A
//! [`ScriptHost`] is a stage with the modules of the service, which scripts lock and unlock: it is the
//! host of the scripts, and `specs/Hosting.antt` has a row for each name that they call.
#![tactic(auto)]

mod event_lines;
mod script_hosts;
mod stages;

pub use crate::script_hosts::ScriptHost;
pub use crate::stages::{NO_FOCUS, Stage};
