//! Events, the queue in which they wait for their dispatch, and timers (after the event queue of BML, ARIB
//! STD-B24 volume 2; that 256 fit, and what is lost, is this project's own).
//!
//! `specs/Events.antt` has the events with their names, `specs/ItemKinds.antt` the kinds of event items
//! after which some are named, and `specs/Queues.antt` the queue as a list:
//! [`Queue::post`] puts an event behind those that wait, or leaves them where 256 wait, and
//! [`Queue::take`] takes the one that waits longest. `specs/Timers.antt` has the timers of scripts,
//! of which [`Timers::fire`] fires the first that is due. None of the calls takes memory.
#![tactic(auto)]

mod events;
mod item_kinds;
mod queues;
mod timers;

pub use crate::events::{Event, NodeNo};
pub use crate::item_kinds::ItemKind;
pub use crate::queues::{EVENT_LIMIT, Queue};
pub use crate::timers::{TIMER_LIMIT, Timers};
