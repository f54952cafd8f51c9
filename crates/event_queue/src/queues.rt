//! The queue.

ghost use Rattle.std.specs.Prelude.{◌≡◌, ◌<◌, IsTrue, ◌↔◌, [], drop, length};
ghost use Rattle.event_queue.specs.Queues.{first_of, most_events, with_posted};

use crate::events::Event;
use arrayvec::ArrayVec;
use std::marker::Model;

/// The most events that wait; this project's own limit.
pub const EVENT_LIMIT: usize = 256;

/// The events that wait for their dispatch. Contracts see the list of them, the one that waits
/// longest in front; it has at most 256.
#[derive(Drop)]
pub struct Queue {
    events: ArrayVec<Event, EVENT_LIMIT>,
}

impl Model for Queue {
    ghost use Rattle.std.specs.Prelude.{◌≤◌, List, length};
    ghost use Rattle.event_queue.specs.declared.events.Event.{Event as TheEvent};
    ghost use Rattle.event_queue.specs.Queues.{most_events};

    ghost Value = { List TheEvent };

    ghost view = { λ queue. queue.events.items };

    ghost invariant = { λ queue. length queue.events.items ≤ most_events };
}

impl Queue {
    /// A queue in which nothing waits.
    pub fn new() -> Queue
        ensures { result ≡ [] }
    {
        Queue {
            events: ArrayVec::new(),
        }
    }

    /// Puts an event behind those that wait, and answers whether it did: where 256 wait, it is lost.
    pub fn post(&mut self, event: Event) -> bool
        ensures posted { IsTrue result ↔ (length self.old < most_events) }
        ensures queue { self.new ≡ with_posted event self.old }
    {
        self.events.try_push(event).is_ok()
    }

    /// Takes the event that waits longest, and None exactly where none waits.
    pub fn take(&mut self) -> Option<Event>
        ensures event { result ≡ first_of self.old }
        ensures queue { self.new ≡ drop 1 self.old }
    {
        if self.events.is_empty() {
            None
        } else {
            Some(self.events.remove(0))
        }
    }

    /// Drops all events.
    pub fn clear(&mut self)
        ensures { self.new ≡ [] }
    {
        self.events.clear();
    }
}
