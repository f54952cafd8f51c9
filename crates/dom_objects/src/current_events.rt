//! The current event.

ghost use Rattle.std.specs.Prelude.{◌≡◌, None, option_copied};
ghost use Rattle.dom_objects.specs.Reads.{is_seen as spec_is_seen, seen_event};

use event_queue::{Event, NodeNo};

/// The event whose handler runs, and the node that it goes to. There is none in the scripts of a
/// document and in what a timer calls. That of a data event isn't seen by scripts.
#[derive(Drop)]
pub struct CurrentEvent {
    pub event: Option<Event>,
    pub target: NodeNo,
}

impl CurrentEvent {
    /// Outside of handlers there is no current event.
    pub fn none() -> CurrentEvent
        ensures { result ≡ record { event = None; target = 0 } }
    {
        CurrentEvent {
            event: None,
            target: 0,
        }
    }

    /// The event that scripts see as the current one: a data event's handlers have none.
    pub fn seen(&self) -> Option<&Event>
        ensures { option_copied result ≡ seen_event self.now.event }
    {
        match &self.event {
            Some(event) => { if is_seen(event) { Some(event) } else { None } }
            None => None,
        }
    }
}

fn is_seen(event: &Event) -> bool
    ensures { result ≡ spec_is_seen event.now }
{
    !matches!(event, Event::DataEvent(_))
}
