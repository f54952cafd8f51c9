//! Events.

ghost use Rattle.std.specs.Prelude.{◌≡◌};
ghost use Rattle.event_queue.specs.Events.{name_of, target_of};

use crate::item_kinds::ItemKind;
use event_messages::Message;

/// The number of a node of a document.
pub type NodeNo = u32;

/// An event: that a document was loaded or ends, what became of the focus, that an element was
/// clicked, what was done with a key, by its number (after the intrinsic events of BML, ARIB
/// STD-B24 volume 2), that a timer fired, by its number, or what an event item is about, by the node
/// of the item: an event message of a component, a change of a module, by its status, a module whose
/// lock got its bytes, the data button, or a data event. `Default` is the default action of a key.
/// `Unload` and `DataEvent` are never posted: their handlers run as their document ends.
#[derive(Drop)]
pub enum Event {
    Load,
    Unload,
    Focus(NodeNo),
    Blur(NodeNo),
    Click(NodeNo),
    KeyDown(u8),
    KeyUp(u8),
    Default(u8),
    Timer(u32),
    Fired {
        item: NodeNo,
        component: u8,
        message: Message,
    },
    Updated {
        item: NodeNo,
        status: u8,
    },
    Locked {
        item: NodeNo,
        status: u8,
    },
    Button(NodeNo),
    DataEvent(NodeNo),
}

impl Event {
    /// Its name, as scripts read it and as lines print it.
    pub fn name(&self) -> &'static str
        ensures { result.now ≡ name_of self.now }
    {
        match self {
            Event::Load => "load",
            Event::Unload => "unload",
            Event::Focus(_) => "focus",
            Event::Blur(_) => "blur",
            Event::Click(_) => "click",
            Event::KeyDown(_) => "keydown",
            Event::KeyUp(_) => "keyup",
            Event::Default(_) => "default",
            Event::Timer(_) => "timer",
            Event::Fired { .. } => ItemKind::EventMessageFired.name(),
            Event::Updated { .. } => ItemKind::ModuleUpdated.name(),
            Event::Locked { .. } => ItemKind::ModuleLocked.name(),
            Event::Button(_) => ItemKind::DataButtonPressed.name(),
            Event::DataEvent(_) => ItemKind::DataEventChanged.name(),
        }
    }

    /// The node that it names, where it names one. Those of keys go to the focus at their dispatch,
    /// and those of a document to its body.
    pub fn node(&self) -> Option<NodeNo>
        ensures { result ≡ target_of self.now }
    {
        match self {
            Event::Focus(node) | Event::Blur(node) | Event::Click(node) => Some(*node),
            Event::Fired { item, .. }
            | Event::Updated { item, .. }
            | Event::Locked { item, .. }
            | Event::Button(item)
            | Event::DataEvent(item) => Some(*item),
            _ => None,
        }
    }
}

impl Default for Event {
    ghost use Rattle.std.specs.Prelude.{◌≡◌};
    ghost use Rattle.event_queue.specs.declared.events.Event.TheVariants.{Load};

    ghost is_default = { λ event. event ≡ Load };

    /// What stands in the places of a queue that hold no event yet.
    fn default() -> Event {
        Event::Load
    }
}
