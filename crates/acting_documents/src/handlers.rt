//! The handlers of a document.

ghost use Rattle.std.specs.Prelude.{◌≡◌, IfOk, OnOk, map, option_and_then};
ghost use Rattle.document_load.specs.ScriptViews.{told_handler};
ghost use Rattle.acting_documents.specs.Documents.{handler_in};
ghost use Rattle.acting_documents.specs.Handling.{kind_of as spec_kind_of};
ghost use Rattle.acting_documents.specs.devices.Handlers.{Adds, IsIndexOf};

use bml_bytes::NoMemory;
use document_load::{Handler, HandlerKind};
use dom_tree::NodeId;
use event_queue::Event;
use indexmap::IndexMap;
use std::alloc::Global;
use std::marker::Model;

// A kind of handlers, and the node that has one.
#[derive(Clone, Copy, PartialEq, Eq, Hash)]
struct HandlerKey {
    node: NodeId,
    kind: HandlerKind,
}

/// The handlers of a document, with the places of their programs by node and kind. Contracts see
/// the list of the handlers.
#[derive(Drop)]
pub struct Handlers {
    handlers: Vec<Handler>,
    places: IndexMap<HandlerKey, u32>,
}

impl Model for Handlers {
    ghost use Rattle.std.specs.Prelude.{List, map};
    ghost use Rattle.document_load.specs.Scripts.{HandlerState};
    ghost use Rattle.document_load.specs.ScriptViews.{told_handler};
    ghost use Rattle.acting_documents.specs.devices.Handlers.{IsIndexOf};

    ghost Value = { List HandlerState };

    ghost view = { λ handlers. map told_handler handlers.handlers.items };

    ghost invariant = { λ handlers.
        IsIndexOf handlers.places.entries (map told_handler handlers.handlers.items) };
}

impl Handlers {
    /// The handlers of a document.
    pub fn new(alloc: Global, handlers: Vec<Handler>) -> Result<Handlers, NoMemory>
        ensures { IfOk result (λ made. made ≡ map told_handler handlers.items) }
    {
        let places = index_of(alloc, handlers.as_slice())?;
        Ok(Handlers { handlers, places })
    }

    /// The place of the program of a node's handler of an event, and None where the node has none.
    /// It costs one look-up by hash.
    pub fn program_of(&self, node: NodeId, event: &Event) -> Option<u32>
        ensures { result ≡ option_and_then (handler_in self.now node.0) (spec_kind_of event.now) }
    {
        let kind = kind_of(event)?;
        self.places.get(&HandlerKey { node, kind }).copied()
    }
}

// The kind of the handlers of an event; there is none for `default` and for timers.
fn kind_of(event: &Event) -> Option<HandlerKind>
    ensures { result ≡ spec_kind_of event.now }
{
    match event {
        Event::Load => Some(HandlerKind::Load),
        Event::Unload => Some(HandlerKind::Unload),
        Event::Focus(_) => Some(HandlerKind::Focus),
        Event::Blur(_) => Some(HandlerKind::Blur),
        Event::Click(_) => Some(HandlerKind::Click),
        Event::KeyDown(_) => Some(HandlerKind::KeyDown),
        Event::KeyUp(_) => Some(HandlerKind::KeyUp),
        Event::Fired { .. }
        | Event::Updated { .. }
        | Event::Locked { .. }
        | Event::Button(_)
        | Event::DataEvent(_) => Some(HandlerKind::Occur),
        Event::Default(_) | Event::Timer(_) => None,
    }
}

// The places of the programs of handlers, by node and kind.
fn index_of(alloc: Global, handlers: &[Handler]) -> Result<IndexMap<HandlerKey, u32>, NoMemory>
    ensures { IfOk result (λ places. IsIndexOf places.entries (map told_handler handlers.now)) }
{
    let mut places = IndexMap::new(alloc);
    'handlers: for handler in handlers {
        add_place(&mut places, handler)?;
    }
    Ok(places)
}

// Adds the place of a handler's program, where its node has none of its kind yet.
fn add_place(places: &mut IndexMap<HandlerKey, u32>, handler: &Handler) -> Result<(), NoMemory>
    ensures { OnOk result
        (Adds (told_handler handler.now) places.old.entries places.new.entries) }
{
    let key = HandlerKey {
        node: handler.node,
        kind: handler.kind,
    };
    if !places.contains_key(&key) {
        places.insert(key, handler.program)?;
    }
    Ok(())
}
