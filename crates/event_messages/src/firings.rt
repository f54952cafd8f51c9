//! The firings of all items of a document.

ghost use Rattle.std.specs.Prelude.{◌≡◌, ◌∷◌, ◌++◌, [], List, OnOk, OnErr};
ghost use Rattle.event_messages.specs.Firings.{Happening, fires, firing_of};
ghost use Rattle.event_messages.specs.Kept.{StandsFor, item_fires, with_forgotten, with_noted};

use crate::item_firings::Firings;
use crate::messages::Message;
use bml_bytes::NoMemory;
use indexmap::IndexMap;
use std::alloc::Global;
use std::marker::Model;

/// The firings of the items of a document: for each item, the version of the last message of each group and id that
/// it fired for since its firings were forgotten last. It stands for the list of all that happened to them.
#[derive(Drop)]
pub struct Fired {
    items: IndexMap<u32, Firings>,
}

impl Model for Fired {
    ghost use Rattle.std.specs.Prelude.{List, ℕ};
    ghost use Rattle.event_messages.specs.declared.item_firings.MessageKey.{MessageKey};

    ghost Value = { List (ℕ × List (MessageKey × ℕ)) };

    ghost view = { λ fired. fired.items.entries };
}

impl Fired {
    /// No item has fired yet. This takes no memory.
    pub fn new(alloc: Global) -> Fired
        ensures none { result ≡ [] }
        ensures stands { StandsFor result [] }
    {
        Fired {
            items: IndexMap::new(alloc),
        }
    }

    /// Whether an item that a message matches fires for it: its last firing for the message's group and id had another
    /// version, or there is none since its firings were forgotten. This takes no memory.
    pub fn would_fire(&self, item: u32, message: &Message) -> bool
        ensures kept { result ≡ item_fires item message.now self.now }
        ensures fires { (happenings : List Happening) → StandsFor self.now happenings
            → result ≡ fires item message.now happenings }
    {
        match self.items.get(&item) {
            None => true,
            Some(firings) => firings.would_fire(message),
        }
    }

    /// Notes that an item fires for a message. Where memory runs out, nothing is noted.
    pub fn note(&mut self, item: u32, message: &Message) -> Result<(), NoMemory>
        ensures noted { OnOk result (self.new ≡ with_noted item message.now self.old) }
        ensures ok { OnOk result ((happenings : List Happening) → StandsFor self.old happenings
            → StandsFor self.new (happenings ++ firing_of item message.now ∷ [])) }
        ensures err { OnErr result (self.new ≡ self.old) }
    {
        if let Some(firings) = self.items.get_mut(&item) {
            return firings.note(message);
        }
        let mut firings = Firings::new(*self.items.allocator());
        firings.note(message)?;
        self.items.insert(item, firings)?;
        Ok(())
    }

    /// Forgets all firings of an item. This takes no memory.
    pub fn forget(&mut self, item: u32)
        ensures forgotten { self.new ≡ with_forgotten item self.old }
        ensures stands { (happenings : List Happening) → StandsFor self.old happenings
            → StandsFor self.new (happenings ++ Happening.Forgets item ∷ []) }
    {
        if let Some(firings) = self.items.get_mut(&item) {
            firings.forget();
        }
    }
}
