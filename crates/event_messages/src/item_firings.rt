//! Which version of which message one item fired for last.

ghost use Rattle.std.specs.Prelude.{◌≡◌, [], OnOk, OnErr};
ghost use Rattle.std.specs.Map.{lookup};
ghost use Rattle.event_messages.specs.ItemFirings.{fires_again, is_key, with_firing};

use crate::messages::Message;
use bml_bytes::NoMemory;
use indexmap::IndexMap;
use std::alloc::Global;
use std::marker::Model;

// What messages have in common that differ by their versions alone.
#[derive(Clone, Copy, Drop, PartialEq, Eq, Hash)]
struct MessageKey {
    group: u16,
    id: u8,
}

/// The firings of one item: for each group and id the version of the last message that it fired for, since its firings
/// were forgotten last. A message that is repeated doesn't fire again (this project's own rule).
#[derive(Drop)]
pub struct Firings {
    by_message: IndexMap<MessageKey, u8>,
}

impl Model for Firings {
    ghost use Rattle.std.specs.Prelude.{List, ℕ};
    ghost use Rattle.event_messages.specs.declared.item_firings.MessageKey.{MessageKey};

    ghost Value = { List (MessageKey × ℕ) };

    ghost view = { λ firings. firings.by_message.entries };
}

impl Firings {
    /// An item that has not fired yet. This takes no memory.
    pub fn new(alloc: Global) -> Firings
        ensures { result ≡ [] }
    {
        Firings {
            by_message: IndexMap::new(alloc),
        }
    }

    /// Whether the item fires for a message that it matches: its last firing for the message's group and id had another
    /// version, or there is none. This takes no memory.
    pub fn would_fire(&self, message: &Message) -> bool
        ensures { result ≡ fires_again message.now self.now }
    {
        match self.last(message.group, message.id) {
            None => true,
            Some(version) => version != message.version,
        }
    }

    // The version of the message of this group and id that the item fired for last.
    fn last(&self, group: u16, id: u8) -> Option<u8>
        ensures { result ≡ lookup (is_key group id) self.now }
    {
        self.by_message.get(&MessageKey { group, id }).copied()
    }

    /// Notes that the item fires for a message. Where memory runs out, nothing is noted.
    pub fn note(&mut self, message: &Message) -> Result<(), NoMemory>
        ensures ok { OnOk result (self.new ≡ with_firing message.now self.old) }
        ensures err { OnErr result (self.new ≡ self.old) }
    {
        let key = MessageKey {
            group: message.group,
            id: message.id,
        };
        self.by_message.insert(key, message.version)?;
        Ok(())
    }

    /// Forgets all firings of the item. This takes no memory.
    pub fn forget(&mut self)
        ensures { self.new ≡ [] }
    {
        self.by_message.clear();
    }
}
