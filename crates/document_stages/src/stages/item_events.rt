//! What is posted for the event items of a document.

ghost use Rattle.std.specs.Prelude.{◌≡◌, ◌==◌, if◌then◌else◌, IfOk, OnOk, map, slice_get};
ghost use Rattle.std.specs.Option.{option_map_or};
ghost use Rattle.event_items.specs.Subscriptions.{data_event_items};
ghost use Rattle.focus_keys.specs.KeyTables.{key_number};
ghost use Rattle.focus_keys.specs.declared.keys.Key.TheVariants as keys;
ghost use Rattle.document_stages.specs.Acting.{button_posts, button_post, change_posts, each_item, with_item_fired, lock_post, lock_posts, message_posts, message_post, module_post, update_posts};

use crate::stages::Stage;
use bml_bytes::NoMemory;
use carousel_blocks::Change;
use dom_tree::NodeId;
use event_messages::Message;
use event_queue::{Event, ItemKind};
use focus_keys::Key;

impl Stage {
    /// A message of a component comes: each item that fires for it posts its event, in document
    /// order, and the firing is noted where the event is not lost.
    #[tactic(auto, unfolding(crate::specs::Acting::message_posts))]
    pub fn post_message(&mut self, component: u8, message: &Message) -> Result<(), NoMemory>
        ensures posted { OnOk result
            (self.new.acting ≡ message_posts component message.now self.old.acting) }
        ensures worked { self.new.worked ≡ self.old.worked }
    {
        let count = self.items.count();
        'items: for place in 0..count {
            self.tell_message(place, component, message)?;
        }
        Ok(())
    }

    // A message of a component comes to the item at a place.
    fn tell_message(
        &mut self,
        place: usize,
        component: u8,
        message: &Message,
    ) -> Result<(), NoMemory>
        ensures told { OnOk result (self.new.acting
            ≡ option_map_or (λ item. message_post component message.now item self.old.acting)
            (slice_get self.old.acting.items.items place) self.old.acting) }
        ensures worked { self.new.worked ≡ self.old.worked }
    {
        match self.items.get(place) {
            Some(item) if self.items.fires_for_message(component, message, item) => {
                let node = item.node();
                self.fire(node, component, message)
            }
            _ => Ok(()),
        }
    }

    // The item that a node is fires for a message of a component.
    fn fire(&mut self, node: NodeId, component: u8, message: &Message) -> Result<(), NoMemory>
        ensures fired { OnOk result
            (self.new.acting ≡ with_item_fired component message.now node.0 self.old.acting) }
        ensures worked { self.new.worked ≡ self.old.worked }
    {
        let posted = self.post_or_lose(Event::Fired {
            item: node.0,
            component,
            message: message.share()?,
        })?;
        if posted {
            self.items.note(node, message)?;
        }
        Ok(())
    }

    /// A module of a component changed: each item that fires for it posts its event, in document
    /// order; and then each item that is told that a lock got the module's bytes, where one did.
    #[tactic(auto, unfolding(crate::specs::Acting::change_posts))]
    pub fn post_change(&mut self, component: u8, change: &Change) -> Result<(), NoMemory>
        ensures posted { OnOk result
            (self.new.acting ≡ change_posts component change.now self.old.acting) }
        ensures worked { self.new.worked ≡ self.old.worked }
    {
        self.post_updated(component, change.module, change.status)?;
        if change.locked {
            self.post_locked(component, change.module)?;
        }
        Ok(())
    }

    // Each item that fires for a module posts its event, with the status of the change, where it has
    // one.
    fn post_updated(
        &mut self,
        component: u8,
        module: u16,
        status: Option<u8>,
    ) -> Result<(), NoMemory>
        ensures posted { OnOk result (self.new.acting
            ≡ update_posts component «module» status self.old.acting) }
        ensures worked { self.new.worked ≡ self.old.worked }
    {
        match status {
            Some(status) => self.tell_all_updated(component, module, status),
            None => Ok(()),
        }
    }

    // Each item that fires for a module posts its event, with this status.
    fn tell_all_updated(&mut self, component: u8, module: u16, status: u8) -> Result<(), NoMemory>
        ensures told { OnOk result (self.new.acting
            ≡ each_item (module_post component «module» status) self.old.acting) }
        ensures worked { self.new.worked ≡ self.old.worked }
    {
        let count = self.items.count();
        'items: for place in 0..count {
            self.tell_updated(place, component, module, status)?;
        }
        Ok(())
    }

    // The item at a place posts its event, where it fires for a module.
    fn tell_updated(
        &mut self,
        place: usize,
        component: u8,
        module: u16,
        status: u8,
    ) -> Result<(), NoMemory>
        ensures told { OnOk result (self.new.acting
            ≡ option_map_or (λ item. module_post component «module» status item self.old.acting)
            (slice_get self.old.acting.items.items place) self.old.acting) }
        ensures worked { self.new.worked ≡ self.old.worked }
    {
        let kind = ItemKind::ModuleUpdated;
        match self.items.get(place) {
            Some(item) if self.items.fires_for_module(kind, component, module, item) => {
                let node = item.node();
                self.post(Event::Updated {
                    item: node.0,
                    status,
                })
            }
            _ => Ok(()),
        }
    }

    /// A lock keeps a module of a component from now on: each item that is told of it posts its
    /// event, in document order.
    #[tactic(auto, unfolding(crate::specs::Acting::lock_posts))]
    pub fn post_locked(&mut self, component: u8, module: u16) -> Result<(), NoMemory>
        ensures posted { OnOk result
            (self.new.acting ≡ lock_posts component «module» self.old.acting) }
        ensures worked { self.new.worked ≡ self.old.worked }
    {
        let count = self.items.count();
        'items: for place in 0..count {
            self.tell_locked(place, component, module)?;
        }
        Ok(())
    }

    // The item at a place posts its event, where it is told that a module is locked.
    fn tell_locked(&mut self, place: usize, component: u8, module: u16) -> Result<(), NoMemory>
        ensures told { OnOk result (self.new.acting
            ≡ option_map_or (λ item. lock_post component «module» item self.old.acting)
            (slice_get self.old.acting.items.items place) self.old.acting) }
        ensures worked { self.new.worked ≡ self.old.worked }
    {
        let kind = ItemKind::ModuleLocked;
        match self.items.get(place) {
            Some(item) if self.items.fires_for_module(kind, component, module, item) => {
                let node = item.node();
                self.post(Event::Locked {
                    item: node.0,
                    status: 0,
                })
            }
            _ => Ok(()),
        }
    }

    // A key is pressed: where it is the data button, the items that fire for it post their events.
    pub(super) fn tell_button(&mut self, key: u8) -> Result<(), NoMemory>
        ensures told { OnOk result (self.new.acting
            ≡ (if key == key_number keys.Data then button_posts self.old.acting
            else self.old.acting)) }
        ensures worked { self.new.worked ≡ self.old.worked }
    {
        if key != Key::Data.number() {
            return Ok(());
        }
        self.tell_all_button()
    }

    /// The items that fire for a data event now: the first 256 in document order.
    pub fn data_event_items(&self) -> Result<Vec<NodeId>, NoMemory>
        ensures { IfOk result (λ nodes. map (λ node. node.0) nodes.items
            ≡ data_event_items self.now.acting.items) }
    {
        self.items.data_event_items(self.alloc)
    }

    // Each item that fires for the data button posts its event, in document order.
    #[tactic(auto, unfolding(crate::specs::Acting::button_posts))]
    fn tell_all_button(&mut self) -> Result<(), NoMemory>
        ensures told { OnOk result (self.new.acting ≡ button_posts self.old.acting) }
        ensures worked { self.new.worked ≡ self.old.worked }
    {
        let count = self.items.count();
        'items: for place in 0..count {
            self.tell_pressed(place)?;
        }
        Ok(())
    }

    // The item at a place posts its event, where it fires for the data button.
    fn tell_pressed(&mut self, place: usize) -> Result<(), NoMemory>
        ensures told { OnOk result (self.new.acting
            ≡ option_map_or (λ item. button_post item self.old.acting)
            (slice_get self.old.acting.items.items place) self.old.acting) }
        ensures worked { self.new.worked ≡ self.old.worked }
    {
        match self.items.get(place) {
            Some(item) if self.items.fires_for_button(item) => {
                let node = item.node();
                self.post(Event::Button(node.0))
            }
            _ => Ok(()),
        }
    }
}
