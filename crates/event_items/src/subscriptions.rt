//! The items of a document with which of them are subscribed, and what they fired for.

ghost use Rattle.std.specs.Prelude.{◌≡◌, ◌<◌, ◌≤◌, ◌++◌, ◌∷◌, [], IfOk, OnErr, OnOk, codes, false, if◌then◌else◌, length, map, take, option_copied, slice_get, slice_set};
ghost use Rattle.std.specs.Option.{option_map_or};
ghost use Rattle.event_items.specs.Subscriptions.{data_event_items, first_items, fires_for_data_event, fires_for_message, fires_for_button, is_subscribed, fires_for_module, most_data_event_items, starts_subscribed as spec_starts_subscribed, with_firing, with_subscribed};

use crate::items::{EventItem, event_items, is_event_item};
use bml_bytes::{NoMemory, Text};
use dom_tree::{NodeId, Tree};
use event_messages::{Fired, Message};
use event_queue::ItemKind;
use multipart_entities::Path;
use std::alloc::Global;
use std::marker::Model;

/// So many items fire for a data event at most; this project's own limit.
const MOST_DATA_EVENT_ITEMS: usize = 256;

/// The event items of a document as they stood in it when it was read, with which of them are
/// subscribed, and what they fired for. Contracts see it as `ItemsState`.
#[derive(Drop)]
pub struct Items {
    items: Vec<EventItem>,
    subscribed: Vec<bool>,
    fired: Fired,
}

impl Model for Items {
    ghost use Rattle.event_items.specs.Subscriptions.{ItemsState};

    ghost Value = { ItemsState };

    ghost view = { λ s. record {
      items = s.items.items;
      subscribed = s.subscribed.items;
      fired = s.fired;
    } };
}

impl Items {
    /// The items of a document at a path, before anything fired. Each node is looked at once for what
    /// it asks, and once for its subscription.
    pub fn new(alloc: Global, base: &Path, tree: &Tree) -> Result<Items, NoMemory>
        ensures { IfOk result (λ items. items ≡ first_items base.now tree.now) }
    {
        let items = event_items(alloc, base, tree)?;
        let subscribed = subscribed_nodes(alloc, tree)?;
        Ok(Items {
            items,
            subscribed,
            fired: Fired::new(alloc),
        })
    }

    /// How many items there are.
    pub fn count(&self) -> usize
        ensures { result ≡ length self.now.items }
    {
        self.items.len()
    }

    /// The item at a place in document order; None exactly past the last.
    pub fn get(&self, place: usize) -> Option<&EventItem>
        ensures { option_copied result ≡ slice_get self.now.items place }
    {
        self.items.get(place)
    }

    /// Whether a node is an item that is subscribed.
    pub fn is_subscribed(&self, node: NodeId) -> bool
        ensures { result ≡ is_subscribed node.0 self.now }
    {
        match self.subscribed.get(node.0 as usize) {
            Some(subscribed) => *subscribed,
            None => false,
        }
    }

    /// Subscribes the item that a node is, or ends its subscription: then its firings are forgotten.
    /// This takes no memory.
    pub fn subscribe(&mut self, node: NodeId, subscribed: bool)
        ensures { self.new ≡ with_subscribed node.0 subscribed self.old }
    {
        set_subscribed(&mut self.subscribed, node, subscribed);
        if !subscribed {
            self.fired.forget(node.0);
        }
    }

    /// Whether an item fires for a message of a component.
    pub fn fires_for_message(&self, component: u8, message: &Message, item: &EventItem) -> bool
        ensures { result ≡ fires_for_message component message.now self.now item.now }
    {
        self.is_subscribed(item.node())
            && item.matches_message(component, message)
            && self.fired.would_fire(item.node().0, message)
    }

    /// Notes that an item fired for a message.
    pub fn note(&mut self, item: NodeId, message: &Message) -> Result<(), NoMemory>
        ensures noted { OnOk result (self.new ≡ with_firing item.0 message.now self.old) }
        ensures same { OnErr result (self.new ≡ self.old) }
    {
        self.fired.note(item.0, message)
    }

    /// Whether an item of this kind fires for a module of a component.
    pub fn fires_for_module(
        &self,
        kind: ItemKind,
        component: u8,
        module: u16,
        item: &EventItem,
    ) -> bool
        ensures { result ≡ fires_for_module kind component «module» self.now item.now }
    {
        self.is_subscribed(item.node()) && item.matches_module(kind, component, module)
    }

    /// Whether an item fires for the data button.
    pub fn fires_for_button(&self, item: &EventItem) -> bool
        ensures { result ≡ fires_for_button self.now item.now }
    {
        self.is_subscribed(item.node()) && item.is_kind(ItemKind::DataButtonPressed)
    }

    /// Whether an item fires for a data event.
    pub fn fires_for_data_event(&self, item: &EventItem) -> bool
        ensures { result ≡ fires_for_data_event self.now item.now }
    {
        self.is_subscribed(item.node()) && item.is_kind(ItemKind::DataEventChanged)
    }

    /// The items that fire for a data event now: the first 256 in document order.
    pub fn data_event_items(&self, alloc: Global) -> Result<Vec<NodeId>, NoMemory>
        ensures { IfOk result (λ nodes. map (λ node. node.0) nodes.items
            ≡ data_event_items self.now) }
    {
        let mut nodes = Vec::new(alloc);
        'items: for item in &self.items {
            self.push_data_event_item(item, &mut nodes)?;
        }
        Ok(nodes)
    }

    // Appends the node of an item that fires for a data event, where there are fewer than 256.
    fn push_data_event_item(
        &self,
        item: &EventItem,
        nodes: &mut Vec<NodeId>,
    ) -> Result<(), NoMemory>
        requires { length nodes.old.items ≤ most_data_event_items }
        ensures { OnOk result (map (λ node. node.0) nodes.new.items ≡ take most_data_event_items
            (map (λ node. node.0) nodes.old.items
            ++ (if fires_for_data_event self.now item.now then item.now.node ∷ [] else []))) }
    {
        if nodes.len() == MOST_DATA_EVENT_ITEMS {
            return Ok(());
        }
        if !self.fires_for_data_event(item) {
            return Ok(());
        }
        nodes.push(item.node())?;
        Ok(())
    }
}

// Notes whether the item that a node is is subscribed.
fn set_subscribed(nodes: &mut Vec<bool>, node: NodeId, subscribed: bool)
    ensures { nodes.new.items ≡ slice_set nodes.old.items node.0 subscribed }
{
    if let Some(standing) = nodes.get_mut(node.0 as usize) {
        *standing = subscribed;
    }
}

// For each node of a document whether it is an item that is subscribed at first.
fn subscribed_nodes(alloc: Global, tree: &Tree) -> Result<Vec<bool>, NoMemory>
    ensures { IfOk result (λ nodes. nodes.items ≡ map spec_starts_subscribed tree.now) }
{
    let name = Text::of_bytes(alloc, b"subscribe")?;
    let mut subscribed = Vec::new(alloc);
    'nodes: for number in 0..tree.node_count() {
        let starts = starts_subscribed(tree, NodeId(number), &name);
        subscribed.push(starts)?;
    }
    Ok(subscribed)
}

// Whether a node is an item that is subscribed at first.
fn starts_subscribed(tree: &Tree, node: NodeId, name: &Text) -> bool
    requires node { node.0 < length tree.now }
    requires name { name.now ≡ codes "subscribe" }
    ensures { result ≡ option_map_or spec_starts_subscribed (slice_get tree.now node.0) false }
{
    is_event_item(tree, node)
        && match tree.attribute(node, name) {
            Some(text) => text.is_word("subscribe"),
            None => false,
        }
}
