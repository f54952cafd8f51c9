//! The event items of a document.

ghost use Rattle.std.specs.Prelude.{◌≡◌, ◌<◌, ◌++◌, [], IfOk, OnOk, Some, false, length, option_and_then, option_copied, option_map, slice_get};
ghost use Rattle.std.specs.Option.{option_map_or};
ghost use Rattle.multipart_entities.specs.Paths.{path_of_text};
ghost use Rattle.event_queue.specs.ItemKinds.{kind_named};
ghost use Rattle.event_items.specs.EventItems.{event_items as spec_event_items, is_event_item as spec_is_event_item, item_at, item_of as spec_item_of, matches_message, matches_module, module_of as spec_module_of};

use crate::asked::{Asked, AskedComponent};
use crate::names::AttributeNames;
use bml_bytes::{NoMemory, Text};
use dom_tree::{NodeId, Tree};
use event_messages::Message;
use event_queue::ItemKind;
use multipart_entities::Path;
use std::alloc::Global;
use std::marker::Model;

/// An element `beitem`, by what its attributes say. Contracts see its parts.
#[derive(Drop)]
pub struct EventItem {
    node: NodeId,
    kind: Option<ItemKind>,
    component: AskedComponent,
    group: Asked,
    id: Asked,
    version: Asked,
    about: Option<(u8, u16)>,
}

impl Model for EventItem {
    ghost use Rattle.event_items.specs.EventItems.{EventItem};

    ghost Value = { EventItem };

    ghost view = { λ item. record {
      node = item.node.0;
      kind = item.kind;
      component = item.component;
      group = item.group;
      id = item.id;
      version = item.version;
      about = item.about;
    } };
}

impl EventItem {
    ghost use Rattle.event_items.specs.EventItems.{is_kind};

    /// Its node.
    pub fn node(&self) -> NodeId
        ensures { result.0 ≡ self.now.node }
    {
        self.node
    }

    /// Of which kind it is; one of no kind never fires.
    pub fn kind(&self) -> Option<ItemKind>
        ensures { result ≡ self.now.kind }
    {
        self.kind
    }

    /// Whether it matches a message of a component.
    pub fn matches_message(&self, component: u8, message: &Message) -> bool
        ensures { result ≡ matches_message component message.now self.now }
    {
        self.is_kind(ItemKind::EventMessageFired)
            && self.component.is_answered_by(component)
            && self.group.is_answered_by(u32::from(message.group))
            && self.id.is_answered_by_id(u32::from(message.id))
            && self.version.is_answered_by_id(u32::from(message.version))
    }

    /// Whether it is of this kind, and about this module of a component.
    pub fn matches_module(&self, kind: ItemKind, component: u8, module: u16) -> bool
        ensures { result ≡ matches_module kind component «module» self.now }
    {
        self.is_kind(kind)
            && match self.about {
                Some(about) => about.0 == component && about.1 == module,
                None => false,
            }
    }

    /// Whether it is of this kind.
    pub fn is_kind(&self, kind: ItemKind) -> bool
        ensures { result ≡ is_kind kind self.now }
    {
        match self.kind {
            Some(its) => its == kind,
            None => false,
        }
    }
}

/// The event items of a document at a path, in document order. Each node is looked at once.
pub fn event_items(alloc: Global, base: &Path, tree: &Tree) -> Result<Vec<EventItem>, NoMemory>
    ensures { IfOk result (λ items. items.items ≡ spec_event_items base.now tree.now) }
{
    let names = AttributeNames::new(alloc)?;
    let mut items = Vec::new(alloc);
    'nodes: for number in 0..tree.node_count() {
        push_item(alloc, base, tree, NodeId(number), &names, &mut items)?;
    }
    Ok(items)
}

// Appends the item that a node is, if it is one.
fn push_item(
    alloc: Global,
    base: &Path,
    tree: &Tree,
    node: NodeId,
    names: &AttributeNames,
    items: &mut Vec<EventItem>,
) -> Result<(), NoMemory>
    requires { node.0 < length tree.now }
    ensures { OnOk result (items.new.items ≡ items.old.items
        ++ option_map_or (item_at base.now node.0) (slice_get tree.now node.0) []) }
{
    if is_event_item(tree, node) {
        let item = item_of(alloc, base, tree, node, names)?;
        items.push(item)?;
    }
    Ok(())
}

// The item that a node is.
fn item_of(
    alloc: Global,
    base: &Path,
    tree: &Tree,
    node: NodeId,
    names: &AttributeNames,
) -> Result<EventItem, NoMemory>
    requires { node.0 < length tree.now }
    ensures { IfOk result (λ item. option_map (spec_item_of base.now node.0)
        (slice_get tree.now node.0) ≡ Some item) }
{
    let about = module_of(alloc, base, tree.attribute(node, &names.module_ref))?;
    Ok(EventItem {
        node,
        kind: kind_of(tree.attribute(node, &names.kind)),
        component: AskedComponent::by_value(tree.attribute(node, &names.message.component)),
        group: Asked::by_value(tree.attribute(node, &names.message.group)),
        id: Asked::by_value(tree.attribute(node, &names.message.id)),
        version: Asked::by_value(tree.attribute(node, &names.message.version)),
        about,
    })
}

/// Whether a node is an event item: an element `beitem`.
pub fn is_event_item(tree: &Tree, node: NodeId) -> bool
    requires { node.0 < length tree.now }
    ensures { result ≡ option_map_or spec_is_event_item (slice_get tree.now node.0) false }
{
    match tree.tag(node) {
        Some(tag) => tag.is_word("beitem"),
        None => false,
    }
}

fn kind_of(value: Option<&Text>) -> Option<ItemKind>
    ensures { result ≡ option_and_then kind_named (option_copied value.entry) }
{
    match value {
        Some(text) => ItemKind::of_name(text),
        None => None,
    }
}

// The component and the module of the path that a value is, seen from the document's.
fn module_of(
    alloc: Global,
    base: &Path,
    value: Option<&Text>,
) -> Result<Option<(u8, u16)>, NoMemory>
    ensures { IfOk result (λ about. about ≡ option_map spec_module_of
        (option_and_then (λ text. path_of_text text base.now) (option_copied value.entry))) }
{
    match value {
        Some(text) => module_of_text(alloc, base, text),
        None => Ok(None),
    }
}

fn module_of_text(alloc: Global, base: &Path, text: &Text) -> Result<Option<(u8, u16)>, NoMemory>
    ensures { IfOk result
        (λ about. about ≡ option_map spec_module_of (path_of_text text.now base.now)) }
{
    match Path::resolve(alloc, text, base)? {
        Some(path) => Ok(Some((path.component, path.module))),
        None => Ok(None),
    }
}
