//! Changes of one text or one attribute.

ghost use Rattle.std.specs.Prelude.{◌≡◌, ◌<◌, ◌≤◌, ℕ, Some, None, length, codes, IsTrue, IfOk, IfSome, OnOk, OnErr};
ghost use Rattle.bml_bytes.specs.Words.{is_same};
ghost use Rattle.dom_tree.specs.Items.{IsElement, IsText, value_of, changed_at, with_text, with_attribute, with_last_attribute};
ghost use Rattle.std.specs.Prelude.{List, IsFalse, ◌+◌, min};
ghost use Rattle.std.specs.Option.{option_map_or};
ghost use Rattle.indexmap.specs.IndexMap.{IsUnchanged, get, spare};
ghost use Rattle.dom_tree.specs.Walks.{KeepsPlaces, most_nodes, node_of_id};
ghost use Rattle.dom_tree.specs.NodeNumbers.{number_of};
ghost use Rattle.dom_tree.specs.Links.{items_in, links_in};

use super::Tree;
use crate::node_ids::NodeId;
use crate::nodes::{Node, NodeKind};
use bml_bytes::{NoMemory, Text};
use indexmap::IndexMap;

// An id that an element was given, and the one that it had.
#[derive(Drop)]
struct PutId {
    id: Text,
    had: Option<Text>,
}

impl Tree {
    /// Gives a text node another text.
    pub fn set_text(&mut self, node: NodeId, text: Text)
        requires { IsText self.old node.0 }
        ensures text { self.new ≡ changed_at (with_text text) node.0 self.old }
        ensures places { KeepsPlaces self.old self.new }
    {
        self.nodes[node.0 as usize].kind = NodeKind::Text(text);
    }

    /// Gives an element one attribute more, which stands behind the others.
    pub fn add_attribute(&mut self, node: NodeId, name: Text, value: Text) -> Result<(), NoMemory>
        requires element { IsElement self.old node.0 }
        requires absent { value_of self.old node.0 name ≡ None }
        ensures ok { OnOk result
            (self.new ≡ changed_at (with_last_attribute name value) node.0 self.old) }
        ensures err { OnErr result (self.new ≡ self.old) }
        ensures places { KeepsPlaces self.old self.new }
    {
        if is_id(&name) {
            return self.add_id(node, name, value);
        }
        put_attribute(&mut self.nodes, node, name, value)?;
        Ok(())
    }

    /// Gives an element's attribute a value. An attribute that the element has keeps its place, and
    /// a new one stands behind the others.
    pub fn set_attribute(&mut self, node: NodeId, name: &Text, value: Text) -> Result<(), NoMemory>
        requires { IsElement self.old node.0 }
        ensures ok { OnOk result
            (self.new ≡ changed_at (with_attribute name.now value) node.0 self.old) }
        ensures err { OnErr result (self.new ≡ self.old) }
        ensures places { KeepsPlaces self.old self.new }
    {
        if is_id(name) {
            return self.set_id(node, name, value);
        }
        put_shared(&mut self.nodes, node, name, value)?;
        Ok(())
    }

    // Gives an element that has no id one. What may fail comes first.
    fn add_id(&mut self, node: NodeId, name: Text, value: Text) -> Result<(), NoMemory>
        requires element { IsElement self.old node.0 }
        requires absent { value_of self.old node.0 name ≡ None }
        requires name { IsTrue (is_same name (codes "id")) }
        ensures ok { OnOk result
            (self.new ≡ changed_at (with_last_attribute name value) node.0 self.old) }
        ensures err { OnErr result (self.new ≡ self.old) }
        ensures places { KeepsPlaces self.old self.new }
    {
        let put = put_id(&mut self.nodes, &mut self.ids, node, &name, value, 1)?;
        index_one_more(&mut self.ids, put.id, node);
        Ok(())
    }

    // Gives an element an id. What may fail comes first; then the index is mended at the old and
    // the new id.
    fn set_id(&mut self, node: NodeId, name: &Text, value: Text) -> Result<(), NoMemory>
        requires element { IsElement self.old node.0 }
        requires name { IsTrue (is_same name.now (codes "id")) }
        ensures ok { OnOk result
            (self.new ≡ changed_at (with_attribute name.now value) node.0 self.old) }
        ensures err { OnErr result (self.new ≡ self.old) }
        ensures places { KeepsPlaces self.old self.new }
    {
        let put = put_id(&mut self.nodes, &mut self.ids, node, name, value, 2)?;
        index_had(&mut self.ids, &self.nodes, name, put.had);
        index_anew(&mut self.ids, &self.nodes, name, put.id);
        Ok(())
    }
}

// Gives an element's attribute a value, and answers the value that it had.
fn put_attribute(
    nodes: &mut Vec<Node>,
    node: NodeId,
    name: Text,
    value: Text,
) -> Result<Option<Text>, NoMemory>
    requires { IsElement (items_in nodes.old.items) node.0 }
    ensures ok { OnOk result
        (items_in nodes.new.items
        ≡ changed_at (with_attribute name value) node.0 (items_in nodes.old.items)) }
    ensures had { IfOk result (λ had. had ≡ value_of (items_in nodes.old.items) node.0 name) }
    ensures err { OnErr result (items_in nodes.new.items ≡ items_in nodes.old.items) }
    ensures links { links_in nodes.new.items ≡ links_in nodes.old.items }
{
    nodes[node.0 as usize].put_attribute(name, value)
}

// The same of a name that is shared, which may fail as well; nothing is changed then.
fn put_shared(
    nodes: &mut Vec<Node>,
    node: NodeId,
    name: &Text,
    value: Text,
) -> Result<Option<Text>, NoMemory>
    requires { IsElement (items_in nodes.old.items) node.0 }
    ensures ok { OnOk result
        (items_in nodes.new.items
        ≡ changed_at (with_attribute name.now value) node.0 (items_in nodes.old.items)) }
    ensures had { IfOk result (λ had. had ≡ value_of (items_in nodes.old.items) node.0 name.now) }
    ensures err { OnErr result (items_in nodes.new.items ≡ items_in nodes.old.items) }
    ensures links { links_in nodes.new.items ≡ links_in nodes.old.items }
{
    let name = name.share()?;
    put_attribute(nodes, node, name, value)
}

// Gives an element's attribute a value that is an id, once the index has room for so many ids more.
fn put_id(
    nodes: &mut Vec<Node>,
    ids: &mut IndexMap<Text, NodeId>,
    node: NodeId,
    name: &Text,
    value: Text,
    more: usize,
) -> Result<PutId, NoMemory>
    requires { IsElement (items_in nodes.old.items) node.0 }
    ensures ok { OnOk result
        (items_in nodes.new.items
        ≡ changed_at (with_attribute name.now value) node.0 (items_in nodes.old.items)) }
    ensures id { IfOk result (λ put. put.id ≡ value) }
    ensures had { IfOk result
        (λ put. put.had ≡ value_of (items_in nodes.old.items) node.0 name.now) }
    ensures err { OnErr result (items_in nodes.new.items ≡ items_in nodes.old.items) }
    ensures links { links_in nodes.new.items ≡ links_in nodes.old.items }
    ensures room { OnOk result (more ≤ spare ids.new) }
    ensures entries { IsUnchanged ids.old ids.new }
{
    ids.reserve(more)?;
    let id = value.share()?;
    let had = put_shared(nodes, node, name, value)?;
    Ok(PutId { id, had })
}

// Notes that one node more has an id.
fn index_one_more(ids: &mut IndexMap<Text, NodeId>, id: Text, node: NodeId)
    requires { 0 < spare ids.old }
    ensures here { number_of (get is_same ids.new id)
        ≡ Some (option_map_or (min node.0) (number_of (get is_same ids.old id)) node.0) }
    ensures others { (other : List ℕ) → IsFalse (is_same id other)
        → get is_same ids.new other ≡ get is_same ids.old other }
{
    let first = match ids.get(&id) {
        Some(first) => node.min(*first),
        None => node,
    };
    let _ = ids.insert(id, first);
}

// Sets what the index gives for the id that an element had, if any.
fn index_had(ids: &mut IndexMap<Text, NodeId>, nodes: &[Node], name: &Text, had: Option<Text>)
    requires name { IsTrue (is_same name.now (codes "id")) }
    requires room { 1 < spare ids.old }
    requires few { length nodes.now ≤ most_nodes }
    ensures room { 0 < spare ids.new }
    ensures here { IfSome had
        (λ id. number_of (get is_same ids.new id) ≡ node_of_id (items_in nodes.now) id) }
    ensures others { (other : List ℕ) → IfSome had (λ id. IsFalse (is_same id other))
        → get is_same ids.new other ≡ get is_same ids.old other }
{
    if let Some(id) = had {
        index_anew(ids, nodes, name, id);
    }
}

// Sets what the index gives for one id to the first node that has it.
fn index_anew(ids: &mut IndexMap<Text, NodeId>, nodes: &[Node], name: &Text, id: Text)
    requires name { IsTrue (is_same name.now (codes "id")) }
    requires room { 0 < spare ids.old }
    requires few { length nodes.now ≤ most_nodes }
    ensures room { spare ids.old ≤ spare ids.new + 1 }
    ensures here { number_of (get is_same ids.new id) ≡ node_of_id (items_in nodes.now) id }
    ensures others { (other : List ℕ) → IsFalse (is_same id other)
        → get is_same ids.new other ≡ get is_same ids.old other }
{
    match first_of_id(nodes, name, &id) {
        Some(node) => {
            let _ = ids.insert(id, node);
        }
        None => {
            ids.swap_remove(&id);
        }
    }
}

// The first node that has the id.
fn first_of_id(nodes: &[Node], name: &Text, id: &Text) -> Option<NodeId>
    requires name { IsTrue (is_same name.now (codes "id")) }
    requires few { length nodes.now ≤ most_nodes }
    ensures { number_of result ≡ node_of_id (items_in nodes.now) id.now }
{
    let mut number = 0;
    for node in nodes {
        if node.has_value(name, id) {
            return Some(NodeId(number));
        }
        number += 1;
    }
    None
}

// Whether a text is the name of the attribute by which an element is found.
fn is_id(name: &Text) -> bool
    ensures { result ≡ is_same name.now (codes "id") }
{
    name.is_word("id")
}
