//! How a tree is built: node by node, in document order.

ghost use Rattle.std.specs.Prelude.{◌≡◌, ◌<◌, ◌↔◌, ◌∷◌, ◌++◌, [], Some, None, length, IsTrue, IfOk, OnOk, OnErr};
ghost use Rattle.dom_tree.specs.Items.{IsElement, element_in, text_node_in, attributes_in, changed_at};
ghost use Rattle.std.specs.Option.{ForSome};
ghost use Rattle.dom_tree.specs.Walks.{most_nodes, IsOpen, Extends};
ghost use Rattle.dom_tree.specs.NodeNumbers.{number_of};
ghost use Rattle.dom_tree.specs.Links.{items_in, links_in, content_of, with_last_child, with_next_sibling, hung_last};

use super::Tree;
use crate::node_ids::NodeId;
use crate::nodes::{ElementNode, Node, NodeKind};
use bml_bytes::{NoMemory, Text};
use indexmap::IndexMap;
use std::alloc::Global;

impl Tree {
    /// A tree of one element without attributes, the root.
    pub fn with_root(alloc: Global, tag: Text) -> Result<Tree, NoMemory>
        ensures root { IfOk result (λ tree. tree ≡ element_in None tag ∷ []) }
        ensures open { IfOk result (λ tree. IsOpen tree 0) }
    {
        let mut nodes = Vec::new(alloc);
        nodes.push(Node::last(NodeKind::element(alloc, tag), None, None))?;
        Ok(Tree {
            nodes,
            ids: IndexMap::new(alloc),
        })
    }

    /// Adds an element without attributes as the last child of an element on the path from the last
    /// node to the root.
    pub fn add_element(&mut self, parent: NodeId, tag: Text) -> Result<NodeId, NoMemory>
        requires element { IsElement self.old parent.0 }
        requires open { IsOpen self.old parent.0 }
        requires room { length self.old < most_nodes }
        ensures added { OnOk result (self.new ≡ self.old ++ element_in (Some parent.0) tag ∷ []) }
        ensures number { IfOk result (λ node. node.0 ≡ length self.old) }
        ensures extends { OnOk result (Extends self.old self.new parent.0) }
        ensures err { OnErr result (self.new ≡ self.old) }
    {
        let alloc = *self.nodes.allocator();
        self.add(parent, NodeKind::element(alloc, tag))
    }

    /// Adds a text as the last child of an element on the path from the last node to the root.
    pub fn add_text(&mut self, parent: NodeId, text: Text) -> Result<NodeId, NoMemory>
        requires element { IsElement self.old parent.0 }
        requires open { IsOpen self.old parent.0 }
        requires room { length self.old < most_nodes }
        ensures added { OnOk result
            (self.new ≡ self.old ++ text_node_in (Some parent.0) text ∷ []) }
        ensures number { IfOk result (λ node. node.0 ≡ length self.old) }
        ensures extends { OnOk result (Extends self.old self.new parent.0) }
        ensures err { OnErr result (self.new ≡ self.old) }
    {
        self.add(parent, NodeKind::Text(text))
    }

    /// Whether the node is on the path from the last node to the root, so that a node added to it
    /// stands last in document order. The cost is the length of that path.
    pub fn is_open(&self, node: NodeId) -> bool
        ensures { IsTrue result ↔ IsOpen self.now node.0 }
    {
        let mut up = Some(NodeId(self.node_count() - 1));
        while let Some(on_path) = up {
            if on_path == node {
                return true;
            }
            up = self.parent(on_path);
        }
        false
    }

    // Adds a node as the last child of an element.
    fn add(&mut self, parent: NodeId, kind: NodeKind) -> Result<NodeId, NoMemory>
        requires element { IsElement self.old parent.0 }
        requires open { IsOpen self.old parent.0 }
        requires room { length self.old < most_nodes }
        requires plain { attributes_in (content_of kind) ≡ [] }
        ensures added { OnOk result (self.new
            ≡ self.old ++ record { parent = Some parent.0; content = content_of kind } ∷ []) }
        ensures number { IfOk result (λ node. node.0 ≡ length self.old) }
        ensures extends { OnOk result (Extends self.old self.new parent.0) }
        ensures err { OnErr result (self.new ≡ self.old) }
    {
        let number = NodeId(self.nodes.len() as u32);
        let previous = self.last_child(parent);
        self.nodes.push(Node::last(kind, Some(parent), previous))?;
        hang_last(&mut self.nodes, number, parent, previous);
        Ok(number)
    }
}

// Hangs a node last in an element, behind the child that is its last.
fn hang_last(nodes: &mut Vec<Node>, node: NodeId, parent: NodeId, previous: Option<NodeId>)
    requires parent { parent.0 < length nodes.old.items }
    requires previous { ForSome previous (λ n. n.0 < length nodes.old.items) }
    ensures items { items_in nodes.new.items ≡ items_in nodes.old.items }
    ensures links { links_in nodes.new.items
        ≡ hung_last node.0 parent.0 (number_of previous) (links_in nodes.old.items) }
{
    give_last_child(nodes, parent, node);
    if let Some(previous) = previous {
        give_next_sibling(nodes, previous, node);
    }
}

// Makes a node the last child of an element, and the first of one that has none.
fn give_last_child(nodes: &mut Vec<Node>, parent: NodeId, child: NodeId)
    requires { parent.0 < length nodes.old.items }
    ensures items { items_in nodes.new.items ≡ items_in nodes.old.items }
    ensures links { links_in nodes.new.items
        ≡ changed_at (with_last_child child.0) parent.0 (links_in nodes.old.items) }
{
    let up = &mut nodes[parent.0 as usize];
    up.first_child = Some(up.first_child.unwrap_or(child));
    up.last_child = Some(child);
}

// Makes a node the next sibling of another.
fn give_next_sibling(nodes: &mut Vec<Node>, node: NodeId, next: NodeId)
    requires { node.0 < length nodes.old.items }
    ensures items { items_in nodes.new.items ≡ items_in nodes.old.items }
    ensures links { links_in nodes.new.items
        ≡ changed_at (with_next_sibling next.0) node.0 (links_in nodes.old.items) }
{
    nodes[node.0 as usize].next_sibling = Some(next);
}
