//! The tree of a document, and the walks over it.

ghost use Rattle.std.specs.Prelude.{◌≡◌, ◌<◌, ◌≤◌, ◌+◌, ◌↔◌, ◌∷◌, Some, None, [], length, slice_get, option_map, option_copied, MatchOption, IsTrue, IfNone, IfSome, IsSomeAnd};
ghost use Rattle.std.specs.Bool.{OnTrue, OnFalse};
ghost use Rattle.std.specs.Option.{option_map_or};
ghost use Rattle.dom_tree.specs.Items.{IsElement, parent_of, tag_of, text_of, attributes_of, value_of};
ghost use Rattle.dom_tree.specs.Walks.{first, last, after, before, children_of, siblings_of, path_of, node_of_id, IsEndOf, IsOpen, IsTree};

mod building;
mod changes;
mod copies;

use crate::node_ids::NodeId;
use crate::nodes::{Node, NodeKind};
use bml_bytes::Text;
use indexmap::IndexMap;
use std::marker::Model;

/// The most nodes of a document. This limit is this project's own.
pub const MOST_NODES: u32 = 16_384;

/// The tree of a document: elements with attributes, and texts. Contracts see the list of its nodes
/// in document order; a node's number is its place there. Each walk reads one node.
#[derive(Drop)]
pub struct Tree {
    nodes: Vec<Node>,

    // for each id the first node that has it
    ids: IndexMap<Text, NodeId>,
}

impl Model for Tree {
    ghost use Rattle.std.specs.Prelude.{List};
    ghost use Rattle.dom_tree.specs.Items.{Item};

    ghost Value = { List Item };

    ghost use Rattle.dom_tree.specs.Links.{items_in, IsKept};

    ghost view = { λ tree. items_in tree.nodes.items };

    ghost invariant = { λ tree. IsKept tree.nodes.items tree.ids };
}

impl Tree {
    ghost use Rattle.dom_tree.specs.NodeNumbers.{number_of};
    ghost use Rattle.dom_tree.specs.Links.{item_of, LeadsTo, LeadsInside};

    /// The number of nodes, elements and texts.
    pub fn node_count(&self) -> u32
        ensures count { result ≡ length self.now }
        ensures tree { IsTree self.now }
    {
        self.nodes.len() as u32
    }

    /// Whether the tree has a node of this number.
    pub fn contains(&self, node: NodeId) -> bool
        ensures { IsTrue result ↔ (node.0 < length self.now) }
    {
        (node.0 as usize) < self.nodes.len()
    }

    /// The element that a node hangs in. The root hangs in nothing.
    pub fn parent(&self, node: NodeId) -> Option<NodeId>
        requires { node.0 < length self.now }
        ensures parent { number_of result ≡ parent_of self.now node.0 }
        ensures before { IfSome result (λ up. (up.0 < node.0) × IsElement self.now up.0) }
        ensures root { IfNone result (node.0 ≡ 0) }
        ensures path { path_of self.now node.0
            ≡ node.0 ∷ option_map_or (path_of self.now) (parent_of self.now node.0) [] }
        ensures open { IsOpen self.now node.0 → IfSome result (λ up. IsOpen self.now up.0) }
    {
        self.at(node).parent
    }

    /// The first of the nodes that hang in an element.
    pub fn first_child(&self, node: NodeId) -> Option<NodeId>
        requires { node.0 < length self.now }
        ensures first { number_of result ≡ first (children_of self.now node.0) }
        ensures behind { IfSome result (λ child. (node.0 < child.0) × (child.0 < length self.now)) }
    {
        self.at(node).first_child
    }

    /// The last of the nodes that hang in an element.
    pub fn last_child(&self, node: NodeId) -> Option<NodeId>
        requires { node.0 < length self.now }
        ensures last { number_of result ≡ last (children_of self.now node.0) }
        ensures behind { IfSome result (λ child. (node.0 < child.0) × (child.0 < length self.now)) }
    {
        self.at(node).last_child
    }

    /// The node that follows this one among those that hang where it does.
    pub fn next_sibling(&self, node: NodeId) -> Option<NodeId>
        requires { node.0 < length self.now }
        ensures next { number_of result ≡ after (siblings_of self.now node.0) node.0 }
        ensures behind { IfSome result (λ next. (node.0 < next.0) × (next.0 < length self.now)) }
    {
        self.at(node).next_sibling
    }

    /// The node that this one follows among those that hang where it does.
    pub fn previous_sibling(&self, node: NodeId) -> Option<NodeId>
        requires { node.0 < length self.now }
        ensures previous { number_of result ≡ before (siblings_of self.now node.0) node.0 }
        ensures before { IfSome result (λ previous. previous.0 < node.0) }
    {
        self.at(node).previous_sibling
    }

    /// The number behind the last node that stands in this one: the nodes from this one up to that
    /// number are those that stand in it at any depth, itself among them. The cost is their number.
    pub fn subtree_end(&self, node: NodeId) -> u32
        requires { node.0 < length self.now }
        ensures end { IsEndOf self.now node.0 result }
        ensures behind { node.0 < result }
        ensures within { result ≤ length self.now }
    {
        let count = self.node_count();
        'behind: for number in node.0 + 1..count {
            if self.hangs_before(NodeId(number), node) {
                return number;
            }
        }
        count
    }

    /// The first element in document order whose attribute `id` is this text, case and white
    /// included (HTML 4, 7.5.2). The cost is that of one look-up by the text's hash.
    pub fn by_id(&self, id: &Text) -> Option<NodeId>
        ensures first { number_of result ≡ node_of_id self.now id.now }
        ensures element { IfSome result
            (λ node. (node.0 < length self.now) × IsElement self.now node.0) }
    {
        self.ids.get(id).copied()
    }

    /// The tag of an element, and None of a text.
    pub fn tag(&self, node: NodeId) -> Option<&Text>
        requires { node.0 < length self.now }
        ensures { option_copied result ≡ tag_of self.now node.0 }
    {
        match &self.at(node).kind {
            NodeKind::Element(element) => Some(&element.tag),
            NodeKind::Text(_) => None,
        }
    }

    /// The text of a text node, and None of an element.
    pub fn text(&self, node: NodeId) -> Option<&Text>
        requires { node.0 < length self.now }
        ensures { option_copied result ≡ text_of self.now node.0 }
    {
        match &self.at(node).kind {
            NodeKind::Element(_) => None,
            NodeKind::Text(text) => Some(text),
        }
    }

    /// The value of an element's attribute, and None of a text or where the element lacks the
    /// attribute.
    pub fn attribute(&self, node: NodeId, name: &Text) -> Option<&Text>
        requires { node.0 < length self.now }
        ensures { option_copied result ≡ value_of self.now node.0 name.now }
    {
        match &self.at(node).kind {
            NodeKind::Element(element) => element.attribute(name),
            NodeKind::Text(_) => None,
        }
    }

    /// The name of an element's attribute at a place in the order written, from 0. None of a text
    /// and past the last attribute.
    pub fn attribute_name(&self, node: NodeId, place: usize) -> Option<&Text>
        requires { node.0 < length self.now }
        ensures { option_copied result
            ≡ option_map (λ a. a.name) (slice_get (attributes_of self.now node.0) place) }
    {
        match &self.at(node).kind {
            NodeKind::Element(element) => match element.attributes.get_index(place) {
                Some((name, _)) => Some(name),
                None => None,
            },
            NodeKind::Text(_) => None,
        }
    }

    /// How many attributes an element has, and 0 of a text.
    pub fn attribute_count(&self, node: NodeId) -> usize
        requires { node.0 < length self.now }
        ensures { result ≡ length (attributes_of self.now node.0) }
    {
        match &self.at(node).kind {
            NodeKind::Element(element) => element.attributes.len(),
            NodeKind::Text(_) => 0,
        }
    }

    /// The name and the value of an element's attribute at a place in the order written, from 0.
    /// None of a text and past the last attribute.
    pub fn attribute_at(&self, node: NodeId, place: usize) -> Option<(&Text, &Text)>
        requires { node.0 < length self.now }
        ensures { MatchOption result (slice_get (attributes_of self.now node.0) place ≡ None)
            (λ entry. slice_get (attributes_of self.now node.0) place
            ≡ Some (record { name = entry.0.now; value = entry.1.now })) }
    {
        match &self.at(node).kind {
            NodeKind::Element(element) => element.attributes.get_index(place),
            NodeKind::Text(_) => None,
        }
    }

    // Whether a node, which isn't the root, hangs in one that stands before a node.
    fn hangs_before(&self, node: NodeId, place: NodeId) -> bool
        requires within { node.0 < length self.now }
        requires not_root { 0 < node.0 }
        ensures before { OnTrue result
            (IsSomeAnd (parent_of self.now node.0) (λ up. up < place.0)) }
        ensures behind { OnFalse result
            (IsSomeAnd (parent_of self.now node.0) (λ up. place.0 ≤ up)) }
    {
        match self.parent(node) {
            Some(up) => up.0 < place.0,
            None => false,
        }
    }

    // The node of this number, which leads to its neighbours.
    fn at(&self, node: NodeId) -> &Node
        requires { node.0 < length self.now }
        ensures item { slice_get self.now node.0 ≡ Some (item_of result.now) }
        ensures links { LeadsTo self.now node.0 result.now }
        ensures inside { LeadsInside self.now node.0 result.now }
        ensures tree { IsTree self.now }
    {
        &self.nodes[node.0 as usize]
    }
}
