//! The neighbours of nodes.

ghost use Rattle.std.specs.Prelude.{◌≡◌, ◌<◌, length};
ghost use Rattle.dom_tree.specs.NodeNumbers.{number_of};
ghost use Rattle.dom_objects.specs.Reads.{node_value as spec_node_value, row_of, walk_rows};

use bml_bytes::Text;
use dom_tree::{NodeId, Tree};
use es_values::{HostRef, Value};

/// What the name of a neighbour gives: the node, or Null where there is none. It is None where the
/// name is that of no neighbour. (DOM level 1, Node.)
pub fn neighbour(tree: &Tree, node: NodeId, name: &Text) -> Option<Value>
    requires { node.0 < length tree.now }
    ensures { result ≡ row_of name.now (walk_rows tree.now node.0) }
{
    if name.is_word("parentNode") {
        Some(node_value(tree.parent(node)))
    } else if name.is_word("firstChild") {
        Some(node_value(tree.first_child(node)))
    } else if name.is_word("lastChild") {
        Some(node_value(tree.last_child(node)))
    } else if name.is_word("previousSibling") {
        Some(node_value(tree.previous_sibling(node)))
    } else if name.is_word("nextSibling") {
        Some(node_value(tree.next_sibling(node)))
    } else {
        None
    }
}

/// A node, or Null.
pub fn node_value(node: Option<NodeId>) -> Value
    ensures { result ≡ spec_node_value (number_of node) }
{
    match node {
        Some(node) => Value::Host(HostRef::Node(node.0)),
        None => Value::Null,
    }
}
