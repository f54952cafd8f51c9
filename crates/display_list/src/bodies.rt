//! The body of a document.

ghost use Rattle.std.specs.Prelude.{◌≡◌};
ghost use Rattle.dom_tree.specs.NodeNumbers.{number_of};
ghost use Rattle.display_list.specs.Bodies.{body_of as spec_body_of};

use crate::tags::is_body;
use dom_tree::{NodeId, Tree};

/// The first `body` in document order: what stands in it is drawn, and the keys that it lets pass
/// come to the document.
pub fn body_of(tree: &Tree) -> Option<NodeId>
    ensures { number_of result ≡ spec_body_of tree.now }
{
    'nodes: for number in 0..tree.node_count() {
        let node = NodeId(number);
        if is_body(tree, node) {
            return Some(node);
        }
    }
    None
}
