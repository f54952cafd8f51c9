//! Copies of trees.

ghost use Rattle.std.specs.Prelude.{◌≡◌, IfOk};
ghost use Rattle.dom_tree.specs.Links.{items_in, links_in};

use super::Tree;
use crate::map_copies::copied_ids;
use crate::nodes::Node;
use bml_bytes::NoMemory;
use std::alloc::Global;

impl Tree {
    /// An equal tree of its own: what is written to one of the two doesn't change the other. They
    /// share their texts. The cost is the number of nodes and attributes.
    pub fn copy(&self) -> Result<Tree, NoMemory>
        ensures { IfOk result (λ tree. tree ≡ self.now) }
    {
        let nodes = copied_nodes(*self.nodes.allocator(), self.nodes.as_slice())?;
        let ids = copied_ids(&self.ids)?;
        Ok(Tree { nodes, ids })
    }
}

// The same nodes in a vector of their own.
fn copied_nodes(alloc: Global, nodes: &[Node]) -> Result<Vec<Node>, NoMemory>
    ensures items { IfOk result (λ copy. items_in copy.items ≡ items_in nodes.now) }
    ensures links { IfOk result (λ copy. links_in copy.items ≡ links_in nodes.now) }
{
    let mut copy = Vec::with_capacity(alloc, nodes.len())?;
    'nodes: for node in nodes {
        copy.push(node.copy()?)?;
    }
    Ok(copy)
}
