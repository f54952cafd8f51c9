//! The tree of a document: elements with attributes, and texts (DOM level 1, without adding and
//! removing nodes once the tree is built).
//!
//! Contracts see a `Tree` as the list of its nodes in document order, where each node tells the
//! number of the element that it hangs in (`specs/Items.antt`). Children, siblings, the path to the
//! root and the node of an id are functions of that list (`specs/Walks.antt`), and
//! `specs/Nested.antt` says which list stands for nested lists of elements and texts. Each call
//! answers exactly what that list says; a building call adds the named thing last, a change gives
//! one node another text or one attribute another value, and all else stays. A call that finds no
//! memory leaves the tree as it was. A walk reads one node; a look-up of an attribute or of an id
//! costs one look-up by hash. A copy is an equal tree of its own.
#![tactic(auto)]

mod laws;
mod map_copies;
mod node_ids;
mod nodes;
mod trees;

pub use crate::laws::{
    law_of_attribute_changes, law_of_children, law_of_nested_nodes, law_of_parents, law_of_paths,
    law_of_text_changes,
};
pub use crate::node_ids::NodeId;
pub use crate::trees::{MOST_NODES, Tree};
