//! The numbers of nodes.

/// The number of a node: its place in document order, from 0, which is the root.
#[derive(Clone, Copy, Debug, PartialEq, Eq, PartialOrd, Ord, Hash)]
pub struct NodeId(pub u32);
