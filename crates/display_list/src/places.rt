//! Where the nodes of a document stand.

ghost use Rattle.std.specs.Prelude.{◌≡◌, ◌<◌, ◌≤◌, ◌==◌, false, length, IfOk, IfSome};
ghost use Rattle.std.specs.Option.{option_map_or};
ghost use Rattle.dom_tree.specs.Items.{parent_of};
ghost use Rattle.dom_tree.specs.NodeNumbers.{number_of};
ghost use Rattle.dom_tree.specs.Walks.{IsTree};
ghost use Rattle.display_list.specs.Bodies.{body_of as spec_body_of};
ghost use Rattle.display_list.specs.devices.Views.{added_by, holder_inside, node_place_of, node_place_outside, place_in, shown_in, ArePlaces, IsNearPlace};

use crate::bodies::body_of;
use crate::node_styles::NodeStyle;
use crate::tags::{is_box, is_inline};
use bml_bytes::NoMemory;
use dom_tree::{NodeId, Tree, law_of_paths};
use std::alloc::Global;

/// The box of an element, in pixels from the top left of the screen.
#[derive(Clone, Copy)]
pub struct Place {
    pub x: i32,
    pub y: i32,
    pub width: i16,
    pub height: i16,
}

/// Where a node stands: where the places of what stands in it are counted from, which is the sum of
/// the offsets of the boxes from the node up to the root; whether it is the body or stands under it;
/// and which element holds the texts that hang where it does.
#[derive(Clone, Copy)]
pub struct NodePlace {
    pub x: i32,
    pub y: i32,
    pub is_under_body: bool,
    pub holder: Option<NodeId>,
}

/// Where each node stands, in document order.
pub fn node_places_of(
    alloc: Global,
    tree: &Tree,
    styles: &[NodeStyle],
) -> Result<Vec<NodePlace>, NoMemory>
    requires { length styles.now ≡ length tree.now }
    ensures tree { IsTree tree.now }
    ensures places { IfOk result
        (λ places. ArePlaces (shown_in tree.now styles.now) (length tree.now) places.items) }
{
    let body = body_of(tree);
    let count = tree.node_count();
    let mut places = Vec::with_capacity(alloc, count as usize)?;
    'nodes: for number in 0..count {
        let place = NodePlace::of(tree, styles, NodeId(number), body, places.as_slice());
        places.push(place)?;
    }
    Ok(places)
}

impl NodePlace {
    // Where a node stands, from where those before it stand.
    fn of(
        tree: &Tree,
        styles: &[NodeStyle],
        node: NodeId,
        body: Option<NodeId>,
        before: &[NodePlace],
    ) -> NodePlace
        requires node { node.0 < length tree.now }
        requires tree { IsTree tree.now }
        requires styles { length styles.now ≡ length tree.now }
        requires body { number_of body ≡ spec_body_of tree.now }
        requires before { ArePlaces (shown_in tree.now styles.now) node.0 before.now }
        ensures place { result ≡ node_place_of (shown_in tree.now styles.now) node.0 }
        ensures near { IsNearPlace node.0 result }
    {
        law_of_paths();
        let outer = place_around(tree, node, before);
        let holder = holder(tree, node, outer);
        let is_under_body = is_node(body, node) || outer.is_under_body;
        let (left, top) = offset(tree, node, styles[node.0 as usize]);
        NodePlace {
            x: i32::from(left) + outer.x,
            y: i32::from(top) + outer.y,
            is_under_body,
            holder,
        }
    }

    // What the root stands in.
    fn outside() -> NodePlace
        ensures { result ≡ node_place_outside }
    {
        NodePlace {
            x: 0,
            y: 0,
            is_under_body: false,
            holder: None,
        }
    }
}

/// Where the element stands that a node hangs in.
pub fn place_around(tree: &Tree, node: NodeId, places: &[NodePlace]) -> NodePlace
    requires node { node.0 < length tree.now }
    requires places { node.0 ≤ length places.now }
    ensures place { result ≡ place_in places.now (parent_of tree.now node.0) }
    ensures before { IfSome (parent_of tree.now node.0) (λ up. up < node.0) }
{
    match tree.parent(node) {
        Some(NodeId(up)) => places[up as usize],
        None => NodePlace::outside(),
    }
}

// The element that holds the texts that hang where a node does.
fn holder(tree: &Tree, node: NodeId, outer: NodePlace) -> Option<NodeId>
    requires { node.0 < length tree.now }
    ensures { result ≡ holder_inside tree.now outer.holder (parent_of tree.now node.0) }
{
    let up = tree.parent(node)?;
    if is_inline(tree, up) {
        outer.holder
    } else {
        Some(up)
    }
}

// What a node adds to the places of what stands in it.
fn offset(tree: &Tree, node: NodeId, style: NodeStyle) -> (i16, i16)
    requires { node.0 < length tree.now }
    ensures left { result.0 ≡ added_by tree.now node.0 style.left }
    ensures top { result.1 ≡ added_by tree.now node.0 style.top }
{
    if is_box(tree, node) {
        (style.left, style.top)
    } else {
        (0, 0)
    }
}

// Whether it is this node.
fn is_node(found: Option<NodeId>, node: NodeId) -> bool
    ensures { result ≡ option_map_or (λ number. node.0 == number) (number_of found) false }
{
    match found {
        Some(other) => node.0 == other.0,
        None => false,
    }
}
