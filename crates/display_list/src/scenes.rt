//! A document as it is drawn.

ghost use Rattle.std.specs.Prelude.{◌≡◌, ◌<◌, length, map, All, IfOk, OnOk};
ghost use Rattle.std.specs.List.Sorted.{IsPermutation};
ghost use Rattle.display_list.specs.Shown.{style_at};
ghost use Rattle.display_list.specs.Places.{boxes_of, drawn_nodes, in_order, is_drawn, is_held_by, is_under_body, place_of};
ghost use Rattle.display_list.specs.devices.Views.{drawn_box, shown_in, shown_of, AreNames, IsScene};

use crate::node_styles::NodeStyle;
use crate::places::{NodePlace, Place, node_places_of, place_around};
use crate::tags::is_box;
use bml_bytes::{NoMemory, Text};
use dom_tree::{NodeId, Tree};
use std::alloc::Global;

/// A document, with what its styles say of each node and where it stands.
#[derive(Drop)]
pub struct Scene<'a> {
    pub tree: &'a Tree,
    pub names: Names,
    styles: Vec<NodeStyle>,
    places: Vec<NodePlace>,
}

/// The names of the attributes that are shown.
#[derive(Drop)]
pub struct Names {
    pub value: Text,
    pub media_type: Text,
    pub data_name: Text,
}

/// An element that is drawn, at a level: the lowest is drawn first.
#[derive(Clone, Copy)]
pub struct DrawnBox {
    pub node: NodeId,
    pub level: i16,
}

impl Names {
    fn new(alloc: Global) -> Result<Names, NoMemory>
        ensures { IfOk result AreNames }
    {
        let value = Text::of_bytes(alloc, b"value")?;
        let media_type = Text::of_bytes(alloc, b"type")?;
        let data_name = Text::of_bytes(alloc, b"data")?;
        Ok(Names {
            value,
            media_type,
            data_name,
        })
    }
}

impl<'a> Scene<'a> {
    /// A document whose nodes have these styles.
    pub fn new(alloc: Global, tree: &'a Tree, styles: Vec<NodeStyle>) -> Result<Scene<'a>, NoMemory>
        requires { length styles.items ≡ length tree.now }
        ensures scene { IfOk result IsScene }
        ensures shown { IfOk result
            (λ scene. shown_of scene ≡ shown_in tree.entry.now styles.items) }
    {
        let places = node_places_of(alloc, tree, styles.as_slice())?;
        let names = Names::new(alloc)?;
        Ok(Scene {
            tree,
            names,
            styles,
            places,
        })
    }

    /// What the styles say of a node.
    pub fn style(&self, node: NodeId) -> NodeStyle
        requires scene { IsScene self.now }
        requires node { node.0 < length self.now.tree.now }
        ensures { result ≡ style_at (shown_of self.now) node.0 }
    {
        self.styles[node.0 as usize]
    }

    /// Where the box of an element stands.
    pub fn place(&self, node: NodeId) -> Place
        requires scene { IsScene self.now }
        requires node { node.0 < length self.now.tree.now }
        ensures { result ≡ place_of (shown_of self.now) node.0 }
    {
        let style = self.style(node);
        let outer = place_around(self.tree, node, self.places.as_slice());
        Place {
            x: i32::from(style.left) + outer.x,
            y: i32::from(style.top) + outer.y,
            width: style.width,
            height: style.height,
        }
    }

    /// Whether this element holds a node: what it prints stands in its box.
    pub fn is_held_by(&self, holder: NodeId, node: NodeId) -> bool
        requires scene { IsScene self.now }
        requires node { node.0 < length self.now.tree.now }
        ensures { result ≡ is_held_by self.now.tree.now holder.0 node.0 }
    {
        match self.places[node.0 as usize].holder {
            Some(found) => found.0 == holder.0,
            None => false,
        }
    }

    /// The elements that are drawn, as they are drawn one over the other.
    pub fn boxes(&self, alloc: Global) -> Result<Vec<DrawnBox>, NoMemory>
        requires { IsScene self.now }
        ensures boxes { IfOk result
            (λ boxes. boxes.items
            ≡ map (drawn_box (shown_of self.now)) (boxes_of (shown_of self.now))) }
        ensures within { IfOk result
            (λ boxes. All (λ drawn. drawn.node.0 < length self.now.tree.now) boxes.items) }
    {
        let mut boxes = self.drawn_boxes(alloc)?;
        sort_by_level(&mut boxes)?;
        Ok(boxes)
    }

    // The elements that are drawn, in document order.
    fn drawn_boxes(&self, alloc: Global) -> Result<Vec<DrawnBox>, NoMemory>
        requires { IsScene self.now }
        ensures boxes { IfOk result
            (λ boxes. boxes.items
            ≡ map (drawn_box (shown_of self.now)) (drawn_nodes (shown_of self.now))) }
        ensures within { IfOk result
            (λ boxes. All (λ drawn. drawn.node.0 < length self.now.tree.now) boxes.items) }
    {
        let mut boxes = Vec::new(alloc);
        'nodes: for number in 0..self.tree.node_count() {
            let node = NodeId(number);
            if self.is_drawn(node) {
                let level = self.style(node).level;
                boxes.push(DrawnBox { node, level })?;
            }
        }
        Ok(boxes)
    }

    // Whether an element is drawn: it has a box, stands under the body and is visible.
    fn is_drawn(&self, node: NodeId) -> bool
        requires scene { IsScene self.now }
        requires node { node.0 < length self.now.tree.now }
        ensures { result ≡ is_drawn (shown_of self.now) node.0 }
    {
        is_box(self.tree, node) && self.is_under_body(node) && self.style(node).is_visible
    }

    fn is_under_body(&self, node: NodeId) -> bool
        requires scene { IsScene self.now }
        requires node { node.0 < length self.now.tree.now }
        ensures { result ≡ is_under_body self.now.tree.now node.0 }
    {
        self.places[node.0 as usize].is_under_body
    }
}

// Puts elements in order by their levels; those of one level keep their order.
fn sort_by_level(boxes: &mut Vec<DrawnBox>) -> Result<(), NoMemory>
    ensures order { OnOk result
        (boxes.new.items ≡ in_order (λ drawn. drawn.level) boxes.old.items) }
    ensures permutation { IsPermutation boxes.old.items boxes.new.items }
{
    boxes.sort_by_key(|drawn| drawn.level)?;
    Ok(())
}
