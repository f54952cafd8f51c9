//! The tree while it is built, with the path of open elements.

ghost use Rattle.std.specs.Prelude.{◌≡◌, ◌≢◌, ◌<◌, [], ◌∷◌, ◌++◌, length, slice_get, Some, None, option_map, OnOk, OnErr, IfOk, IfSome};
ghost use Rattle.dom_tree.specs.Items.{IsElement, attributes_of, changed_at, element_in, text_node_in};
ghost use Rattle.dom_tree.specs.Items.Content.{Element};
ghost use Rattle.dom_tree.specs.Walks.{most_nodes, KeepsPlaces};
ghost use Rattle.bml_reader.specs.Markup.{NamesDiffer};
ghost use Rattle.bml_reader.specs.devices.AttributeViews.{attribute_of_entry, attributes_in_map};
ghost use Rattle.bml_reader.specs.devices.Nodes.{top_of, path_with, numbers_in};
ghost use Rattle.bml_reader.specs.devices.BuilderViews.{items_or_none, IsGrown, with_attributes, KeepsPlacesOf};

use bml_bytes::{NoMemory, Text};
use dom_tree::{MOST_NODES, NodeId, Tree};
use indexmap::IndexMap;
use std::alloc::Global;
use std::marker::Model;

/// The nodes of a document so far and the path of its open elements. Once there are more nodes than
/// a tree may have, they are let go. Contracts see the nodes and the path, from the innermost
/// element on, or None once they are let go.
#[derive(Drop)]
pub struct TreeBuilder {
    tree: Option<Tree>,
    path: Vec<NodeId>,
    is_full: bool,
}

impl Model for TreeBuilder {
    ghost use Rattle.std.specs.Prelude.{Option};
    ghost use Rattle.bml_reader.specs.devices.Machine.{NodesSoFar};
    ghost use Rattle.bml_reader.specs.devices.BuilderViews.{nodes_by, IsBuilding};

    ghost Value = { Option NodesSoFar };

    ghost view = { λ builder. nodes_by builder.is_full builder.tree builder.path.items };

    ghost invariant = { λ builder. IsBuilding builder.is_full builder.tree builder.path.items };
}

impl TreeBuilder {
    ghost use Rattle.std.specs.Prelude.{nat_le, true, IsNone};
    ghost use Rattle.std.specs.Option.{option_and_then};
    ghost use Rattle.bml_reader.specs.devices.Nodes.{nodes_with_element, nodes_with_text, nodes_outside, IsRootNext};

    /// No nodes.
    pub fn new(alloc: Global) -> TreeBuilder
        ensures { result ≡ Some (record { items = []; path = [] }) }
    {
        TreeBuilder {
            tree: None,
            path: Vec::new(alloc),
            is_full: false,
        }
    }

    /// Adds an element, the root or a child of the innermost open one. It stays open unless it is
    /// empty.
    pub fn add_element(
        &mut self,
        alloc: Global,
        tag: Text,
        attributes: &IndexMap<Text, Text>,
        is_empty: bool,
    ) -> Result<(), NoMemory>
        requires names { NamesDiffer [] (attributes_in_map attributes.now) }
        requires root { IfSome self.old IsRootNext }
        ensures { OnOk result
            (self.new ≡ option_and_then
            (nodes_with_element tag (attributes_in_map attributes.now) is_empty) self.old) }
    {
        if self.has_no_room() {
            self.let_go();
            return Ok(());
        }
        grow_element(
            alloc,
            &mut self.tree,
            &mut self.path,
            tag,
            attributes,
            is_empty,
        )
    }

    /// Adds a text as a child of the innermost open element.
    pub fn add_text(&mut self, text: Text) -> Result<(), NoMemory>
        requires { IfSome self.old (λ k. k.path ≢ []) }
        ensures { OnOk result (self.new ≡ option_and_then (nodes_with_text text) self.old) }
    {
        if self.has_no_room() {
            self.let_go();
            return Ok(());
        }
        grow_text(&mut self.tree, self.path.as_slice(), text)
    }

    /// Ends the innermost open element.
    pub fn close(&mut self)
        ensures { self.new ≡ option_map nodes_outside self.old }
    {
        self.path.pop();
    }

    /// The tree of all nodes, where they weren't let go.
    pub fn into_tree(self) -> Option<Tree>
        requires { IfSome self (λ k. k.items ≢ []) }
        ensures { result ≡ option_map (λ k. k.items) self }
    {
        if self.is_full { None } else { self.tree }
    }

    // Whether no node can be added.
    fn has_no_room(&self) -> bool
        ensures some { IfSome self.now (λ k. result ≡ nat_le most_nodes (length k.items)) }
        ensures none { IsNone self.now → result ≡ true }
    {
        if self.is_full {
            return true;
        }
        match &self.tree {
            Some(tree) => tree.node_count() >= MOST_NODES,
            None => false,
        }
    }

    fn let_go(&mut self)
        ensures { self.new ≡ None }
    {
        self.tree = None;
        self.path.clear();
        self.is_full = true;
    }
}

// Adds an element, the root or a child of the last of the open ones. It is open from then on,
// unless it is empty.
fn grow_element(
    alloc: Global,
    tree: &mut Option<Tree>,
    path: &mut Vec<NodeId>,
    tag: Text,
    attributes: &IndexMap<Text, Text>,
    is_empty: bool,
) -> Result<(), NoMemory>
    requires grown { IsGrown tree.old (numbers_in path.old.items) }
    requires root { numbers_in path.old.items ≡ [] → items_or_none tree.old ≡ [] }
    requires room { length (items_or_none tree.old) < most_nodes }
    requires names { NamesDiffer [] (attributes_in_map attributes.now) }
    ensures added { OnOk result (tree.new
        ≡ Some (items_or_none tree.old
        ++ record {
          parent = top_of (numbers_in path.old.items);
          content = Element tag (attributes_in_map attributes.now);
        } ∷ [])) }
    ensures path { OnOk result
        (numbers_in path.new.items
        ≡ path_with is_empty (length (items_or_none tree.old)) (numbers_in path.old.items)) }
    ensures still { IsGrown tree.new (numbers_in path.new.items) }
{
    let node = grow(alloc, tree, path.as_slice(), tag)?;
    give_attributes(tree, node, attributes)?;
    if !is_empty {
        path.push(node)?;
    }
    Ok(())
}

// Adds an element without attributes, the root or a child of the last of the open ones.
fn grow(
    alloc: Global,
    tree: &mut Option<Tree>,
    path: &[NodeId],
    tag: Text,
) -> Result<NodeId, NoMemory>
    requires grown { IsGrown tree.old (numbers_in path.now) }
    requires root { numbers_in path.now ≡ [] → items_or_none tree.old ≡ [] }
    requires room { length (items_or_none tree.old) < most_nodes }
    ensures added { OnOk result
        (tree.new ≡ Some (items_or_none tree.old
        ++ element_in (top_of (numbers_in path.now)) tag ∷ [])) }
    ensures number { IfOk result (λ node. node.0 ≡ length (items_or_none tree.old)) }
    ensures open { IfOk result (λ node. IsGrown tree.new (node.0 ∷ numbers_in path.now)) }
    ensures still { IsGrown tree.new (numbers_in path.now) }
{
    match path.last() {
        Some(parent) => grow_inside(tree, path, *parent, tag),
        None => {
            *tree = Some(Tree::with_root(alloc, tag)?);
            Ok(NodeId(0))
        }
    }
}

// Adds an element as a child of the last of the open ones, which is this one.
fn grow_inside(
    tree: &mut Option<Tree>,
    path: &[NodeId],
    parent: NodeId,
    tag: Text,
) -> Result<NodeId, NoMemory>
    requires grown { IsGrown tree.old (numbers_in path.now) }
    requires parent { top_of (numbers_in path.now) ≡ Some parent.0 }
    requires room { length (items_or_none tree.old) < most_nodes }
    ensures added { OnOk result
        (tree.new ≡ Some (items_or_none tree.old ++ element_in (Some parent.0) tag ∷ [])) }
    ensures number { IfOk result (λ node. node.0 ≡ length (items_or_none tree.old)) }
    ensures open { IfOk result (λ node. IsGrown tree.new (node.0 ∷ numbers_in path.now)) }
    ensures still { IsGrown tree.new (numbers_in path.now) }
{
    match tree {
        Some(tree) => {
            let node = tree.add_element(parent, tag)?;
            Ok(node)
        }
        None => unreachable!(),
    }
}

// Adds a text as a child of the last of the open elements.
fn grow_text(tree: &mut Option<Tree>, path: &[NodeId], text: Text) -> Result<(), NoMemory>
    requires grown { IsGrown tree.old (numbers_in path.now) }
    requires open { numbers_in path.now ≢ [] }
    requires room { length (items_or_none tree.old) < most_nodes }
    ensures added { OnOk result
        (tree.new ≡ Some (items_or_none tree.old
        ++ text_node_in (top_of (numbers_in path.now)) text ∷ [])) }
    ensures open { IsGrown tree.new (numbers_in path.now) }
    ensures err { OnErr result (tree.new ≡ tree.old) }
{
    match (tree, path.last()) {
        (Some(tree), Some(parent)) => {
            tree.add_text(*parent, text)?;
            Ok(())
        }
        _ => unreachable!(),
    }
}

// Gives an element that has none its attributes.
fn give_attributes(
    tree: &mut Option<Tree>,
    node: NodeId,
    attributes: &IndexMap<Text, Text>,
) -> Result<(), NoMemory>
    requires element { IfSome tree.old (λ items. IsElement items node.0) }
    requires plain { IfSome tree.old (λ items. attributes_of items node.0 ≡ []) }
    requires names { NamesDiffer [] (attributes_in_map attributes.now) }
    ensures ok { OnOk result
        (tree.new ≡ option_map
        (changed_at (with_attributes (attributes_in_map attributes.now)) node.0) tree.old) }
    ensures places { KeepsPlacesOf tree.old tree.new }
{
    match tree {
        Some(tree) => give_each(tree, node, attributes),
        None => Ok(()),
    }
}

// Gives an element that has none its attributes, one behind the other.
fn give_each(
    tree: &mut Tree,
    node: NodeId,
    attributes: &IndexMap<Text, Text>,
) -> Result<(), NoMemory>
    requires element { IsElement tree.old node.0 }
    requires plain { attributes_of tree.old node.0 ≡ [] }
    requires names { NamesDiffer [] (attributes_in_map attributes.now) }
    ensures ok { OnOk result
        (tree.new ≡ changed_at
        (with_attributes (attributes_in_map attributes.now)) node.0 tree.old) }
    ensures places { KeepsPlaces tree.old tree.new }
{
    let mut place = 0;
    'places: while place < attributes.len() {
        let entry = attribute_at(attributes, place)?;
        tree.add_attribute(node, entry.0, entry.1)?;
        place += 1;
    }
    Ok(())
}

// The attribute at a place in the order written.
fn attribute_at(attributes: &IndexMap<Text, Text>, place: usize) -> Result<(Text, Text), NoMemory>
    requires { place < length (attributes_in_map attributes.now) }
    ensures { IfOk result
        (λ entry. slice_get (attributes_in_map attributes.now) place
        ≡ Some (attribute_of_entry entry)) }
{
    match attributes.get_index(place) {
        Some((name, value)) => Ok((name.share()?, value.share()?)),
        None => unreachable!(),
    }
}
