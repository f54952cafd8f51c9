//! One node of a tree, with the links to its neighbours.

ghost use Rattle.std.specs.Prelude.{◌≡◌, [], None};

use crate::map_copies::copied_attributes;
use crate::node_ids::NodeId;
use bml_bytes::{NoMemory, Text};
use indexmap::IndexMap;
use std::alloc::Global;

/// A node, the element that it hangs in, and its neighbours.
#[derive(Drop)]
pub struct Node {
    pub kind: NodeKind,
    pub parent: Option<NodeId>,
    pub first_child: Option<NodeId>,
    pub last_child: Option<NodeId>,
    pub next_sibling: Option<NodeId>,
    pub previous_sibling: Option<NodeId>,
}

impl Node {
    ghost use Rattle.std.specs.Prelude.{IsSome, OnOk, OnErr, IfOk, false};
    ghost use Rattle.std.specs.Option.{option_map_or};
    ghost use Rattle.bml_bytes.specs.Words.{is_same};
    ghost use Rattle.dom_tree.specs.Items.{tag_in, value_in, attributes_in, with_attribute};
    ghost use Rattle.dom_tree.specs.Links.{content_of, item_of, links_of};

    /// A node without children and with nothing behind it.
    pub fn last(kind: NodeKind, parent: Option<NodeId>, previous_sibling: Option<NodeId>) -> Node
        ensures { result ≡ record {
          kind = kind;
          parent = parent;
          first_child = None;
          last_child = None;
          next_sibling = None;
          previous_sibling = previous_sibling;
        } }
    {
        Node {
            kind,
            parent,
            first_child: None,
            last_child: None,
            next_sibling: None,
            previous_sibling,
        }
    }

    /// Gives an element's attribute a value, and answers the value that it had.
    pub fn put_attribute(&mut self, name: Text, value: Text) -> Result<Option<Text>, NoMemory>
        requires { IsSome (tag_in (content_of self.old.kind)) }
        ensures ok { OnOk result (item_of self.new ≡ with_attribute name value (item_of self.old)) }
        ensures had { IfOk result
            (λ had. had ≡ value_in (attributes_in (content_of self.old.kind)) name) }
        ensures err { OnErr result (item_of self.new ≡ item_of self.old) }
        ensures links { links_of self.new ≡ links_of self.old }
    {
        match &mut self.kind {
            NodeKind::Element(element) => element.put_attribute(name, value),
            NodeKind::Text(_) => unreachable!(),
        }
    }

    /// Whether it is an element whose attribute of this name has this value.
    pub fn has_value(&self, name: &Text, value: &Text) -> bool
        ensures { result
            ≡ option_map_or (is_same value.now)
            (value_in (attributes_in (content_of self.now.kind)) name.now) false }
    {
        match &self.kind {
            NodeKind::Element(element) => match element.attribute(name) {
                Some(found) => *value == *found,
                None => false,
            },
            NodeKind::Text(_) => false,
        }
    }

    /// The same node again, with shared texts.
    pub fn copy(&self) -> Result<Node, NoMemory>
        ensures item { IfOk result (λ node. item_of node ≡ item_of self.now) }
        ensures links { IfOk result (λ node. links_of node ≡ links_of self.now) }
    {
        let kind = self.kind.copy()?;
        Ok(Node {
            kind,
            parent: self.parent,
            first_child: self.first_child,
            last_child: self.last_child,
            next_sibling: self.next_sibling,
            previous_sibling: self.previous_sibling,
        })
    }
}

/// What a node is.
#[derive(Drop)]
pub enum NodeKind {
    Element(ElementNode),
    Text(Text),
}

impl NodeKind {
    ghost use Rattle.std.specs.Prelude.{IfOk};
    ghost use Rattle.dom_tree.specs.Items.Content.{Element};
    ghost use Rattle.dom_tree.specs.Links.{content_of};

    /// An element without attributes.
    pub fn element(alloc: Global, tag: Text) -> NodeKind
        ensures { content_of result ≡ Element tag [] }
    {
        NodeKind::Element(ElementNode {
            tag,
            attributes: IndexMap::new(alloc),
        })
    }

    /// The same again, with shared texts.
    pub fn copy(&self) -> Result<NodeKind, NoMemory>
        ensures { IfOk result (λ kind. content_of kind ≡ content_of self.now) }
    {
        match self {
            NodeKind::Element(element) => {
                let element = element.copy()?;
                Ok(NodeKind::Element(element))
            }
            NodeKind::Text(text) => {
                let text = text.share()?;
                Ok(NodeKind::Text(text))
            }
        }
    }
}

/// An element: its tag, and its attributes in the order written.
#[derive(Drop)]
pub struct ElementNode {
    pub tag: Text,
    pub attributes: IndexMap<Text, Text>,
}

impl ElementNode {
    ghost use Rattle.std.specs.Prelude.{OnOk, OnErr, IfOk, option_copied};
    ghost use Rattle.dom_tree.specs.Items.{value_in, with_value};
    ghost use Rattle.dom_tree.specs.Links.{attributes_in_map};

    /// The value of the attribute of this name.
    pub fn attribute(&self, name: &Text) -> Option<&Text>
        ensures { option_copied result ≡ value_in (attributes_in_map self.now.attributes) name.now }
    {
        self.attributes.get(name)
    }

    /// Gives an attribute a value, and answers the value that it had.
    pub fn put_attribute(&mut self, name: Text, value: Text) -> Result<Option<Text>, NoMemory>
        ensures tag { self.new.tag ≡ self.old.tag }
        ensures ok { OnOk result
            (attributes_in_map self.new.attributes
            ≡ with_value (attributes_in_map self.old.attributes) name value) }
        ensures had { IfOk result
            (λ had. had ≡ value_in (attributes_in_map self.old.attributes) name) }
        ensures err { OnErr result
            (attributes_in_map self.new.attributes ≡ attributes_in_map self.old.attributes) }
    {
        Ok(self.attributes.insert(name, value)?)
    }
    /// The same element again, with shared texts.
    pub fn copy(&self) -> Result<ElementNode, NoMemory>
        ensures tag { IfOk result (λ element. element.tag ≡ self.now.tag) }
        ensures attributes { IfOk result
            (λ element. element.attributes.entries ≡ self.now.attributes.entries) }
    {
        let tag = self.tag.share()?;
        let attributes = copied_attributes(&self.attributes)?;
        Ok(ElementNode { tag, attributes })
    }
}
