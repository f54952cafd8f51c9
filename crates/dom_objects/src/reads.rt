//! What is read.

ghost use Rattle.std.specs.Prelude.{◌≡◌, ◌<◌, ◌++◌, false, true, length, IfOk};
ghost use Rattle.es_values.specs.Values.{is_plain};
ghost use Rattle.style_cascade.specs.StyledTrees.{AreStylesOf, styled_tree};
ghost use Rattle.dom_objects.specs.Reads.{element_rows, is_style, node_rows, own_rows, read_in, read_value, row_of, text_rows, walk_rows};

use crate::current_events::CurrentEvent;
use crate::elements::{element_value, own_value, text_value};
use crate::events::{document_value, event_value};
use crate::styles::style_value;
use crate::walks::neighbour;
use bml_bytes::{NoMemory, Text};
use dom_tree::{NodeId, Tree};
use es_values::{HostRef, Value};
use std::alloc::Global;
use style_cascade::{Focus, Styles};

/// The value that a name of a reference has: of the document, the current event, a node or a style
/// (after the DOM interfaces of BML, ARIB STD-B24 volume 2, in this project's own profile). A name
/// that has no row in the table reads as Undefined, and so does every name of the browser and its
/// registers. It reads the node of the reference alone, with one attribute of it at most, or asks
/// the styles for one value. After `NoMemory` the styles may have worked out more values.
#[tactic(auto, unfolding(crate::specs::Reads::read_value))]
pub fn get_node(
    alloc: Global,
    tree: &Tree,
    styles: &mut Styles,
    focus: &Focus,
    event: &CurrentEvent,
    base: HostRef,
    name: &Text,
) -> Result<Value, NoMemory>
    requires right { AreStylesOf tree.now focus.now styles.old }
    ensures value { IfOk result (λ value. value ≡ read_value (record {
      tree = styled_tree tree.now styles.old focus.now;
      event = event.now;
    }) base name.now) }
    ensures plain { IfOk result (λ value. is_plain value ≡ true) }
    ensures sources { styles.new.sources ≡ styles.old.sources }
    ensures unasked { is_style base ≡ false → styles.new ≡ styles.old }
    ensures right_still { AreStylesOf tree.now focus.now styles.new }
{
    match base {
        HostRef::Document => Ok(document_value(focus, event, name)),
        HostRef::Event => event_value(alloc, tree, event, name),
        HostRef::Node(number) => node_value(alloc, tree, NodeId(number), name),
        HostRef::Style(number, state) => {
            style_value(alloc, tree, styles, focus, NodeId(number), state, name)
        }
        HostRef::Browser | HostRef::Ureg | HostRef::Greg => Ok(Value::Undefined),
    }
}

// What a name of a node gives. It is Undefined where the node has no such name, and where the tree
// has no such node.
fn node_value(alloc: Global, tree: &Tree, node: NodeId, name: &Text) -> Result<Value, NoMemory>
    ensures { IfOk result (λ value. value ≡ read_in (node_rows tree.now node.0) name.now) }
{
    if !tree.contains(node) {
        return Ok(Value::Undefined);
    }
    let value = node_row(alloc, tree, node, name)?;
    Ok(value.unwrap_or(Value::Undefined))
}

// The same, and None where the node has no such name.
#[tactic(auto, unfolding(crate::specs::Reads::node_rows))]
fn node_row(
    alloc: Global,
    tree: &Tree,
    node: NodeId,
    name: &Text,
) -> Result<Option<Value>, NoMemory>
    requires { node.0 < length tree.now }
    ensures { IfOk result (λ value. value ≡ row_of name.now (node_rows tree.now node.0)) }
{
    match tree.tag(node) {
        Some(tag) => element_row(alloc, tree, node, tag, name),
        None => match tree.text(node) {
            Some(text) => text_row(tree, node, text, name),
            None => Ok(None),
        },
    }
}

fn element_row(
    alloc: Global,
    tree: &Tree,
    node: NodeId,
    tag: &Text,
    name: &Text,
) -> Result<Option<Value>, NoMemory>
    requires { node.0 < length tree.now }
    ensures { IfOk result (λ value. value ≡ row_of name.now (walk_rows tree.now node.0
        ++ (element_rows tree.now node.0 tag.now ++ own_rows tree.now node.0 tag.now))) }
{
    if let Some(value) = neighbour(tree, node, name) {
        return Ok(Some(value));
    }
    if let Some(value) = element_value(alloc, tree, node, tag, name)? {
        return Ok(Some(value));
    }
    own_value(alloc, tree, node, tag, name)
}

fn text_row(tree: &Tree, node: NodeId, text: &Text, name: &Text) -> Result<Option<Value>, NoMemory>
    requires { node.0 < length tree.now }
    ensures { IfOk result
        (λ value. value ≡ row_of name.now (walk_rows tree.now node.0 ++ text_rows text.now)) }
{
    if let Some(value) = neighbour(tree, node, name) {
        return Ok(Some(value));
    }
    text_value(text, name)
}
