//! What is written.

ghost use Rattle.std.specs.Prelude.{◌≡◌, ◌&&◌, ℕ, false, is_some, codes, OnOk, OnErr};
ghost use Rattle.std.specs.Option.{option_map_or};
ghost use Rattle.bml_bytes.specs.Words.{is_same};
ghost use Rattle.dom_tree.specs.Items.{tag_of, text_of};
ghost use Rattle.dom_tree.specs.Walks.{KeepsPlaces};
ghost use Rattle.style_cascade.specs.Keeping.{IsRight, StylesState};
ghost use Rattle.style_cascade.specs.declared.states.State.{State};
ghost use Rattle.dom_objects.specs.Writes.{change_of, changed_items, changed_sources, is_of_style, is_written, node_change, style_change};

use crate::elements::{is_element, is_input_tag, is_object_tag};
use crate::styles::{property_named, state_of_number};
use bml_bytes::{NoMemory, Text};
use dom_tree::{NodeId, Tree};
use es_values::HostRef;
use style_cascade::{Styles, law_of_attribute_writes, law_of_text_writes};
use style_reader::{law_of_values, value_of};

/// Writes a text under a name of a reference: the text of a text node, `data` of an object, `value`
/// of an input, and the properties of a style by the names that scripts give them (after the DOM
/// interfaces of BML, ARIB STD-B24 volume 2, in this project's own profile). Each other write
/// changes nothing, and so does a text that is no value of its property.
#[tactic(auto, unfolding(crate::specs::Writes::change_of))]
pub fn set_node(
    tree: &mut Tree,
    styles: &mut Styles,
    base: HostRef,
    name: &Text,
    text: &Text,
) -> Result<(), NoMemory>
    requires right { (states : ℕ → State) × IsRight tree.old states styles.old }
    ensures tree { OnOk result
        (tree.new ≡ changed_items (change_of tree.old base name.now text.now) tree.old) }
    ensures sources { OnOk result (styles.new.sources
        ≡ changed_sources (change_of tree.old base name.now text.now) styles.old.sources) }
    ensures places { KeepsPlaces tree.old tree.new }
    ensures right { (states : ℕ → State) → IsRight tree.old states styles.old
        → IsRight tree.new states styles.new }
    ensures err { OnErr result ((tree.new ≡ tree.old) × (styles.new ≡ styles.old)) }
    ensures unwritten { is_of_style (change_of tree.old base name.now text.now) ≡ false
        → styles.new ≡ styles.old }
    ensures worked { styles.new.worked ≡ styles.old.worked }
{
    match base {
        HostRef::Node(number) => set_member(tree, NodeId(number), name, text),
        HostRef::Style(number, state) => {
            set_style(tree, styles, NodeId(number), state, name, text);
            Ok(())
        }
        _ => Ok(()),
    }
}

// Writes a text of a text node, or the attribute of an element that the name writes to.
#[tactic(auto, unfolding(crate::specs::Writes::node_change))]
fn set_member(tree: &mut Tree, node: NodeId, name: &Text, text: &Text) -> Result<(), NoMemory>
    ensures tree { OnOk result
        (tree.new ≡ changed_items (node_change tree.old node.0 name.now text.now) tree.old) }
    ensures places { KeepsPlaces tree.old tree.new }
    ensures right { (states : ℕ → State) (styles : StylesState) →
        IsRight tree.old states styles → IsRight tree.new states styles }
    ensures err { OnErr result (tree.new ≡ tree.old) }
{
    if writes_attribute(tree, node, name) {
        let text = text.share()?;
        law_of_attribute_writes();
        tree.set_attribute(node, name, text)
    } else if writes_text(tree, node, name) {
        let text = text.share()?;
        law_of_text_writes();
        tree.set_text(node, text);
        Ok(())
    } else {
        Ok(())
    }
}

// Writes a property of an element's style in the state of this number.
#[tactic(auto, unfolding(crate::specs::Writes::style_change))]
fn set_style(tree: &Tree, styles: &mut Styles, node: NodeId, number: u8, name: &Text, text: &Text)
    requires right { (states : ℕ → State) × IsRight tree.now states styles.old }
    ensures sources { styles.new.sources ≡ changed_sources
        (style_change tree.now node.0 number name.now text.now) styles.old.sources }
    ensures right { (states : ℕ → State) →
        IsRight tree.now states styles.old → IsRight tree.now states styles.new }
    ensures unwritten { is_of_style (style_change tree.now node.0 number name.now text.now) ≡ false
        → styles.new ≡ styles.old }
    ensures worked { styles.new.worked ≡ styles.old.worked }
{
    if !is_element(tree, node) {
        return;
    }
    if let (Some(state), Some(property)) = (state_of_number(number), property_named(name)) {
        if let Some(value) = value_of(property, text) {
            law_of_values();
            styles.set(tree, node, state, property, value);
        }
    }
}

// Whether the node is an element, and the name writes to the attribute of that name.
fn writes_attribute(tree: &Tree, node: NodeId, name: &Text) -> bool
    ensures { result
        ≡ option_map_or (λ tag. is_written tag name.now) (tag_of tree.now node.0) false }
{
    if !tree.contains(node) {
        return false;
    }
    match tree.tag(node) {
        Some(tag) => is_written_name(tag, name),
        None => false,
    }
}

// Whether the name writes to the attribute of that name where an element has this tag.
fn is_written_name(tag: &Text, name: &Text) -> bool
    ensures { result ≡ is_written tag.now name.now }
{
    if is_object_tag(tag) {
        name.is_word("data")
    } else {
        is_input_tag(tag) && name.is_word("value")
    }
}

// Whether the node is a text, and the name writes to it.
fn writes_text(tree: &Tree, node: NodeId, name: &Text) -> bool
    ensures { result ≡ (is_some (text_of tree.now node.0) && is_same name.now (codes "data")) }
{
    tree.contains(node) && tree.text(node).is_some() && name.is_word("data")
}
