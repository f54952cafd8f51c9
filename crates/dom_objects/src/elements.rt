//! What is read of elements and of texts.

ghost use Rattle.std.specs.Prelude.{◌≡◌, ◌<◌, ℕ, List, All, IfOk, Some, is_some, length};
ghost use Rattle.dom_tree.specs.Items.{Item, tag_of};
ghost use Rattle.dom_objects.specs.Reads.{attribute_value as spec_attribute_value, element_rows, is_input_tag as spec_is_input_tag, is_object_tag as spec_is_object_tag, own_rows, row_of, text_rows};

use crate::styles::style_of;
use crate::texts::ascii_text;
use bml_bytes::{NoMemory, Text};
use dom_tree::{NodeId, Tree};
use es_values::{Num, Value};
use std::alloc::Global;
use style_cascade::State;

/// Whether the tree has a node of this number, and it is an element.
pub fn is_element(tree: &Tree, node: NodeId) -> bool
    ensures { result ≡ is_some (tag_of tree.now node.0) }
{
    tree.contains(node) && tree.tag(node).is_some()
}

/// Whether a tag is that of an object.
pub fn is_object_tag(tag: &Text) -> bool
    ensures { result ≡ spec_is_object_tag tag.now }
{
    tag.is_word("object")
}

/// Whether a tag is that of an input.
pub fn is_input_tag(tag: &Text) -> bool
    ensures { result ≡ spec_is_input_tag tag.now }
{
    tag.is_word("input")
}

/// What a name of a text gives: its codes, or their number. It is None where the name is neither.
/// (DOM level 1, CharacterData.)
pub fn text_value(text: &Text, name: &Text) -> Result<Option<Value>, NoMemory>
    ensures { IfOk result (λ value. value ≡ row_of name.now (text_rows text.now)) }
{
    if name.is_word("data") {
        text_row(text)
    } else if name.is_word("length") {
        Ok(Some(Value::Number(Num::of_count(text.len()))))
    } else {
        Ok(None)
    }
}

/// What a name that all elements have gives: the tag, an attribute or a style. It is None where
/// the name is none of these. (DOM level 1, Element and HTMLElement, and the styles of BML.)
pub fn element_value(
    alloc: Global,
    tree: &Tree,
    node: NodeId,
    tag: &Text,
    name: &Text,
) -> Result<Option<Value>, NoMemory>
    requires { node.0 < length tree.now }
    ensures { IfOk result
        (λ value. value ≡ row_of name.now (element_rows tree.now node.0 tag.now)) }
{
    if name.is_word("tagName") {
        text_row(tag)
    } else if name.is_word("id") {
        attribute_row(alloc, tree, node, b"id")
    } else if name.is_word("className") {
        attribute_row(alloc, tree, node, b"class")
    } else if name.is_word("accessKey") {
        attribute_row(alloc, tree, node, b"accesskey")
    } else if name.is_word("normalStyle") {
        Ok(Some(style_of(node, State::Normal)))
    } else if name.is_word("focusStyle") {
        Ok(Some(style_of(node, State::Focus)))
    } else if name.is_word("activeStyle") {
        Ok(Some(style_of(node, State::Active)))
    } else {
        Ok(None)
    }
}

/// What a name that only an object or only an input has gives: the value of the attribute of that
/// name. It is None where the element has no such name.
pub fn own_value(
    alloc: Global,
    tree: &Tree,
    node: NodeId,
    tag: &Text,
    name: &Text,
) -> Result<Option<Value>, NoMemory>
    requires { node.0 < length tree.now }
    ensures { IfOk result (λ value. value ≡ row_of name.now (own_rows tree.now node.0 tag.now)) }
{
    if is_own_name(tag, name) {
        Ok(Some(attribute_value(alloc, tree, node, name)?))
    } else {
        Ok(None)
    }
}

// Whether elements of the tag have a name that not all elements have.
fn is_own_name(tag: &Text, name: &Text) -> bool
    ensures { (items : List Item) (node : ℕ) →
        result ≡ is_some (row_of name.now (own_rows items node tag.now)) }
{
    if is_object_tag(tag) {
        name.is_word("data") || name.is_word("type")
    } else {
        is_input_tag(tag) && name.is_word("value")
    }
}

// A row that gives a text.
fn text_row(text: &Text) -> Result<Option<Value>, NoMemory>
    ensures { IfOk result (λ value. value ≡ Some (Value.Str text.now)) }
{
    Ok(Some(Value::Str(text.share()?)))
}

/// The value of an attribute whose name is ASCII, of a node of this number: the empty text where there
/// is no such node, or it lacks the attribute.
pub fn attribute_of(
    alloc: Global,
    tree: &Tree,
    node: NodeId,
    name: &[u8],
) -> Result<Value, NoMemory>
    requires ascii { All (λ byte. byte < 128) name.now }
    ensures { IfOk result (λ value. value ≡ spec_attribute_value tree.now node.0 name.now) }
{
    if !tree.contains(node) {
        return Ok(Value::Str(Text::of_codes(alloc, &[])?));
    }
    let name = ascii_text(alloc, name)?;
    attribute_value(alloc, tree, node, &name)
}

// A row that gives an attribute whose name is ASCII.
fn attribute_row(
    alloc: Global,
    tree: &Tree,
    node: NodeId,
    name: &[u8],
) -> Result<Option<Value>, NoMemory>
    requires node { node.0 < length tree.now }
    requires ascii { All (λ byte. byte < 128) name.now }
    ensures { IfOk result
        (λ value. value ≡ Some (spec_attribute_value tree.now node.0 name.now)) }
{
    let name = ascii_text(alloc, name)?;
    let value = attribute_value(alloc, tree, node, &name)?;
    Ok(Some(value))
}

// The value of an attribute, which is the empty text where the element lacks it.
fn attribute_value(alloc: Global, tree: &Tree, node: NodeId, name: &Text) -> Result<Value, NoMemory>
    requires { node.0 < length tree.now }
    ensures { IfOk result (λ value. value ≡ spec_attribute_value tree.now node.0 name.now) }
{
    match tree.attribute(node, name) {
        Some(value) => Ok(Value::Str(value.share()?)),
        None => Ok(Value::Str(Text::of_codes(alloc, &[])?)),
    }
}
