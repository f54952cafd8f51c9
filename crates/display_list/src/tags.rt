//! What the elements of a document are to a display list, by their tags.

ghost use Rattle.std.specs.Prelude.{◌≡◌, ◌<◌, length};
ghost use Rattle.bml_bytes.specs.Words.{is_same};
ghost use Rattle.display_list.specs.Bodies.{is_body_tag};
ghost use Rattle.display_list.specs.Places.{has_tag, is_box_tag as spec_is_box_tag, is_break_tag, is_inline_tag as spec_is_inline_tag, is_input_tag, is_object_tag};

use bml_bytes::Text;
use dom_tree::{NodeId, Tree};

/// Whether the node is a `body`.
pub fn is_body(tree: &Tree, node: NodeId) -> bool
    requires { node.0 < length tree.now }
    ensures { result ≡ has_tag is_body_tag tree.now node.0 }
{
    is_tagged(tree, node, "body")
}

/// Whether the node is an `input`.
pub fn is_input(tree: &Tree, node: NodeId) -> bool
    requires { node.0 < length tree.now }
    ensures { result ≡ has_tag is_input_tag tree.now node.0 }
{
    is_tagged(tree, node, "input")
}

/// Whether the node is an `object`.
pub fn is_object(tree: &Tree, node: NodeId) -> bool
    requires { node.0 < length tree.now }
    ensures { result ≡ has_tag is_object_tag tree.now node.0 }
{
    is_tagged(tree, node, "object")
}

/// Whether the node is a `br`.
pub fn is_break(tree: &Tree, node: NodeId) -> bool
    requires { node.0 < length tree.now }
    ensures { result ≡ has_tag is_break_tag tree.now node.0 }
{
    is_tagged(tree, node, "br")
}

/// Whether the node is an element that has a box.
pub fn is_box(tree: &Tree, node: NodeId) -> bool
    requires { node.0 < length tree.now }
    ensures { result ≡ has_tag spec_is_box_tag tree.now node.0 }
{
    match tree.tag(node) {
        Some(tag) => is_box_tag(tag),
        None => false,
    }
}

/// Whether the node is an element inside a line of text.
pub fn is_inline(tree: &Tree, node: NodeId) -> bool
    requires { node.0 < length tree.now }
    ensures { result ≡ has_tag spec_is_inline_tag tree.now node.0 }
{
    match tree.tag(node) {
        Some(tag) => is_inline_tag(tag),
        None => false,
    }
}

// Whether the node is an element with this tag.
fn is_tagged(tree: &Tree, node: NodeId, word: &str) -> bool
    requires { node.0 < length tree.now }
    ensures { result ≡ has_tag (λ tag. is_same tag word.now) tree.now node.0 }
{
    match tree.tag(node) {
        Some(tag) => tag.is_word(word),
        None => false,
    }
}

fn is_box_tag(tag: &Text) -> bool
    ensures { result ≡ spec_is_box_tag tag.now }
{
    tag.is_word("body")
        || tag.is_word("div")
        || tag.is_word("p")
        || tag.is_word("input")
        || tag.is_word("object")
}

fn is_inline_tag(tag: &Text) -> bool
    ensures { result ≡ spec_is_inline_tag tag.now }
{
    tag.is_word("span") || tag.is_word("a")
}
