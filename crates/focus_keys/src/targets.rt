//! The elements that can have the focus, and those that are named.

ghost use Rattle.std.specs.Prelude.{◌≡◌, ◌<◌, ◌&&◌, ◌∷◌, [], length, IfSome};
ghost use Rattle.std.specs.Bool.{OnTrue};
ghost use Rattle.bml_bytes.specs.Words.{is_same};
ghost use Rattle.dom_tree.specs.Items.{IsElement};
ghost use Rattle.dom_tree.specs.NodeNumbers.{number_of};
ghost use Rattle.style_cascade.specs.StyledTrees.{AreStylesOf, styled_tree};
ghost use Rattle.focus_keys.specs.Targets.{access_target_of, can_have_focus, has_access_key as spec_has_access_key, is_visible_value, nav_target_of, normal_value as spec_normal_value};
ghost use Rattle.focus_keys.specs.Views.{has_focus_tag as spec_has_focus_tag, is_access_target as spec_is_access_target, is_nav_target as spec_is_nav_target};

use crate::tags::is_focus_tag;
use bml_bytes::Text;
use dom_tree::{NodeId, Tree};
use style_cascade::{Focus, State, Styles};
use style_reader::{Property, StyleValue};

/// Whether a node is an element that can have the focus: a `p`, `div`, `span`, `a`, `input` or
/// `object` whose nav-index is a number and that is visible, both in the normal state.
#[tactic(auto, unfolding(crate::specs::Targets::can_have_focus))]
pub fn is_focusable(tree: &Tree, styles: &mut Styles, focus: &Focus, node: NodeId) -> bool
    requires right { AreStylesOf tree.now focus.now styles.old }
    requires node { node.0 < length tree.now }
    ensures focusable { result
        ≡ can_have_focus (styled_tree tree.now styles.old focus.now) node.0 }
    ensures element { OnTrue result (IsElement tree.now node.0) }
    ensures sources { styles.new.sources ≡ styles.old.sources }
    ensures right_still { AreStylesOf tree.now focus.now styles.new }
{
    if !has_focus_tag(tree, node) {
        return false;
    }
    let index = normal_value(tree, styles, focus, node, Property::NavIndex);
    match index {
        StyleValue::Whole(_) => is_visible(tree, styles, focus, node),
        _ => false,
    }
}

/// The first element in document order that can have the focus and has this nav-index; None
/// exactly where there is none.
pub fn nav_target(tree: &Tree, styles: &mut Styles, focus: &Focus, number: i32) -> Option<NodeId>
    requires right { AreStylesOf tree.now focus.now styles.old }
    ensures target { number_of result
        ≡ nav_target_of (styled_tree tree.now styles.old focus.now) number }
    ensures within { IfSome result (λ node. IsElement tree.now node.0) }
    ensures sources { styles.new.sources ≡ styles.old.sources }
    ensures right_still { AreStylesOf tree.now focus.now styles.new }
{
    'nodes: for place in 0..tree.node_count() {
        let node = NodeId(place);
        if is_nav_target(tree, styles, focus, node, number) {
            return Some(node);
        }
    }
    None
}

/// The first element in document order that can have the focus and whose accesskey is this letter
/// alone; None exactly where there is none.
pub fn access_target(tree: &Tree, styles: &mut Styles, focus: &Focus, letter: u8) -> Option<NodeId>
    requires right { AreStylesOf tree.now focus.now styles.old }
    ensures target { number_of result
        ≡ access_target_of (styled_tree tree.now styles.old focus.now) (letter ∷ []) }
    ensures within { IfSome result (λ node. IsElement tree.now node.0) }
    ensures sources { styles.new.sources ≡ styles.old.sources }
    ensures right_still { AreStylesOf tree.now focus.now styles.new }
{
    'nodes: for number in 0..tree.node_count() {
        let node = NodeId(number);
        if is_access_target(tree, styles, focus, node, letter) {
            return Some(node);
        }
    }
    None
}

/// The value of a property of an element in the normal state.
pub fn normal_value(
    tree: &Tree,
    styles: &mut Styles,
    focus: &Focus,
    node: NodeId,
    property: Property,
) -> StyleValue
    requires element { IsElement tree.now node.0 }
    requires right { AreStylesOf tree.now focus.now styles.old }
    ensures value { result ≡ spec_normal_value
        (styled_tree tree.now styles.old focus.now) node.0 property }
    ensures sources { styles.new.sources ≡ styles.old.sources }
    ensures right_still { AreStylesOf tree.now focus.now styles.new }
{
    styles.get(tree, node, State::Normal, focus, property)
}

// Whether a node is an element that can have the focus and has this nav-index.
#[tactic(auto, unfolding(crate::specs::Targets::can_have_focus))]
fn is_nav_target(tree: &Tree, styles: &mut Styles, focus: &Focus, node: NodeId, number: i32) -> bool
    requires node { node.0 < length tree.now }
    requires right { AreStylesOf tree.now focus.now styles.old }
    ensures target { result ≡ spec_is_nav_target
        (styled_tree tree.now styles.old focus.now) number node.0 }
    ensures element { OnTrue result (IsElement tree.now node.0) }
    ensures sources { styles.new.sources ≡ styles.old.sources }
    ensures right_still { AreStylesOf tree.now focus.now styles.new }
{
    if !has_focus_tag(tree, node) {
        return false;
    }
    match normal_value(tree, styles, focus, node, Property::NavIndex) {
        StyleValue::Whole(index) if index == number => is_visible(tree, styles, focus, node),
        _ => false,
    }
}

// Whether a node is an element that can have the focus and has this letter alone as its accesskey.
fn is_access_target(
    tree: &Tree,
    styles: &mut Styles,
    focus: &Focus,
    node: NodeId,
    letter: u8,
) -> bool
    requires node { node.0 < length tree.now }
    requires right { AreStylesOf tree.now focus.now styles.old }
    ensures target { result ≡ spec_is_access_target
        (styled_tree tree.now styles.old focus.now) (letter ∷ []) node.0 }
    ensures element { OnTrue result (IsElement tree.now node.0) }
    ensures sources { styles.new.sources ≡ styles.old.sources }
    ensures right_still { AreStylesOf tree.now focus.now styles.new }
{
    if !has_access_key(tree, node, letter) {
        return false;
    }
    is_focusable(tree, styles, focus, node)
}

// Whether a node is an element of a tag that can have the focus.
fn has_focus_tag(tree: &Tree, node: NodeId) -> bool
    requires { node.0 < length tree.now }
    ensures tag { result ≡ spec_has_focus_tag tree.now node.0 }
    ensures element { OnTrue result (IsElement tree.now node.0) }
{
    match tree.tag(node) {
        Some(tag) => is_focus_tag(tag),
        None => false,
    }
}

// Whether an element is visible in the normal state.
fn is_visible(tree: &Tree, styles: &mut Styles, focus: &Focus, node: NodeId) -> bool
    requires element { IsElement tree.now node.0 }
    requires right { AreStylesOf tree.now focus.now styles.old }
    ensures visible { result ≡ is_visible_value (spec_normal_value
        (styled_tree tree.now styles.old focus.now) node.0 Property.Visibility) }
    ensures sources { styles.new.sources ≡ styles.old.sources }
    ensures right_still { AreStylesOf tree.now focus.now styles.new }
{
    let value = normal_value(tree, styles, focus, node, Property::Visibility);
    matches!(value, StyleValue::Visible)
}

// Whether the accesskey of a node is this letter alone. A text has none.
fn has_access_key(tree: &Tree, node: NodeId, letter: u8) -> bool
    requires { node.0 < length tree.now }
    ensures { result ≡ spec_has_access_key tree.now (letter ∷ []) node.0 }
{
    'attributes: for place in 0..tree.attribute_count(node) {
        if let Some((name, value)) = tree.attribute_at(node, place) {
            if name.is_word("accesskey") {
                return is_letter(value, letter);
            }
        }
    }
    false
}

// Whether a text is this letter alone.
fn is_letter(text: &Text, letter: u8) -> bool
    ensures { result ≡ is_same (letter ∷ []) text.now }
{
    let word = [u16::from(letter)];
    word.as_slice() == text.codes()
}
