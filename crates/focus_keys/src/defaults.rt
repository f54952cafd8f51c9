//! What a key does by default.

ghost use Rattle.std.specs.Prelude.{◌≡◌, ◌∷◌, [], IfSome};
ghost use Rattle.dom_tree.specs.Items.{IsElement};
ghost use Rattle.style_cascade.specs.StyledTrees.{AreStylesOf, styled_tree};
ghost use Rattle.focus_keys.specs.Defaults.{access_by as spec_access_by, action_at, action_of, move_from as spec_move_from};
ghost use Rattle.focus_keys.specs.Views.{named_node, seen_default};

use crate::keys::Key;
use crate::targets::{access_target, nav_target, normal_value};
use dom_tree::{NodeId, Tree};
use style_cascade::{Focus, Styles};
use style_reader::{Property, StyleValue};

/// What a key does by default.
#[derive(Clone, Copy, Debug, PartialEq, Eq)]
pub enum KeyDefault {
    Nothing,
    /// The focus moves to this element, which may be the one that has it.
    Move(NodeId),
    /// The focus, which is this element, becomes active and is clicked.
    Activate(NodeId),
    /// This element is given the focus and is clicked.
    Access(NodeId),
}

/// What the key of this number does by default (after the default actions of BML, ARIB STD-B24
/// volume 2): an arrow moves the focus to the element that the focus names by its nav-up, nav-down,
/// nav-left or nav-right in the normal state, enter activates the focus, and a colour key looks for
/// its letter. Other numbers do nothing, and where nothing has the focus no key does.
#[tactic(auto, unfolding(crate::specs::Defaults::action_of))]
pub fn default_of(code: u8, tree: &Tree, styles: &mut Styles, focus: &Focus) -> KeyDefault
    requires right { AreStylesOf tree.now focus.now styles.old }
    requires focus { IfSome focus.now.focus (λ node. IsElement tree.now node.0) }
    ensures action { seen_default result
        ≡ action_of (styled_tree tree.now styles.old focus.now) code }
    ensures within { IfSome (named_node result) (λ node. IsElement tree.now node.0) }
    ensures sources { styles.new.sources ≡ styles.old.sources }
    ensures right_still { AreStylesOf tree.now focus.now styles.new }
{
    let Some(node) = focus.focus else {
        return KeyDefault::Nothing;
    };
    match Key::of_number(code) {
        Some(key) => default_at(node, key, tree, styles, focus),
        None => KeyDefault::Nothing,
    }
}

// What a key does where this element has the focus.
#[tactic(auto, unfolding(crate::specs::Defaults::action_at))]
fn default_at(node: NodeId, key: Key, tree: &Tree, styles: &mut Styles, focus: &Focus) -> KeyDefault
    requires right { AreStylesOf tree.now focus.now styles.old }
    requires element { IsElement tree.now node.0 }
    ensures action { seen_default result
        ≡ action_at (styled_tree tree.now styles.old focus.now) node.0 key }
    ensures within { IfSome (named_node result) (λ node. IsElement tree.now node.0) }
    ensures sources { styles.new.sources ≡ styles.old.sources }
    ensures right_still { AreStylesOf tree.now focus.now styles.new }
{
    match key {
        Key::Up => move_from(tree, styles, focus, node, Property::NavUp),
        Key::Down => move_from(tree, styles, focus, node, Property::NavDown),
        Key::Left => move_from(tree, styles, focus, node, Property::NavLeft),
        Key::Right => move_from(tree, styles, focus, node, Property::NavRight),
        Key::Enter => KeyDefault::Activate(node),
        Key::Blue => access_by(tree, styles, focus, b'B'),
        Key::Red => access_by(tree, styles, focus, b'R'),
        Key::Green => access_by(tree, styles, focus, b'G'),
        Key::Yellow => access_by(tree, styles, focus, b'Y'),
        _ => KeyDefault::Nothing,
    }
}

// What an arrow does that looks in this property of the focus.
fn move_from(
    tree: &Tree,
    styles: &mut Styles,
    focus: &Focus,
    node: NodeId,
    property: Property,
) -> KeyDefault
    requires right { AreStylesOf tree.now focus.now styles.old }
    requires element { IsElement tree.now node.0 }
    ensures action { seen_default result
        ≡ spec_move_from (styled_tree tree.now styles.old focus.now) node.0 property }
    ensures within { IfSome (named_node result) (λ node. IsElement tree.now node.0) }
    ensures sources { styles.new.sources ≡ styles.old.sources }
    ensures right_still { AreStylesOf tree.now focus.now styles.new }
{
    let StyleValue::Whole(number) = normal_value(tree, styles, focus, node, property) else {
        return KeyDefault::Nothing;
    };
    match nav_target(tree, styles, focus, number) {
        Some(target) => KeyDefault::Move(target),
        None => KeyDefault::Nothing,
    }
}

// What a colour key does that looks for this letter.
fn access_by(tree: &Tree, styles: &mut Styles, focus: &Focus, letter: u8) -> KeyDefault
    requires right { AreStylesOf tree.now focus.now styles.old }
    ensures action { seen_default result
        ≡ spec_access_by (styled_tree tree.now styles.old focus.now) (letter ∷ []) }
    ensures within { IfSome (named_node result) (λ node. IsElement tree.now node.0) }
    ensures sources { styles.new.sources ≡ styles.old.sources }
    ensures right_still { AreStylesOf tree.now focus.now styles.new }
{
    match access_target(tree, styles, focus, letter) {
        Some(target) => KeyDefault::Access(target),
        None => KeyDefault::Nothing,
    }
}
