//! What the styles of a document's elements say of their boxes and texts.

ghost use Rattle.std.specs.Prelude.{◌≡◌, ◌+◌, ◌<◌, ◌≤◌, length, IfOk, IsTrue};
ghost use Rattle.dom_tree.specs.Items.{IsElement};
ghost use Rattle.style_reader.specs.Values.{fits as spec_fits};
ghost use Rattle.style_cascade.specs.Keeping.{IsRight, owed};
ghost use Rattle.style_cascade.specs.States.{present_state};
ghost use Rattle.display_list.specs.Shown.{is_visible_value, no_style, node_style, number_in, present_value, shown_by, style_of};

use bml_bytes::NoMemory;
use dom_tree::{NodeId, Tree};
use std::alloc::Global;
use style_cascade::{Focus, Styles};
use style_reader::{Property, StyleValue};

/// What the style of an element says in the element's present state: pixels, and numbers of colours.
#[derive(Clone, Copy)]
pub struct NodeStyle {
    pub left: i16,
    pub top: i16,
    pub width: i16,
    pub height: i16,
    /// At which level the element is drawn: the lowest is drawn first.
    pub level: i16,
    pub is_visible: bool,
    pub color: i16,
    pub font_size: i16,
    pub background: i16,
    pub border_width: i16,
    pub border_color: i16,
}

/// The style of each node, in document order.
pub fn node_styles_of(
    alloc: Global,
    tree: &Tree,
    styles: &mut Styles,
    focus: &Focus,
) -> Result<Vec<NodeStyle>, NoMemory>
    requires { IsRight tree.now (present_state focus.now) styles.old }
    ensures ok { IfOk result
        (λ node_styles. node_styles.items
        ≡ (shown_by tree.now styles.old.sources focus.now).styles) }
    ensures sources { styles.new.sources ≡ styles.old.sources }
    ensures owed { styles.new.worked + owed tree.now (present_state focus.now) styles.new
        ≤ styles.old.worked + owed tree.now (present_state focus.now) styles.old }
    ensures right { IsRight tree.now (present_state focus.now) styles.new }
{
    let count = tree.node_count();
    let mut node_styles = Vec::with_capacity(alloc, count as usize)?;
    'nodes: for number in 0..count {
        node_styles.push(NodeStyle::at(tree, styles, focus, NodeId(number)))?;
    }
    Ok(node_styles)
}

impl NodeStyle {
    // The style of a node. A text has no style of its own.
    fn at(tree: &Tree, styles: &mut Styles, focus: &Focus, node: NodeId) -> NodeStyle
        requires node { node.0 < length tree.now }
        requires right { IsRight tree.now (present_state focus.now) styles.old }
        ensures style { result
            ≡ node_style (present_value tree.now styles.old.sources focus.now) tree.now node.0 }
        ensures sources { styles.new.sources ≡ styles.old.sources }
        ensures owed { styles.new.worked + owed tree.now (present_state focus.now) styles.new
            ≤ styles.old.worked + owed tree.now (present_state focus.now) styles.old }
        ensures right { IsRight tree.now (present_state focus.now) styles.new }
    {
        match tree.tag(node) {
            Some(_) => NodeStyle::of(tree, styles, focus, node),
            None => NodeStyle::none(),
        }
    }

    // The style of an element.
    fn of(tree: &Tree, styles: &mut Styles, focus: &Focus, node: NodeId) -> NodeStyle
        requires element { IsElement tree.now node.0 }
        requires right { IsRight tree.now (present_state focus.now) styles.old }
        ensures style { result
            ≡ style_of (present_value tree.now styles.old.sources focus.now node.0) }
        ensures sources { styles.new.sources ≡ styles.old.sources }
        ensures owed { styles.new.worked + owed tree.now (present_state focus.now) styles.new
            ≤ styles.old.worked + owed tree.now (present_state focus.now) styles.old }
        ensures right { IsRight tree.now (present_state focus.now) styles.new }
    {
        NodeStyle {
            left: number(tree, styles, focus, node, Property::Left),
            top: number(tree, styles, focus, node, Property::Top),
            width: number(tree, styles, focus, node, Property::Width),
            height: number(tree, styles, focus, node, Property::Height),
            level: number(tree, styles, focus, node, Property::ZIndex),
            is_visible: is_visible(tree, styles, focus, node),
            color: number(tree, styles, focus, node, Property::ColorIndex),
            font_size: number(tree, styles, focus, node, Property::FontSize),
            background: number(tree, styles, focus, node, Property::BackgroundColorIndex),
            border_width: number(tree, styles, focus, node, Property::BorderWidth),
            border_color: number(tree, styles, focus, node, Property::BorderColorIndex),
        }
    }

    // That of a text.
    fn none() -> NodeStyle
        ensures { result ≡ no_style }
    {
        NodeStyle {
            left: 0,
            top: 0,
            width: 0,
            height: 0,
            level: 0,
            is_visible: false,
            color: 0,
            font_size: 0,
            background: 0,
            border_width: 0,
            border_color: 0,
        }
    }
}

// The number that an element has for a property in its present state.
fn number(tree: &Tree, styles: &mut Styles, focus: &Focus, node: NodeId, property: Property) -> i16
    requires element { IsElement tree.now node.0 }
    requires right { IsRight tree.now (present_state focus.now) styles.old }
    ensures number { result ≡ number_in
        (present_value tree.now styles.old.sources focus.now node.0 property) }
    ensures sources { styles.new.sources ≡ styles.old.sources }
    ensures owed { styles.new.worked + owed tree.now (present_state focus.now) styles.new
        ≤ styles.old.worked + owed tree.now (present_state focus.now) styles.old }
    ensures right { IsRight tree.now (present_state focus.now) styles.new }
{
    let value = styles.get(tree, node, focus.state_of(node), focus, property);
    number_of_value(property, value)
}

// Whether an element is visible in its present state.
fn is_visible(tree: &Tree, styles: &mut Styles, focus: &Focus, node: NodeId) -> bool
    requires element { IsElement tree.now node.0 }
    requires right { IsRight tree.now (present_state focus.now) styles.old }
    ensures visible { result ≡ is_visible_value
        (present_value tree.now styles.old.sources focus.now node.0 Property.Visibility) }
    ensures sources { styles.new.sources ≡ styles.old.sources }
    ensures owed { styles.new.worked + owed tree.now (present_state focus.now) styles.new
        ≤ styles.old.worked + owed tree.now (present_state focus.now) styles.old }
    ensures right { IsRight tree.now (present_state focus.now) styles.new }
{
    let value = styles.get(
        tree,
        node,
        focus.state_of(node),
        focus,
        Property::Visibility,
    );
    matches!(value, StyleValue::Visible)
}

// The number that a value of a property is, and 0 of a word.
fn number_of_value(property: Property, value: StyleValue) -> i16
    requires { IsTrue (spec_fits property value) }
    ensures { result ≡ number_in value }
{
    match value {
        StyleValue::Whole(number) => number as i16,
        _ => 0,
    }
}
