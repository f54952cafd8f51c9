//! The display list of a document.

ghost use Rattle.std.specs.Prelude.{◌≡◌, ◌+◌, ◌<◌, ◌≤◌, ◌++◌, codes, length, IfSome, OnOk};
ghost use Rattle.std.specs.Io.{StartsWith};
ghost use Rattle.std.specs.List.{flat_map};
ghost use Rattle.dom_tree.specs.Items.{IsElement};
ghost use Rattle.dom_tree.specs.NodeNumbers.{number_of};
ghost use Rattle.style_cascade.specs.Keeping.{IsRight, owed};
ghost use Rattle.style_cascade.specs.States.{present_state};
ghost use Rattle.display_list.specs.Shown.{shown_by};
ghost use Rattle.display_list.specs.Places.{boxes_of};
ghost use Rattle.display_list.specs.Show.{attribute_field, display_lines, element_lines, focus_lines, focus_lines_of, hanging_lines, held_lines, input_lines, inside_lines, object_line, text_lines};
ghost use Rattle.display_list.specs.devices.Views.{shown_in, shown_of, IsScene};

use crate::lines::{
    push_box_line, push_break_line, push_field, push_focus_line, push_picture_front, push_text_line,
};
use crate::node_styles::{NodeStyle, node_styles_of};
use crate::places::Place;
use crate::scenes::Scene;
use crate::tags::{is_break, is_input, is_object};
use bml_bytes::{NoMemory, Text, law_of_fronts, push_line_end, push_word};
use dom_tree::{NodeId, Tree, law_of_parents, law_of_paths};
use style_cascade::{Focus, Styles};

/// Writes the display lists of documents.
#[derive(Debug, Drop)]
pub struct Shower;

impl Shower {
    /// It takes no memory.
    pub fn new() -> Shower {
        Shower
    }

    /// Appends the display list of a document: a line for each element that is drawn, the lines of
    /// the texts and the picture in it, and last a line for the focus. What it shows is worked out
    /// from the tree, the styles and the focus alone. Each value is asked for in the present state
    /// of its element, so that no more values are worked out than are owed: those that aren't kept
    /// yet. After `NoMemory` a front of these lines may stand behind what `out` held.
    pub fn show(
        &mut self,
        tree: &Tree,
        styles: &mut Styles,
        focus: &Focus,
        out: &mut Vec<u8>,
    ) -> Result<(), NoMemory>
        requires right { IsRight tree.now (present_state focus.now) styles.old }
        requires focus { IfSome focus.now.focus (λ node. IsElement tree.now node.0) }
        ensures ok { OnOk result (out.new.items ≡ out.old.items ++ display_lines
            (shown_by tree.now styles.old.sources focus.now) (number_of focus.now.focus)) }
        ensures grows { StartsWith out.new.items out.old.items }
        ensures sources { styles.new.sources ≡ styles.old.sources }
        ensures worked { styles.new.worked
            ≤ styles.old.worked + owed tree.now (present_state focus.now) styles.old }
        ensures owed { styles.new.worked + owed tree.now (present_state focus.now) styles.new
            ≤ styles.old.worked + owed tree.now (present_state focus.now) styles.old }
        ensures right_still { IsRight tree.now (present_state focus.now) styles.new }
    {
        law_of_fronts();
        let alloc = *out.allocator();
        let node_styles = node_styles_of(alloc, tree, styles, focus)?;
        push_styled(tree, node_styles, focus.focus, out)
    }
}

// Appends the lines of a document whose nodes have these styles.
fn push_styled(
    tree: &Tree,
    styles: Vec<NodeStyle>,
    focus: Option<NodeId>,
    out: &mut Vec<u8>,
) -> Result<(), NoMemory>
    requires styles { length styles.items ≡ length tree.now }
    requires focus { IfSome focus (λ node. node.0 < length tree.now) }
    ensures ok { OnOk result (out.new.items
        ≡ out.old.items ++ display_lines (shown_in tree.now styles.items) (number_of focus)) }
    ensures grows { StartsWith out.new.items out.old.items }
{
    law_of_fronts();
    let scene = Scene::new(*out.allocator(), tree, styles)?;
    push_scene(&scene, focus, out)
}

// Appends the lines of a document.
fn push_scene(scene: &Scene, focus: Option<NodeId>, out: &mut Vec<u8>) -> Result<(), NoMemory>
    requires scene { IsScene scene.now }
    requires focus { IfSome focus (λ node. node.0 < length scene.now.tree.now) }
    ensures ok { OnOk result (out.new.items
        ≡ out.old.items ++ display_lines (shown_of scene.now) (number_of focus)) }
    ensures grows { StartsWith out.new.items out.old.items }
{
    law_of_fronts();
    push_boxes(scene, out)?;
    push_focus(scene, focus, out)?;
    Ok(())
}

// Appends the boxes of a document.
fn push_boxes(scene: &Scene, out: &mut Vec<u8>) -> Result<(), NoMemory>
    requires { IsScene scene.now }
    ensures ok { OnOk result (out.new.items
        ≡ out.old.items
        ++ flat_map (element_lines (shown_of scene.now)) (boxes_of (shown_of scene.now))) }
    ensures grows { StartsWith out.new.items out.old.items }
{
    law_of_fronts();
    let boxes = scene.boxes(*out.allocator())?;
    'boxes: for drawn in &boxes {
        push_element(scene, drawn.node, out)?;
    }
    Ok(())
}

// Appends the line of the focus, where there is one and it is visible.
fn push_focus(scene: &Scene, focus: Option<NodeId>, out: &mut Vec<u8>) -> Result<(), NoMemory>
    requires scene { IsScene scene.now }
    requires focus { IfSome focus (λ node. node.0 < length scene.now.tree.now) }
    ensures ok { OnOk result
        (out.new.items ≡ out.old.items ++ focus_lines (shown_of scene.now) (number_of focus)) }
    ensures grows { StartsWith out.new.items out.old.items }
{
    match focus {
        Some(node) => push_focused(scene, node, out),
        None => Ok(()),
    }
}

fn push_focused(scene: &Scene, node: NodeId, out: &mut Vec<u8>) -> Result<(), NoMemory>
    requires scene { IsScene scene.now }
    requires node { node.0 < length scene.now.tree.now }
    ensures ok { OnOk result
        (out.new.items ≡ out.old.items ++ focus_lines_of (shown_of scene.now) node.0) }
    ensures grows { StartsWith out.new.items out.old.items }
{
    if scene.style(node).is_visible {
        push_focus_line(scene.place(node), out)
    } else {
        Ok(())
    }
}

// Appends a box and what stands in it.
fn push_element(scene: &Scene, node: NodeId, out: &mut Vec<u8>) -> Result<(), NoMemory>
    requires scene { IsScene scene.now }
    requires node { node.0 < length scene.now.tree.now }
    ensures ok { OnOk result
        (out.new.items ≡ out.old.items ++ element_lines (shown_of scene.now) node.0) }
    ensures grows { StartsWith out.new.items out.old.items }
{
    law_of_fronts();
    push_box_line(scene.place(node), scene.style(node), out)?;
    push_inside(scene, node, out)?;
    Ok(())
}

// Appends what stands in a box.
fn push_inside(scene: &Scene, node: NodeId, out: &mut Vec<u8>) -> Result<(), NoMemory>
    requires scene { IsScene scene.now }
    requires node { node.0 < length scene.now.tree.now }
    ensures ok { OnOk result
        (out.new.items ≡ out.old.items ++ inside_lines (shown_of scene.now) node.0) }
    ensures grows { StartsWith out.new.items out.old.items }
{
    if is_input(scene.tree, node) {
        push_input(scene, node, out)
    } else if is_object(scene.tree, node) {
        push_object(scene, node, out)
    } else {
        push_texts(scene, node, out)
    }
}

// Appends the value of an input, where it has one.
fn push_input(scene: &Scene, node: NodeId, out: &mut Vec<u8>) -> Result<(), NoMemory>
    requires scene { IsScene scene.now }
    requires node { node.0 < length scene.now.tree.now }
    ensures ok { OnOk result
        (out.new.items ≡ out.old.items ++ input_lines (shown_of scene.now) node.0) }
    ensures grows { StartsWith out.new.items out.old.items }
{
    match scene.tree.attribute(node, &scene.names.value) {
        Some(value) => push_text_line(scene.place(node), scene.style(node), value, out),
        None => Ok(()),
    }
}

// Appends the picture of an object.
fn push_object(scene: &Scene, node: NodeId, out: &mut Vec<u8>) -> Result<(), NoMemory>
    requires scene { IsScene scene.now }
    requires node { node.0 < length scene.now.tree.now }
    ensures ok { OnOk result
        (out.new.items ≡ out.old.items ++ object_line (shown_of scene.now) node.0) }
    ensures grows { StartsWith out.new.items out.old.items }
{
    push_picture_front(scene.place(node), out)?;
    push_picture_names(scene, node, out)?;
    push_line_end(out)?;
    Ok(())
}

// Appends the type and the name of the data of an object's picture.
fn push_picture_names(scene: &Scene, node: NodeId, out: &mut Vec<u8>) -> Result<(), NoMemory>
    requires { node.0 < length scene.now.tree.now }
    ensures ok { OnOk result (out.new.items ≡ out.old.items
        ++ (attribute_field scene.now.tree.now node.0 scene.now.names.media_type ++ codes " "
        ++ attribute_field scene.now.tree.now node.0 scene.now.names.data_name)) }
    ensures grows { StartsWith out.new.items out.old.items }
{
    push_attribute(scene.tree, node, &scene.names.media_type, out)?;
    push_word(" ", out)?;
    push_attribute(scene.tree, node, &scene.names.data_name, out)?;
    Ok(())
}

// Appends the field of an attribute.
fn push_attribute(tree: &Tree, node: NodeId, name: &Text, out: &mut Vec<u8>) -> Result<(), NoMemory>
    requires { node.0 < length tree.now }
    ensures ok { OnOk result
        (out.new.items ≡ out.old.items ++ attribute_field tree.now node.0 name.now) }
    ensures grows { StartsWith out.new.items out.old.items }
{
    match tree.attribute(node, name) {
        Some(text) => push_field(text, out),
        None => push_word("-", out),
    }
}

// Appends the texts of a box.
fn push_texts(scene: &Scene, node: NodeId, out: &mut Vec<u8>) -> Result<(), NoMemory>
    requires scene { IsScene scene.now }
    requires node { node.0 < length scene.now.tree.now }
    ensures ok { OnOk result
        (out.new.items ≡ out.old.items ++ text_lines (shown_of scene.now) node.0) }
    ensures grows { StartsWith out.new.items out.old.items }
{
    law_of_fronts();
    law_of_parents();
    law_of_paths();
    let end = scene.tree.subtree_end(node);
    'inside: for number in node.0 + 1..end {
        push_held(scene, node, NodeId(number), out)?;
    }
    Ok(())
}

// Appends the line of a node in a box, where the box holds it.
fn push_held(scene: &Scene, holder: NodeId, node: NodeId, out: &mut Vec<u8>) -> Result<(), NoMemory>
    requires scene { IsScene scene.now }
    requires holder { holder.0 < length scene.now.tree.now }
    requires node { node.0 < length scene.now.tree.now }
    ensures ok { OnOk result
        (out.new.items ≡ out.old.items ++ held_lines (shown_of scene.now) holder.0 node.0) }
    ensures grows { StartsWith out.new.items out.old.items }
{
    if !scene.is_held_by(holder, node) {
        return Ok(());
    }
    match scene.tree.parent(node) {
        Some(up) => push_hanging(scene, scene.place(holder), up, node, out),
        None => Ok(()),
    }
}

// Appends the line of a text or a `br`, where the element that it hangs in is visible.
fn push_hanging(
    scene: &Scene,
    place: Place,
    up: NodeId,
    node: NodeId,
    out: &mut Vec<u8>,
) -> Result<(), NoMemory>
    requires scene { IsScene scene.now }
    requires up { up.0 < length scene.now.tree.now }
    requires node { node.0 < length scene.now.tree.now }
    ensures ok { OnOk result
        (out.new.items ≡ out.old.items ++ hanging_lines (shown_of scene.now) place up.0 node.0) }
    ensures grows { StartsWith out.new.items out.old.items }
{
    let style = scene.style(up);
    if !style.is_visible {
        return Ok(());
    }
    if is_break(scene.tree, node) {
        return push_break_line(place, style, out);
    }
    match scene.tree.text(node) {
        Some(text) => push_text_line(place, style, text, out),
        None => Ok(()),
    }
}
