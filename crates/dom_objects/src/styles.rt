//! What is read of the styles of elements, and what their names mean.

ghost use Rattle.std.specs.Prelude.{◌≡◌, IfOk};
ghost use Rattle.dom_tree.specs.Items.{IsElement};
ghost use Rattle.style_cascade.specs.StyledTrees.{AreStylesOf, styled_tree};
ghost use Rattle.dom_objects.specs.Parts.{state_number, state_of_number as spec_state_of_number};
ghost use Rattle.dom_objects.specs.Reads.{property_named as spec_property_named, style_of as spec_style_of, style_read, style_text as spec_style_text};

use crate::elements::is_element;
use crate::texts::ascii_text;
use bml_bytes::{NoMemory, Text, law_of_decimals};
use dom_tree::{NodeId, Tree};
use es_values::{HostRef, Value};
use std::alloc::Global;
use style_cascade::{Focus, State, Styles};
use style_reader::{Property, push_value};

/// What a name of a style gives: the value that the element has for a property in the state of this
/// number, as a text. It is Undefined where there is no such element, state or property.
#[tactic(auto, unfolding(crate::specs::Reads::style_read))]
pub fn style_value(
    alloc: Global,
    tree: &Tree,
    styles: &mut Styles,
    focus: &Focus,
    node: NodeId,
    number: u8,
    name: &Text,
) -> Result<Value, NoMemory>
    requires right { AreStylesOf tree.now focus.now styles.old }
    ensures value { IfOk result (λ value. value ≡ style_read
        (styled_tree tree.now styles.old focus.now) node.0 number name.now) }
    ensures sources { styles.new.sources ≡ styles.old.sources }
    ensures right_still { AreStylesOf tree.now focus.now styles.new }
{
    if !is_element(tree, node) {
        return Ok(Value::Undefined);
    }
    match (state_of_number(number), property_named(name)) {
        (Some(state), Some(property)) => {
            style_text(alloc, tree, styles, focus, node, state, property)
        }
        _ => Ok(Value::Undefined),
    }
}

/// The style of an element for a state.
pub fn style_of(node: NodeId, state: State) -> Value
    ensures { result ≡ spec_style_of node.0 state }
{
    Value::Host(HostRef::Style(node.0, number_of_state(state)))
}

/// The state of a number in a reference to a style.
pub fn state_of_number(number: u8) -> Option<State>
    ensures { result ≡ spec_state_of_number number }
{
    [State::Normal, State::Focus, State::Active]
        .iter()
        .copied()
        .find(|state| number_of_state(*state) == number)
}

// The number of a state in a reference to a style.
fn number_of_state(state: State) -> u8
    ensures { result ≡ state_number state }
{
    match state {
        State::Normal => 0,
        State::Focus => 1,
        State::Active => 2,
    }
}

/// The property that scripts call so.
pub fn property_named(name: &Text) -> Option<Property>
    ensures { result ≡ spec_property_named name.now }
{
    Property::all()
        .iter()
        .copied()
        .find(|property| name.is_word(property.script_name()))
}

// The value that an element has for a property in a state, as a text.
fn style_text(
    alloc: Global,
    tree: &Tree,
    styles: &mut Styles,
    focus: &Focus,
    node: NodeId,
    state: State,
    property: Property,
) -> Result<Value, NoMemory>
    requires element { IsElement tree.now node.0 }
    requires right { AreStylesOf tree.now focus.now styles.old }
    ensures value { IfOk result (λ value. value ≡ spec_style_text
        (styled_tree tree.now styles.old focus.now) node.0 state property) }
    ensures sources { styles.new.sources ≡ styles.old.sources }
    ensures right_still { AreStylesOf tree.now focus.now styles.new }
{
    let value = styles.get(tree, node, state, focus, property);
    law_of_decimals();
    let mut bytes = Vec::new(alloc);
    push_value(property, value, &mut bytes)?;
    Ok(Value::Str(ascii_text(alloc, &bytes)?))
}
