//! What is read of the document and of the current event.

ghost use Rattle.std.specs.Prelude.{◌≡◌, ◌<◌, IfOk, length};
ghost use Rattle.dom_objects.specs.Reads.{component_text, count_value as spec_count_value, document_rows, event_rows, key_rows, message_rows, module_rows, own_event_rows, read_in};

use crate::current_events::CurrentEvent;
use crate::elements::attribute_of;
use crate::texts::ascii_text;
use crate::walks::node_value;
use bml_bytes::{NoMemory, Text, push_hex, push_word};
use dom_tree::{NodeId, Tree};
use es_values::{HostRef, Num, Value};
use event_messages::Message;
use event_queue::Event;
use std::alloc::Global;
use style_cascade::Focus;

/// What a name of the document gives: the current event, the element that has the focus, or Null
/// where there is none; Undefined under each other name.
pub fn document_value(focus: &Focus, event: &CurrentEvent, name: &Text) -> Value
    ensures { result ≡ read_in (document_rows focus.now event.now) name.now }
{
    if name.is_word("currentEvent") {
        match event.seen() {
            Some(_) => Value::Host(HostRef::Event),
            None => Value::Null,
        }
    } else if name.is_word("currentFocus") {
        node_value(focus.focus)
    } else {
        Value::Undefined
    }
}

/// What a name of the current event gives: its type, the node that it goes to, and what only events
/// of keys, of modules and of messages have. It is Undefined under each other name, and where there
/// is no event.
pub fn event_value(
    alloc: Global,
    tree: &Tree,
    event: &CurrentEvent,
    name: &Text,
) -> Result<Value, NoMemory>
    ensures { IfOk result (λ value. value ≡ read_in (event_rows tree.now event.now) name.now) }
{
    let Some(current) = event.seen() else {
        return Ok(Value::Undefined);
    };
    if name.is_word("type") {
        let name = ascii_text(alloc, current.name().as_bytes())?;
        Ok(Value::Str(name))
    } else if name.is_word("target") {
        Ok(Value::Host(HostRef::Node(event.target)))
    } else {
        own_value(alloc, tree, current, name)
    }
}

// What a name gives that only events of some kinds have.
fn own_value(alloc: Global, tree: &Tree, event: &Event, name: &Text) -> Result<Value, NoMemory>
    ensures { IfOk result
        (λ value. value ≡ read_in (own_event_rows tree.now event.now) name.now) }
{
    match event {
        Event::KeyDown(key) | Event::KeyUp(key) | Event::Default(key) => Ok(key_value(*key, name)),
        Event::Updated { item, status } | Event::Locked { item, status } => {
            module_value(alloc, tree, NodeId(*item), *status, name)
        }
        Event::Fired {
            component,
            message,
            ..
        } => message_value(alloc, *component, message, name),
        _ => Ok(Value::Undefined),
    }
}

// What a name of an event of a key gives: the key's number.
fn key_value(key: u8, name: &Text) -> Value
    ensures { result ≡ read_in (key_rows key) name.now }
{
    if name.is_word("keyCode") {
        count_value(u16::from(key))
    } else {
        Value::Undefined
    }
}

// What a name of an event of a module gives: how it changed, and the module as the item names it.
fn module_value(
    alloc: Global,
    tree: &Tree,
    item: NodeId,
    status: u8,
    name: &Text,
) -> Result<Value, NoMemory>
    ensures { IfOk result
        (λ value. value ≡ read_in (module_rows tree.now item.0 status) name.now) }
{
    if name.is_word("status") {
        Ok(count_value(u16::from(status)))
    } else if name.is_word("moduleRef") {
        attribute_of(alloc, tree, item, b"module_ref")
    } else {
        Ok(Value::Undefined)
    }
}

// What a name of an event of a message gives: the message's component, its group, id and version, and
// its private text.
fn message_value(
    alloc: Global,
    component: u8,
    message: &Message,
    name: &Text,
) -> Result<Value, NoMemory>
    ensures { IfOk result
        (λ value. value ≡ read_in (message_rows component message.now) name.now) }
{
    if name.is_word("esRef") {
        component_value(alloc, component)
    } else if name.is_word("messageGroupId") {
        Ok(count_value(message.group))
    } else if name.is_word("messageId") {
        Ok(count_value(u16::from(message.id)))
    } else if name.is_word("messageVersion") {
        Ok(count_value(u16::from(message.version)))
    } else if name.is_word("privateData") {
        Ok(Value::Str(message.extra.share()?))
    } else {
        Ok(Value::Undefined)
    }
}

fn count_value(number: u16) -> Value
    ensures { result ≡ spec_count_value number }
{
    Value::Number(Num::Whole(i32::from(number)))
}

// The path of a component.
fn component_value(alloc: Global, component: u8) -> Result<Value, NoMemory>
    ensures { IfOk result (λ value. value ≡ Value.Str (component_text component)) }
{
    let mut bytes = Vec::new(alloc);
    push_word("/", &mut bytes)?;
    push_hex(u32::from(component), 2, &mut bytes)?;
    Ok(Value::Str(ascii_text(alloc, &bytes)?))
}
