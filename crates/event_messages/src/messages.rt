//! The messages in a section.

ghost use Rattle.std.specs.Prelude.{◌≡◌, ◌≢◌, ◌≤◌, ◌↔◌, ◌++◌, [], List, length, slice_index, IfOk, IsErr, MatchResult, Ok, Err, OnOk, None, option_map, option_to_list};
ghost use Rattle.std.specs.Option.{ok_or};
ghost use Rattle.table_fields.specs.Borrowed.{descriptor_of};
ghost use Rattle.table_fields.specs.Descriptors.{descriptors_in};
ghost use Rattle.event_messages.specs.declared.messages.Message.{Message};
ghost use Rattle.event_messages.specs.Messages.{descriptor_table, HasMessages};
ghost use Rattle.event_messages.specs.Reading.{message_at, message_of, messages_in, messages_of, IsRead};
ghost use Rattle.event_messages.specs.devices.Fields.{message_with};

use crate::laws::law_of_messages;
use bml_bytes::{Cursor, NoMemory, TableFault, TableRefusal, Text};
use std::alloc::Global;
use table_fields::{Descriptor, Descriptors, body};

/// The table_id of a section whose body is stream descriptors (ISO/IEC 13818-6, 9.2).
const DESCRIPTOR_TABLE: u8 = 0x3D;

/// The tag of an event message descriptor.
const MESSAGE_TAG: u8 = 0x40;

/// The time_mode of an event that happens as soon as its message comes.
const IMMEDIATE: u8 = 0;

/// An event message (after ARIB STD-B24, volume 3; the layout of its descriptor is this project's own).
#[derive(Drop)]
pub struct Message {
    /// The event_msg_group_id, 0 to 4,095.
    pub group: u16,
    /// The event_msg_type.
    pub kind: u8,
    /// The upper byte of the event_msg_id.
    pub id: u8,
    /// The lower byte of the event_msg_id, by which a message that is repeated is told from a new one.
    pub version: u8,
    /// The text of the private bytes.
    pub extra: Text,
}

impl Message {
    /// The same message once more.
    pub fn share(&self) -> Result<Message, NoMemory>
        ensures { IfOk result (λ message. message ≡ self.now) }
    {
        Ok(Message {
            group: self.group,
            kind: self.kind,
            id: self.id,
            version: self.version,
            extra: self.extra.share()?,
        })
    }
}

// The fields of a message, with its private bytes as they stand in the section.
#[derive(Clone, Copy)]
struct Fields<'a> {
    group: u16,
    kind: u8,
    id: u8,
    version: u8,
    private_bytes: &'a [u8],
}

/// The event messages that a section carries, in their order.
///
/// A descriptor of another tag, with another time_mode or with fewer than 11 bytes is left out. `Kind` comes for a
/// section of another table; `Short` for one of the table whose body isn't descriptors laid end to end. Memory is taken
/// for messages alone.
pub fn read_messages(alloc: Global, section: &[u8]) -> Result<Vec<Message>, TableRefusal>
    requires { 12 ≤ length section.now }
    ensures found { IfOk result (λ found. HasMessages section.now found.items) }
    ensures only { (messages : List Message) → HasMessages section.now messages
        → MatchResult result (λ found. found.items ≡ messages)
        (λ refusal. refusal ≡ TableRefusal.NoMemory) }
    ensures kind { (result ≡ Err (TableRefusal.Fault TableFault.Kind))
        ↔ ¬ (slice_index section.now 0 ≡ descriptor_table) }
    ensures short { (result ≡ Err (TableRefusal.Fault TableFault.Short))
        ↔ ((slice_index section.now 0 ≡ descriptor_table)
        × ((messages : List Message) → ¬ HasMessages section.now messages)) }
    ensures memory { result ≡ Err TableRefusal.NoMemory
        → (messages : List Message) × HasMessages section.now messages × (messages ≢ []) }
{
    law_of_messages();
    messages(alloc, section)
}

#[tactic(auto, unfolding(crate::specs::Reading::messages_in))]
fn messages(alloc: Global, section: &[u8]) -> Result<Vec<Message>, TableRefusal>
    requires { 12 ≤ length section.now }
    ensures reading { IsRead (λ found. found.items) result (messages_in section.now) }
    // Memory is taken where there is a message alone.
    ensures memory { result ≡ Err TableRefusal.NoMemory
        → (messages : List Message) × (messages_in section.now ≡ Ok messages) × (messages ≢ []) }
{
    if section[0] != DESCRIPTOR_TABLE {
        return Err(TableRefusal::Fault(TableFault::Kind));
    }
    let mut descriptors = Descriptors::of_bytes(body(section)).ok_or(TableFault::Short)?;
    let messages = messages_among(alloc, &mut descriptors)?;
    Ok(messages)
}

// The messages among descriptors.
fn messages_among(
    alloc: Global,
    descriptors: &mut Descriptors<'_>,
) -> Result<Vec<Message>, NoMemory>
    ensures found { IfOk result (λ found. found.items ≡ messages_of descriptors.old) }
    ensures memory { IsErr result → messages_of descriptors.old ≢ [] }
{
    let mut messages = Vec::new(alloc);
    'descriptors: while let Some(descriptor) = descriptors.next() {
        push_message(alloc, descriptor, &mut messages)?;
    }
    Ok(messages)
}

// Appends the message that a descriptor is, if it is one.
#[tactic(auto, unfolding(crate::specs::Reading::message_of))]
fn push_message(
    alloc: Global,
    descriptor: Descriptor<'_>,
    messages: &mut Vec<Message>,
) -> Result<(), NoMemory>
    ensures pushed { OnOk result (messages.new.items
        ≡ messages.old.items ++ option_to_list (message_of (descriptor_of descriptor.entry))) }
    ensures memory { IsErr result → message_of (descriptor_of descriptor.entry) ≢ None }
{
    match fields_of(descriptor) {
        None => Ok(()),
        Some(fields) => {
            let message = message_with(alloc, fields)?;
            messages.push(message)?;
            Ok(())
        }
    }
}

// The fields of the message that a descriptor is.
#[tactic(auto, unfolding(crate::specs::Reading::message_of))]
fn fields_of(descriptor: Descriptor<'_>) -> Option<Fields<'_>>
    ensures { option_map message_with result ≡ message_of (descriptor_of descriptor.entry) }
{
    if descriptor.tag != MESSAGE_TAG {
        return None;
    }
    fields_in(descriptor.bytes)
}

// The fields in the bytes of an event message descriptor.
#[tactic(auto, unfolding(crate::specs::Reading::message_at))]
fn fields_in(bytes: &[u8]) -> Option<Fields<'_>>
    ensures { option_map message_with result ≡ message_at bytes.now }
{
    let mut cursor = Cursor::new(bytes);
    let group = cursor.u16()?;
    let mode = cursor.u8()?;
    let _time = cursor.take(5)?;
    let kind = cursor.u8()?;
    let id = cursor.u8()?;
    let version = cursor.u8()?;
    if mode != IMMEDIATE {
        return None;
    }
    Some(Fields {
        group: group / 16,
        kind,
        id,
        version,
        private_bytes: cursor.left(),
    })
}

fn message_with(alloc: Global, fields: Fields<'_>) -> Result<Message, NoMemory>
    ensures { IfOk result (λ message. message ≡ message_with fields.entry) }
{
    let extra = Text::of_bytes(alloc, fields.private_bytes)?;
    Ok(Message {
        group: fields.group,
        kind: fields.kind,
        id: fields.id,
        version: fields.version,
        extra,
    })
}
