//! A message in a section.

ghost use Rattle.std.specs.Prelude.{◌≡◌, ◌≤◌, ◌<◌, ◌^◌, ◌++◌, ◌∷◌, [], ◌+◌, length, IfOk, OnOk};
ghost use Rattle.bml_bytes.specs.Numbers.{big_bytes};
ghost use Rattle.dsmcc_messages.specs.Message.{kind_bytes};
ghost use Rattle.section_writer.specs.Sections.{section_bytes};
ghost use Rattle.carousel_writer.specs.Messages.{head_of, message_bytes};

use bml_bytes::{NoMemory, law_of_written_numbers};
use section_writer::{SectionHead, section_of};
use std::alloc::Global;

/// Appends a number of two bytes.
pub fn push_short(out: &mut Vec<u8>, number: u16) -> Result<(), NoMemory>
    ensures number { OnOk result (out.new.items ≡ out.old.items ++ big_bytes 2 number) }
    ensures size { OnOk result (length out.new.items ≡ length out.old.items + 2) }
{
    law_of_written_numbers();
    out.extend_from_slice(&number.to_be_bytes())?;
    Ok(())
}

/// Appends a number of four bytes.
pub fn push_long(out: &mut Vec<u8>, number: u32) -> Result<(), NoMemory>
    ensures number { OnOk result (out.new.items ≡ out.old.items ++ big_bytes 4 number) }
    ensures size { OnOk result (length out.new.items ≡ length out.old.items + 4) }
{
    law_of_written_numbers();
    out.extend_from_slice(&number.to_be_bytes())?;
    Ok(())
}

/// The message with this payload: its header, without adaptation bytes, and the payload.
pub fn message_of(
    alloc: Global,
    message_id: u16,
    identifier: u32,
    payload: &[u8],
) -> Result<Vec<u8>, NoMemory>
    requires short { length payload.now < 2 ^ 16 }
    ensures message { IfOk result (λ message. message.items
        ≡ message_bytes (record { table_id = 0; message_id = message_id }) identifier payload.now) }
    ensures size { IfOk result (λ message. length message.items ≡ length payload.now + 12) }
{
    let mut message = Vec::new(alloc);
    push_message(&mut message, message_id, identifier, payload)?;
    Ok(message)
}

/// Appends the message with this payload.
fn push_message(
    out: &mut Vec<u8>,
    message_id: u16,
    identifier: u32,
    payload: &[u8],
) -> Result<(), NoMemory>
    requires short { length payload.now < 2 ^ 16 }
    ensures message { OnOk result (out.new.items ≡ out.old.items ++ message_bytes
        (record { table_id = 0; message_id = message_id }) identifier payload.now) }
    ensures size { OnOk result
        (length out.new.items ≡ length out.old.items + length payload.now + 12) }
{
    push_message_kind(out, message_id)?;
    push_long(out, identifier)?;
    push_lengths(out, payload.len() as u16)?;
    out.extend_from_slice(payload)?;
    Ok(())
}

/// Appends protocolDiscriminator, dsmccType and messageId.
fn push_message_kind(out: &mut Vec<u8>, message_id: u16) -> Result<(), NoMemory>
    ensures kind { OnOk result (out.new.items ≡ out.old.items
        ++ kind_bytes (record { table_id = 0; message_id = message_id })) }
    ensures size { OnOk result (length out.new.items ≡ length out.old.items + 4) }
{
    out.extend_from_slice(&[0x11, 0x03])?;
    push_short(out, message_id)
}

/// Appends a reserved byte, adaptationLength 0 and messageLength.
fn push_lengths(out: &mut Vec<u8>, payload_length: u16) -> Result<(), NoMemory>
    ensures lengths { OnOk result
        (out.new.items ≡ out.old.items ++ (0 ∷ 0 ∷ [] ++ big_bytes 2 payload_length)) }
    ensures size { OnOk result (length out.new.items ≡ length out.old.items + 4) }
{
    out.extend_from_slice(&[0, 0])?;
    push_short(out, payload_length)
}

/// The section that carries a message: 0 stands in every field of its header but table_id and section_length.
pub fn message_section_of(alloc: Global, table_id: u8, message: &[u8]) -> Result<Vec<u8>, NoMemory>
    requires short { length message.now ≤ 4084 }
    ensures section { IfOk result
        (λ section. section.items ≡ section_bytes (head_of table_id) message.now) }
    ensures size { IfOk result (λ section. length section.items ≡ length message.now + 12) }
{
    let head = SectionHead {
        table_id,
        extension: 0,
        version: 0,
        is_current: false,
    };
    let section = section_of(alloc, head, message)?;
    Ok(section)
}
