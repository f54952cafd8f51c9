//! Sections of tables and of messages. Their header, their CRC_32 and their packets are those of `section_writer`.

ghost use Rattle.std.specs.Prelude.{◌≤◌, ◌<◌, length, IfOk};
ghost use Rattle.ts_sections.specs.Intact.{IsIntact};

use crate::unbuilt::Unbuilt;
use section_writer::{SectionHead, section_of};
use std::alloc::Global;

/// A module's number, version, size and info, as an entry of a DownloadInfoIndication has them.
#[derive(Clone, Copy)]
pub struct Entry(pub u16, pub u8, pub u32, pub &'static [u8]);

/// The info of a module that holds a document: a Type descriptor.
pub const DOCUMENT: &[u8] = b"\x01\x0Ftext/X-arib-bml";

/// A section's body has at most so many bytes.
const LONGEST_BODY: usize = 4084;

/// The PID of the data.
pub const DATA_PID: u16 = 256;

/// The PID of the PMT.
pub const MAP_PID: u16 = 496;

/// A stream in a PMT: its stream_type, its PID and its component_tag.
#[derive(Clone, Copy)]
pub struct Announced(pub u8, pub u16, pub u8);

/// A section. A message is one of download 1, on PID 256.
#[derive(Clone, Copy)]
pub enum Sent {
    /// A PAT with one program, whose PMT comes on PID 496.
    Programs(u16),
    /// A PMT: its program and its streams.
    Map(u16, &'static [Announced]),
    /// A DownloadInfoIndication: its transaction, the size of a block, and the modules.
    Indication(u32, u16, &'static [Entry]),
    /// A DownloadDataBlock: its module, the module's version, the block's number, and its bytes.
    Block(u16, u8, u16, &'static [u8]),
}

impl Sent {
    /// The PID on which it comes.
    pub fn pid(&self) -> u16
        ensures { result < 512 }
    {
        match *self {
            Sent::Programs(_) => 0,
            Sent::Map(..) => MAP_PID,
            Sent::Indication(..) | Sent::Block(..) => DATA_PID,
        }
    }

    /// The bytes of the section, which is intact.
    pub fn section(&self, alloc: Global) -> Result<Vec<u8>, Unbuilt>
        ensures intact { IfOk result (λ section. IsIntact section.items) }
        ensures size { IfOk result (λ section. length section.items ≤ 4096) }
    {
        match *self {
            Sent::Programs(program) => programs_of(alloc, program),
            Sent::Map(program, streams) => map_of(alloc, program, streams),
            Sent::Indication(transaction, block_size, entries) => {
                indication_of(alloc, transaction, block_size, entries)
            }
            Sent::Block(module, version, number, block) => {
                block_of(alloc, module, version, number, block)
            }
        }
    }
}

// A PAT in force: one program.
fn programs_of(alloc: Global, program: u16) -> Result<Vec<u8>, Unbuilt>
    ensures intact { IfOk result (λ section. IsIntact section.items) }
    ensures size { IfOk result (λ section. length section.items ≤ 4096) }
{
    let mut body = Vec::new(alloc);
    body.extend_from_slice(&program.to_be_bytes())?;
    body.extend_from_slice(&MAP_PID.to_be_bytes())?;
    table_section(alloc, 0x00, 0, body.as_slice())
}

// A PMT in force, whose program has no descriptors.
fn map_of(alloc: Global, program: u16, streams: &[Announced]) -> Result<Vec<u8>, Unbuilt>
    ensures intact { IfOk result (λ section. IsIntact section.items) }
    ensures size { IfOk result (λ section. length section.items ≤ 4096) }
{
    let mut body = Vec::from_slice(alloc, &[0, 0, 0, 0])?;
    for stream in streams {
        body.push(stream.0)?;
        body.extend_from_slice(&stream.1.to_be_bytes())?;
        body.extend_from_slice(&[0, 3, 0x52, 1, stream.2])?;
    }
    table_section(alloc, 0x02, program, body.as_slice())
}

// A table in force, with its table_id_extension.
fn table_section(
    alloc: Global,
    table_id: u8,
    extension: u16,
    body: &[u8],
) -> Result<Vec<u8>, Unbuilt>
    ensures intact { IfOk result (λ section. IsIntact section.items) }
    ensures size { IfOk result (λ section. length section.items ≤ 4096) }
{
    let head = SectionHead {
        table_id,
        extension,
        version: 0,
        is_current: true,
    };
    section_with(alloc, head, body)
}

// A DownloadInfoIndication: its transaction, the size of a block, and the modules.
fn indication_of(
    alloc: Global,
    transaction: u32,
    block_size: u16,
    entries: &[Entry],
) -> Result<Vec<u8>, Unbuilt>
    ensures intact { IfOk result (λ section. IsIntact section.items) }
    ensures size { IfOk result (λ section. length section.items ≤ 4096) }
{
    let mut payload = Vec::new(alloc);
    payload.extend_from_slice(&[0, 0, 0, 1])?;
    payload.extend_from_slice(&block_size.to_be_bytes())?;
    payload.extend_from_slice(&[0; 12])?;
    payload.extend_from_slice(&short_length(entries.len())?.to_be_bytes())?;
    for entry in entries {
        payload.extend_from_slice(&entry.0.to_be_bytes())?;
        payload.extend_from_slice(&entry.2.to_be_bytes())?;
        payload.extend_from_slice(&[entry.1, byte_length(entry.3.len())?])?;
        payload.extend_from_slice(entry.3)?;
    }
    payload.extend_from_slice(&[0, 0])?;
    message_section(alloc, 0x3B, 0x1002, transaction, payload.as_slice())
}

// A DownloadDataBlock: its module, the module's version, the block's number, and its bytes.
fn block_of(
    alloc: Global,
    module: u16,
    version: u8,
    number: u16,
    block: &[u8],
) -> Result<Vec<u8>, Unbuilt>
    ensures intact { IfOk result (λ section. IsIntact section.items) }
    ensures size { IfOk result (λ section. length section.items ≤ 4096) }
{
    let mut payload = Vec::new(alloc);
    payload.extend_from_slice(&module.to_be_bytes())?;
    payload.extend_from_slice(&[version, 0])?;
    payload.extend_from_slice(&number.to_be_bytes())?;
    payload.extend_from_slice(block)?;
    message_section(alloc, 0x3C, 0x1003, 1, payload.as_slice())
}

// The section of a message with this payload.
fn message_section(
    alloc: Global,
    table_id: u8,
    message_id: u16,
    identifier: u32,
    payload: &[u8],
) -> Result<Vec<u8>, Unbuilt>
    ensures intact { IfOk result (λ section. IsIntact section.items) }
    ensures size { IfOk result (λ section. length section.items ≤ 4096) }
{
    let mut message = Vec::from_slice(alloc, &[0x11, 0x03])?;
    message.extend_from_slice(&message_id.to_be_bytes())?;
    message.extend_from_slice(&identifier.to_be_bytes())?;
    message.extend_from_slice(&[0, 0])?;
    message.extend_from_slice(&short_length(payload.len())?.to_be_bytes())?;
    message.extend_from_slice(payload)?;
    let head = SectionHead {
        table_id,
        extension: 0,
        version: 0,
        is_current: false,
    };
    section_with(alloc, head, message.as_slice())
}

// The section with this body, where that isn't too long.
fn section_with(alloc: Global, head: SectionHead, body: &[u8]) -> Result<Vec<u8>, Unbuilt>
    requires version { head.version < 32 }
    ensures intact { IfOk result (λ section. IsIntact section.items) }
    ensures size { IfOk result (λ section. length section.items ≤ 4096) }
{
    if body.len() > LONGEST_BODY {
        return Err(Unbuilt::Length);
    }
    let section = section_of(alloc, head, body)?;
    Ok(section)
}

// A length as a field of two bytes has it.
fn short_length(length: usize) -> Result<u16, Unbuilt> {
    u16::try_from(length).map_err(|_| Unbuilt::Length)
}

// A length as a field of one byte has it.
fn byte_length(length: usize) -> Result<u8, Unbuilt> {
    u8::try_from(length).map_err(|_| Unbuilt::Length)
}
