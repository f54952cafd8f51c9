//! The stream of files, section by section.

ghost use Rattle.std.specs.Prelude.{◌≡◌, ◌≤◌, ◌<◌, ◌^◌, ◌++◌, ◌∷◌, [], ◌+◌, length, IfOk, OnOk, map};
ghost use Rattle.std.specs.List.{All};
ghost use Rattle.bml_bytes.specs.Codes.{bytes_of};
ghost use Rattle.bml_bytes.specs.Numbers.{big_bytes};
ghost use Rattle.carousel_blocks.specs.InForce.{block_count};
ghost use Rattle.carousel_blocks.specs.Message.{Data, Indication};
ghost use Rattle.carousel_writer.specs.Messages.{dii_payload, message_section};
ghost use Rattle.carousel_writer.specs.Streams.{block_of, blocks_of, dii_of, round_of, stream_of};
ghost use Rattle.carousel_writer.specs.devices.Appending.{AppendsSections};

use crate::dii::dii_payload_of;
use crate::files::{FileModule, Files};
use crate::messages::{message_of, message_section_of, push_short};
use bml_bytes::NoMemory;
use carousel_blocks::law_of_block_counts;
use section_writer::push_section;
use std::alloc::Global;

/// The bytes of the stream.
pub fn bytes_of_stream(alloc: Global, files: &Files) -> Result<Vec<u8>, NoMemory>
    requires pid { files.now.pid < 8192 }
    requires positive { 0 < files.now.block_size }
    requires short { files.now.block_size ≤ 4000 }
    requires few { All (λ file. block_count files.now.block_size (length file.bytes.items) ≤ 2 ^ 16)
        files.now.modules.items }
    requires count { length files.now.modules.items < 2 ^ 16 }
    requires media { All (λ file. length (bytes_of file.media) ≤ 250) files.now.modules.items }
    requires sizes { All (λ file. length file.bytes.items < 2 ^ 32) files.now.modules.items }
    requires section { length (dii_payload (dii_of files.now)) ≤ 4072 }
    ensures { IfOk result (λ bytes. bytes.items ≡ stream_of files.now) }
{
    let indication = indication_section(alloc, files)?;
    let mut out = Vec::new(alloc);
    let mut next = 0;
    'rounds: for round in 0..files.rounds {
        next = push_round(alloc, &mut out, files, indication.as_slice(), next)?;
    }
    Ok(out)
}

/// The section of the DII.
fn indication_section(alloc: Global, files: &Files) -> Result<Vec<u8>, NoMemory>
    requires count { length files.now.modules.items < 2 ^ 16 }
    requires media { All (λ file. length (bytes_of file.media) ≤ 250) files.now.modules.items }
    requires sizes { All (λ file. length file.bytes.items < 2 ^ 32) files.now.modules.items }
    requires section { length (dii_payload (dii_of files.now)) ≤ 4072 }
    ensures section { IfOk result (λ section.
        section.items ≡ message_section (Indication (dii_of files.now))) }
    ensures size { IfOk result (λ section. length section.items ≤ 4096) }
{
    let payload = dii_payload_of(alloc, files)?;
    let message = message_of(alloc, 0x1002, files.transaction, payload.as_slice())?;
    message_section_of(alloc, 0x3B, message.as_slice())
}

/// Appends the packets of one round.
fn push_round(
    alloc: Global,
    out: &mut Vec<u8>,
    files: &Files,
    indication: &[u8],
    counter: u8,
) -> Result<u8, NoMemory>
    requires pid { files.now.pid < 8192 }
    requires counter { counter < 16 }
    requires positive { 0 < files.now.block_size }
    requires short { files.now.block_size ≤ 4000 }
    requires few { All (λ file. block_count files.now.block_size (length file.bytes.items) ≤ 2 ^ 16)
        files.now.modules.items }
    requires indication { indication.now ≡ message_section (Indication (dii_of files.now)) }
    requires size { length indication.now ≤ 4096 }
    ensures sent { IfOk result (λ next.
        AppendsSections out.old.items counter out.new.items next files.now.pid
        (map message_section (round_of files.now))) }
    ensures small { IfOk result (λ next. next < 16) }
{
    let mut next = push_section(alloc, out, files.pid, counter, indication)?;
    'modules: for file in &files.modules {
        next = push_blocks(alloc, out, files, file, next)?;
    }
    Ok(next)
}

/// Appends the packets of a module's blocks.
fn push_blocks(
    alloc: Global,
    out: &mut Vec<u8>,
    files: &Files,
    file: &FileModule,
    counter: u8,
) -> Result<u8, NoMemory>
    requires pid { files.now.pid < 8192 }
    requires counter { counter < 16 }
    requires positive { 0 < files.now.block_size }
    requires short { files.now.block_size ≤ 4000 }
    requires few { block_count files.now.block_size (length file.now.bytes.items) ≤ 2 ^ 16 }
    ensures sent { IfOk result (λ next.
        AppendsSections out.old.items counter out.new.items next files.now.pid
        (map message_section (map Data (blocks_of files.now file.now)))) }
    ensures small { IfOk result (λ next. next < 16) }
{
    law_of_block_counts();
    let bytes = file.bytes.as_slice();
    let size = files.block_size as usize;
    let mut next = counter;
    for number in 0..bytes.len().div_ceil(size) {
        let start = number * size;
        let end = start + size.min(bytes.len() - start);
        next = push_block(
            alloc,
            out,
            files,
            file,
            number as u16,
            &bytes[start..end],
            next,
        )?;
    }
    Ok(next)
}

/// Appends the packets of a module's block.
fn push_block(
    alloc: Global,
    out: &mut Vec<u8>,
    files: &Files,
    file: &FileModule,
    number: u16,
    block: &[u8],
    counter: u8,
) -> Result<u8, NoMemory>
    requires pid { files.now.pid < 8192 }
    requires counter { counter < 16 }
    requires short { length block.now ≤ 4000 }
    ensures sent { IfOk result (λ next.
        AppendsSections out.old.items counter out.new.items next files.now.pid
        (message_section (Data (record {
          download = files.now.download;
          «module» = file.now.id;
          version = file.now.version;
          number = number;
          block = block.now;
        })) ∷ [])) }
    ensures small { IfOk result (λ next. next < 16) }
{
    let section = block_section(alloc, files, file, number, block)?;
    let next = push_section(alloc, out, files.pid, counter, section.as_slice())?;
    Ok(next)
}

/// The section of a module's block.
fn block_section(
    alloc: Global,
    files: &Files,
    file: &FileModule,
    number: u16,
    block: &[u8],
) -> Result<Vec<u8>, NoMemory>
    requires short { length block.now ≤ 4000 }
    ensures section { IfOk result (λ section. section.items ≡ message_section (Data (record {
      download = files.now.download;
      «module» = file.now.id;
      version = file.now.version;
      number = number;
      block = block.now;
    }))) }
    ensures size { IfOk result (λ section. length section.items ≤ 4096) }
{
    let payload = ddb_payload_of(alloc, file, number, block)?;
    let message = message_of(alloc, 0x1003, files.download, payload.as_slice())?;
    message_section_of(alloc, 0x3C, message.as_slice())
}

/// The payload of a module's block.
fn ddb_payload_of(
    alloc: Global,
    file: &FileModule,
    number: u16,
    block: &[u8],
) -> Result<Vec<u8>, NoMemory>
    requires short { length block.now ≤ 4000 }
    ensures payload { IfOk result (λ payload. payload.items ≡ big_bytes 2 file.now.id
        ++ file.now.version ∷ 0 ∷ [] ++ big_bytes 2 number ++ block.now) }
    ensures size { IfOk result (λ payload. length payload.items ≡ length block.now + 6) }
{
    let mut payload = Vec::new(alloc);
    push_block_head(&mut payload, file, number)?;
    payload.extend_from_slice(block)?;
    Ok(payload)
}

/// Appends moduleId, moduleVersion, a reserved byte and blockNumber.
fn push_block_head(out: &mut Vec<u8>, file: &FileModule, number: u16) -> Result<(), NoMemory>
    ensures head { OnOk result (out.new.items ≡ out.old.items
        ++ (big_bytes 2 file.now.id ++ file.now.version ∷ 0 ∷ [] ++ big_bytes 2 number)) }
    ensures size { OnOk result (length out.new.items ≡ length out.old.items + 6) }
{
    push_short(out, file.id)?;
    out.extend_from_slice(&[file.version, 0])?;
    push_short(out, number)
}
