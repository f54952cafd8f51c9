//! The calls.

ghost use Rattle.std.specs.Prelude.{◌≡◌, ◌≢◌, true, false, ℕ, IfOk, MatchResult, map, Ok, Err, option_and_then, option_map, Some};
ghost use Rattle.std.specs.List.{All};
ghost use Rattle.bml_bytes.specs.Codes.{bytes_of};
ghost use Rattle.ts_packets.specs.Packets.{packets_of};
ghost use Rattle.ts_sections.specs.Intact.{IsIntact};
ghost use Rattle.dsmcc_messages.specs.Reading.{descriptor_in};
ghost use Rattle.multipart_entities.specs.Lines.{without_blanks};
ghost use Rattle.section_writer.specs.Packets.{laid};
ghost use Rattle.section_writer.specs.Received.{sections_on};
ghost use Rattle.carousel_blocks.specs.Held.{bytes_held};
ghost use Rattle.carousel_blocks.specs.Carousel.{entry_in_force};
ghost use Rattle.carousel_writer.specs.Entities.{entity_bytes, file_seen, media_read, parts_read};
ghost use Rattle.carousel_writer.specs.GoodFiles.{are_good_files as spec_are_good_files};
ghost use Rattle.carousel_writer.specs.GoodParts.{are_good_parts as spec_are_good_parts, is_boundary as spec_is_boundary, is_good_list};
ghost use Rattle.carousel_writer.specs.Received.{file_of, messages_on};
ghost use Rattle.carousel_writer.specs.Streams.{entry_of, sections_sent, stream_of, type_text};

use crate::entities::bytes_of_entity;
use crate::files::{FilePart, Files};
use crate::good_files::{are_good_files, numbers_have_types};
use crate::good_parts::are_good_parts;
use crate::laws::{law_of_entities, law_of_good_files, law_of_streams};
use crate::refusals::WriteRefusal;
use crate::streams::bytes_of_stream;
use bml_bytes::{NoMemory, Text};
use std::alloc::Global;

/// Writes the stream of some files. `BadFiles` comes exactly where they can't be written so that they are read again:
/// no round, a PID outside 16 to 8,190, a blockSize of 0 or above 4,000, two modules with one number, one that a reader
/// would skip, a media type of more than 250 bytes or of codes that its bytes aren't read as, or a DII whose section has
/// more than 4,096 bytes. It takes memory for the stream and a few short lists beside it.
pub fn write_stream(alloc: Global, files: &Files) -> Result<Vec<u8>, WriteRefusal>
    ensures bytes { IfOk result (λ bytes. bytes.items ≡ stream_of files.now) }
    ensures packets { IfOk result (λ bytes. laid (packets_of bytes.items) ≡ bytes.items) }
    ensures sections { IfOk result
        (λ bytes. sections_on files.now.pid bytes.items ≡ sections_sent files.now) }
    ensures intact { IfOk result (λ bytes. All IsIntact (sections_on files.now.pid bytes.items)) }
    ensures held { IfOk result (λ bytes. (number : ℕ)
        → bytes_held (messages_on files.now.pid bytes.items) number
        ≡ option_map (λ file. file.bytes.items) (file_of files.now number)) }
    ensures entries { IfOk result (λ bytes. (number : ℕ)
        → entry_in_force (messages_on files.now.pid bytes.items) number
        ≡ option_map entry_of (file_of files.now number)) }
    ensures media { IfOk result (λ bytes. (number : ℕ)
        → option_and_then (λ entry. descriptor_in entry.info 0x01)
        (entry_in_force (messages_on files.now.pid bytes.items) number)
        ≡ option_and_then (λ file. type_text file.media) (file_of files.now number)) }
    ensures refusal { MatchResult result (λ _. spec_are_good_files files.now ≡ true)
        (λ refusal. refusal ≢ WriteRefusal.NoMemory
        → (refusal ≡ WriteRefusal.BadFiles) × (spec_are_good_files files.now ≡ false)) }
{
    if !are_good_files(alloc, files)? {
        return Err(WriteRefusal::BadFiles);
    }
    law_of_good_files();
    law_of_streams();
    numbers_have_types(files);
    Ok(bytes_of_stream(alloc, files)?)
}

/// Writes some parts as an entity. `BadFiles` comes exactly where they can't be written so that they are read again: no
/// part or more than 512, two with one name, a name that isn't 1 to 64 codes without `/` and without codes below 0x21, a
/// media type with codes below 0x20, a name or a media type of codes that its bytes aren't read as, a boundary that isn't
/// 1 to 60 letters or digits, or `--` and the boundary in the bytes of a part. The boundary, the number of parts and
/// equal names are told before any memory is taken. A part has both of its header lines also where its media type is
/// empty, and the last delimiter line is ended as the others.
pub fn write_entity(
    alloc: Global,
    boundary: &Text,
    parts: &[FilePart],
) -> Result<Vec<u8>, WriteRefusal>
    ensures bytes { IfOk result (λ bytes. bytes.items ≡ entity_bytes boundary.now parts.now) }
    ensures parts { IfOk result (λ bytes. parts_read bytes.items ≡ Ok (map file_seen parts.now)) }
    ensures media { IfOk result (λ bytes. media_read boundary.now bytes.items
        ≡ map (λ part. Some (without_blanks (bytes_of part.media))) parts.now) }
    ensures refusal { MatchResult result (λ _. spec_are_good_parts boundary.now parts.now ≡ true)
        (λ refusal. refusal ≢ WriteRefusal.NoMemory
        → (refusal ≡ WriteRefusal.BadFiles)
        × (spec_are_good_parts boundary.now parts.now ≡ false)) }
    ensures memory { result ≡ Err WriteRefusal.NoMemory
        → is_good_list boundary.now parts.now ≡ true }
{
    if !are_good_parts(alloc, boundary, parts)? {
        return Err(WriteRefusal::BadFiles);
    }
    law_of_entities();
    let bytes = boundary_bytes(alloc, boundary)?;
    Ok(bytes_of_entity(alloc, bytes.as_slice(), parts)?)
}

/// The bytes of the boundary, which are its codes.
fn boundary_bytes(alloc: Global, boundary: &Text) -> Result<Vec<u8>, NoMemory>
    ensures { spec_is_boundary boundary.now ≡ true
        → IfOk result (λ bytes. bytes.items ≡ boundary.now) }
{
    let mut bytes = Vec::new(alloc);
    boundary.push_bytes(&mut bytes)?;
    Ok(bytes)
}
