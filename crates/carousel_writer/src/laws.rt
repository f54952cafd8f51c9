//! What the definitions say together. Each function is a law: its contract is what it is for, and it does nothing when it
//! runs.

ghost use Rattle.std.specs.Prelude.{◌≡◌, ◌↔◌, ◌≤◌, ◌<◌, ◌+◌, true, ℕ, List, Some, map, Ok, option_and_then, option_map, sum_by};
ghost use Rattle.std.specs.List.{All, list_all};
ghost use Rattle.bml_bytes.specs.Codes.{bytes_of};
ghost use Rattle.ts_packets.specs.Packets.{packets_of};
ghost use Rattle.ts_sections.specs.Intact.{IsIntact};
ghost use Rattle.dsmcc_messages.specs.Reading.{descriptor_in};
ghost use Rattle.multipart_entities.specs.Lines.{without_blanks};
ghost use Rattle.section_writer.specs.Packets.{laid};
ghost use Rattle.section_writer.specs.Received.{sections_on};
ghost use Rattle.carousel_blocks.specs.Held.{bytes_held};
ghost use Rattle.carousel_blocks.specs.Carousel.{entry_in_force};
ghost use Rattle.carousel_writer.specs.declared.files.FilePart.{FilePart};
ghost use Rattle.carousel_writer.specs.declared.files.Files.{Files};
ghost use Rattle.carousel_writer.specs.Entities.{entity_bytes, file_seen, media_read, parts_read};
ghost use Rattle.carousel_writer.specs.GoodFiles.{AreSmall, HaveTypes, are_good_files, entry_size, has_short_dii, have_own_numbers, is_unskipped};
ghost use Rattle.carousel_writer.specs.GoodParts.{are_good_parts};
ghost use Rattle.carousel_writer.specs.Received.{file_of, messages_on};
ghost use Rattle.carousel_writer.specs.Streams.{entry_of, messages_sent, sections_sent, stream_of, type_text};
ghost use Rattle.carousel_writer.specs.devices.LawsBelow.{Below, EntityLaws};
ghost use Rattle.carousel_writer.specs.devices.Laying.{CanBeLaid};

use bml_bytes::{law_of_big_numbers, law_of_own_codes, law_of_same_texts};
use carousel_blocks::{
    law_of_block_counts, law_of_entries, law_of_first_blocks, law_of_held_modules, law_of_messages,
};
use multipart_entities::{law_of_delimiters, law_of_ended_lines};
use section_writer::{law_of_written_sections, law_of_written_streams};
use table_fields::law_of_descriptors;

/// What is received of the stream of files that can be written: the packets are cut without rest, the sections are those
/// sent and intact, the messages are those sent, and held are exactly the files, each with its entry and media type.
pub fn law_of_streams()
    ensures packets { (files : Files) → are_good_files files ≡ true → HaveTypes files
        → laid (packets_of (stream_of files)) ≡ stream_of files }
    ensures sections { (files : Files) → are_good_files files ≡ true → HaveTypes files
        → sections_on files.pid (stream_of files) ≡ sections_sent files }
    ensures intact { (files : Files) → are_good_files files ≡ true → HaveTypes files
        → All IsIntact (sections_sent files) }
    ensures messages { (files : Files) → are_good_files files ≡ true → HaveTypes files
        → messages_on files.pid (stream_of files) ≡ messages_sent files }
    ensures held { (files : Files) → are_good_files files ≡ true → HaveTypes files → (number : ℕ)
        → bytes_held (messages_on files.pid (stream_of files)) number
        ≡ option_map (λ file. file.bytes.items) (file_of files number) }
    ensures entries { (files : Files) → are_good_files files ≡ true → HaveTypes files → (number : ℕ)
        → entry_in_force (messages_on files.pid (stream_of files)) number
        ≡ option_map entry_of (file_of files number) }
    ensures media { (files : Files) → are_good_files files ≡ true → HaveTypes files → (number : ℕ)
        → option_and_then (λ entry. descriptor_in entry.info 0x01)
        (entry_in_force (messages_on files.pid (stream_of files)) number)
        ≡ option_and_then (λ file. type_text file.media) (file_of files number) }
{
    laws_below();
}

/// What it takes in numbers of bytes that files can be written: when the DII's section is short enough, and when a reader
/// skips none of the modules.
pub fn law_of_file_sizes()
    ensures dii { (files : Files) → (has_short_dii files ≡ true)
        ↔ (46 + sum_by entry_size files.modules.items ≤ 4096) }
    ensures modules { (files : Files) → 0 < files.block_size
        → have_own_numbers files.modules.items ≡ true
        → (list_all (is_unskipped files) files.modules.items ≡ true) ↔ AreSmall files }
{
    laws_below();
}

/// Such files fit what carries them.
pub fn law_of_good_files()
    ensures { (files : Files) → are_good_files files ≡ true → CanBeLaid files }
{
    laws_below();
}

/// The laws of the crates below, as one.
pub fn laws_below()
    ensures { Below }
{
    law_of_written_sections();
    law_of_written_streams();
    law_of_big_numbers();
    law_of_descriptors();
    law_of_messages();
    law_of_block_counts();
    law_of_entries();
    law_of_first_blocks();
    law_of_held_modules();
}

/// What is read of the entity of parts that can be written: the parts, in their order, with their names, bytes and media
/// types, these without blanks at both ends.
pub fn law_of_entities()
    ensures parts { (boundary : List ℕ) (parts : List FilePart)
        → are_good_parts boundary parts ≡ true
        → parts_read (entity_bytes boundary parts) ≡ Ok (map file_seen parts) }
    ensures media { (boundary : List ℕ) (parts : List FilePart)
        → are_good_parts boundary parts ≡ true
        → media_read boundary (entity_bytes boundary parts)
        ≡ map (λ part. Some (without_blanks (bytes_of part.media))) parts }
{
    entity_laws_below();
}

/// The laws of texts, lines and delimiter lines, as one.
fn entity_laws_below()
    ensures { EntityLaws }
{
    law_of_own_codes();
    law_of_same_texts();
    law_of_ended_lines();
    law_of_delimiters();
}
