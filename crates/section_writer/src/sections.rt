//! The bytes of a section.

ghost use Rattle.std.specs.Prelude.{◌≡◌, ◌≤◌, ◌<◌, ◌++◌, ◌+◌, length, IfOk, OnOk};
ghost use Rattle.ts_sections.specs.Intact.{IsIntact};
ghost use Rattle.section_writer.specs.Sections.{front_bytes, section_bytes};

use crate::heads::SectionHead;
use crate::laws::law_of_written_sections;
use bml_bytes::NoMemory;
use std::alloc::Global;
use ts_sections::crc_of;

/// The section with this header and this body, and with its CRC_32 (ISO/IEC 13818-1, 2.4.4.11 and annex A). A body has at
/// most 4,084 bytes, so that the section has at most 4,096.
pub fn section_of(alloc: Global, head: SectionHead, body: &[u8]) -> Result<Vec<u8>, NoMemory>
    requires version { head.version < 32 }
    requires short { length body.now ≤ 4084 }
    ensures bytes { IfOk result (λ section. section.items ≡ section_bytes head body.now) }
    ensures size { IfOk result (λ section. length section.items ≡ length body.now + 12) }
    ensures intact { IfOk result (λ section. IsIntact section.items) }
{
    law_of_written_sections();
    let mut section = Vec::new(alloc);
    push_front(&mut section, head, body)?;
    let crc = crc_of(section.as_slice()).to_be_bytes();
    section.extend_from_slice(&crc)?;
    Ok(section)
}

/// Appends what stands before a section's CRC_32.
fn push_front(out: &mut Vec<u8>, head: SectionHead, body: &[u8]) -> Result<(), NoMemory>
    requires version { head.version < 32 }
    requires short { length body.now ≤ 4084 }
    ensures front { OnOk result (out.new.items ≡ out.old.items ++ front_bytes head body.now) }
    ensures size { OnOk result (length out.new.items ≡ length out.old.items + length body.now + 8) }
{
    let [high, low] = ((body.len() + 9) as u16).to_be_bytes();
    let [extension_high, extension_low] = head.extension.to_be_bytes();
    let current = if head.is_current { 1 } else { 0 };
    let version = head.version * 2 + current;
    out.extend_from_slice(&[head.table_id, 0x80 + high, low])?;
    out.extend_from_slice(&[extension_high, extension_low, version, 0, 0])?;
    out.extend_from_slice(body)?;
    Ok(())
}
