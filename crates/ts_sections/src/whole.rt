//! The sections of a whole list of packets at once.
ghost use Rattle.std.specs.Prelude.{◌≡◌, map, IfOk};
ghost use Rattle.ts_sections.specs.Sections.{sections};

use crate::assembler::Assembler;
use std::alloc::{AllocError, Global};
use ts_packets::Packet;

/// The sections that these packets of one PID carry, in their order. Fails only where memory runs
/// out.
pub fn sections_of(alloc: Global, packets: &[Packet]) -> Result<Vec<Vec<u8>>, AllocError>
    ensures { IfOk result
        (λ found. map (λ section. section.items) found.items ≡ sections packets.now) }
{
    let mut assembler = Assembler::new();
    let mut found = Vec::new(alloc);
    for packet in packets {
        assembler.push(packet);
        while let Some(section) = assembler.next() {
            found.push(Vec::from_slice(alloc, section)?)?;
        }
    }
    Ok(found)
}
