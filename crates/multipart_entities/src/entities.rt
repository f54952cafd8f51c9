//! Entities as a whole.

ghost use Rattle.std.specs.Prelude.{◌≡◌, ◌≢◌, ◌≤◌, All, length, Ok, Err, IfOk, MatchResult, option_copied};
ghost use Rattle.std.specs.Option.{option_to_list};
ghost use Rattle.multipart_entities.specs.HeadViews.{seen_head};
ghost use Rattle.multipart_entities.specs.Parts.{named_parts};
ghost use Rattle.multipart_entities.specs.PartViews.{IsWithin, part_by, multipart_in};

use crate::body_parts::parts_between_delimiters;
use crate::boundaries::{boundary_in, is_multipart};
use crate::faults::EntityFault;
use crate::heads::{Head, read_head};
use crate::parts::{Part, Parts};
use bml_bytes::NoMemory;
use std::alloc::Global;

/// Tells the parts of the entity that some bytes are. `Malformed` comes exactly where the bytes are
/// no entity, and `TooManyParts` exactly where they are one with more than 512 body parts between
/// its delimiter lines, up to the first last one. Each byte is read a bounded number of times, and
/// no part is copied.
pub fn entity_parts(alloc: Global, bytes: &[u8]) -> Result<Parts, EntityFault>
    ensures parts { MatchResult result (λ parts. named_parts bytes.now
        ≡ Ok parts) (λ fault. fault ≢ EntityFault.NoMemory → named_parts bytes.now ≡ Err fault) }
    ensures inside { IfOk result (λ parts. All (λ part. (part.start ≤ part.end)
        × (part.end ≤ length bytes.now)) parts) }
{
    let Some(head) = read_head(bytes) else {
        return Err(EntityFault::Malformed);
    };
    let Some(media) = multipart_media(head) else {
        return Ok(only_part(alloc, bytes, head)?);
    };
    let Some(boundary) = boundary_in(media) else {
        return Err(EntityFault::Malformed);
    };
    parts_between_delimiters(alloc, bytes, head.size, boundary)
}

// The media type, where it is one of several parts.
fn multipart_media(head: Head) -> Option<&[u8]>
    ensures { option_copied result ≡ multipart_in (seen_head head.entry).media }
{
    head.media.filter(|media| is_multipart(media))
}

// The part that the entity is as a whole, where it isn't one of several parts.
fn only_part(alloc: Global, bytes: &[u8], head: Head) -> Result<Parts, NoMemory>
    ensures parts { IfOk result (λ parts. parts
        ≡ option_to_list (part_by 0 (length bytes.now) (seen_head head.entry))) }
    ensures inside { head.entry.size ≤ length bytes.now
        → IfOk result (λ parts. All (IsWithin bytes.now) parts) }
{
    let mut parts = Parts::new(alloc);
    if let Some(name) = head.part_name(alloc)? {
        parts.add(Part {
            name,
            start: head.size,
            end: bytes.len(),
        })?;
    }
    Ok(parts)
}
