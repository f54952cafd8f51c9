//! The bytes of an entity.

ghost use Rattle.std.specs.Prelude.{◌≡◌, ◌++◌, [], IfOk, OnOk, map, codes as ascii};
ghost use Rattle.bml_bytes.specs.Codes.{bytes_of};
ghost use Rattle.multipart_entities.specs.Lines.{line_then};
ghost use Rattle.carousel_writer.specs.Entities.{body_bytes, entity_bytes, first_line, part_bytes};

use crate::files::FilePart;
use bml_bytes::{NoMemory, Text};
use std::alloc::Global;

/// The bytes of an entity with this boundary.
pub fn bytes_of_entity(
    alloc: Global,
    boundary: &[u8],
    parts: &[FilePart],
) -> Result<Vec<u8>, NoMemory>
    ensures { IfOk result (λ bytes. bytes.items ≡ entity_bytes boundary.now parts.now) }
{
    let mut out = Vec::new(alloc);
    push_head(&mut out, boundary)?;
    push_body(&mut out, boundary, parts)?;
    Ok(out)
}

/// Appends the entity's head.
fn push_head(out: &mut Vec<u8>, boundary: &[u8]) -> Result<(), NoMemory>
    ensures { OnOk result (out.new.items
        ≡ out.old.items ++ line_then (first_line boundary.now) (line_then [] [])) }
{
    out.extend_from_slice(b"Content-Type: multipart/mixed; boundary=\"")?;
    out.extend_from_slice(boundary)?;
    out.extend_from_slice(b"\"\r\n\r\n")?;
    Ok(())
}

/// Appends the body parts and their delimiter lines.
fn push_body(out: &mut Vec<u8>, boundary: &[u8], parts: &[FilePart]) -> Result<(), NoMemory>
    ensures { OnOk result (out.new.items
        ≡ out.old.items ++ body_bytes boundary.now (map part_bytes parts.now)) }
{
    let mut rest = parts;
    'parts: while let Some((first, behind)) = rest.split_first() {
        push_body_part(out, boundary, first)?;
        rest = behind;
    }
    push_last(out, boundary)
}

/// Appends a delimiter line and the body part behind it, with the CR LF before the next one.
fn push_body_part(out: &mut Vec<u8>, boundary: &[u8], part: &FilePart) -> Result<(), NoMemory>
    ensures { OnOk result (out.new.items ≡ out.old.items
        ++ line_then (ascii "--" ++ boundary.now) (line_then (part_bytes part.now) [])) }
{
    push_line(out, b"--", boundary)?;
    push_part(out, part)?;
    out.extend_from_slice(b"\r\n")?;
    Ok(())
}

/// Appends the last delimiter line.
fn push_last(out: &mut Vec<u8>, boundary: &[u8]) -> Result<(), NoMemory>
    ensures { OnOk result (out.new.items ≡ out.old.items
        ++ line_then (ascii "--" ++ (boundary.now ++ ascii "--")) []) }
{
    out.extend_from_slice(b"--")?;
    out.extend_from_slice(boundary)?;
    out.extend_from_slice(b"--\r\n")?;
    Ok(())
}

/// Appends the head of a part, and its bytes.
fn push_part(out: &mut Vec<u8>, part: &FilePart) -> Result<(), NoMemory>
    ensures { OnOk result (out.new.items ≡ out.old.items ++ part_bytes part.now) }
{
    push_header(out, b"Content-Type: ", &part.media)?;
    push_header(out, b"Content-Location: ", &part.name)?;
    out.extend_from_slice(b"\r\n")?;
    out.extend_from_slice(part.bytes.as_slice())?;
    Ok(())
}

/// Appends a header line.
fn push_header(out: &mut Vec<u8>, name: &[u8], text: &Text) -> Result<(), NoMemory>
    ensures { OnOk result (out.new.items
        ≡ out.old.items ++ line_then (name.now ++ bytes_of text.now) []) }
{
    out.extend_from_slice(name)?;
    text.push_bytes(out)?;
    out.extend_from_slice(b"\r\n")?;
    Ok(())
}

/// Appends a line in two pieces.
fn push_line(out: &mut Vec<u8>, front: &[u8], back: &[u8]) -> Result<(), NoMemory>
    ensures { OnOk result (out.new.items
        ≡ out.old.items ++ line_then (front.now ++ back.now) []) }
{
    out.extend_from_slice(front)?;
    out.extend_from_slice(back)?;
    out.extend_from_slice(b"\r\n")?;
    Ok(())
}
