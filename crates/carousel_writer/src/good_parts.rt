//! Which parts can be written as an entity.

ghost use Rattle.std.specs.Prelude.{◌≡◌, ◌++◌, true, IfOk, IsErr, codes as ascii};
ghost use Rattle.std.specs.List.{list_all, list_any};
ghost use Rattle.bml_bytes.specs.Words.{is_same};
ghost use Rattle.carousel_writer.specs.GoodParts.{are_good_parts as spec_are_good_parts, have_own_names as spec_have_own_names, is_good_list as spec_is_good_list, is_boundary as spec_is_boundary, is_boundary_code as spec_is_boundary_code, is_media as spec_is_media, is_media_code as spec_is_media_code, is_name as spec_is_name, is_name_code as spec_is_name_code, is_outside as spec_is_outside, is_own as spec_is_own, is_part as spec_is_part};

use crate::files::FilePart;
use bml_bytes::{NoMemory, Text};
use multipart_entities::behind_first;
use std::alloc::Global;

/// The most parts of an entity.
const MOST_PARTS: usize = 512;

/// Whether the parts can be written with that boundary.
pub fn are_good_parts(alloc: Global, boundary: &Text, parts: &[FilePart]) -> Result<bool, NoMemory>
    ensures good { IfOk result (λ good. good ≡ spec_are_good_parts boundary.now parts.now) }
    ensures memory { IsErr result → spec_is_good_list boundary.now parts.now ≡ true }
{
    if !is_good_list(boundary, parts) {
        return Ok(false);
    }
    let word = dashed(alloc, boundary)?;
    are_parts(alloc, word.as_slice(), parts)
}

/// Whether the boundary and the number of parts are allowed, and no two parts have one name. This takes no memory.
fn is_good_list(boundary: &Text, parts: &[FilePart]) -> bool
    ensures { result ≡ spec_is_good_list boundary.now parts.now }
{
    is_boundary(boundary) && 1 <= parts.len() && parts.len() <= MOST_PARTS && have_own_names(parts)
}

/// `--` and the boundary.
fn dashed(alloc: Global, boundary: &Text) -> Result<Vec<u8>, NoMemory>
    ensures { spec_is_boundary boundary.now ≡ true
        → IfOk result (λ word. word.items ≡ ascii "--" ++ boundary.now) }
{
    let mut word = Vec::new(alloc);
    word.extend_from_slice(b"--")?;
    boundary.push_bytes(&mut word)?;
    Ok(word)
}

/// Whether it is 1 to 60 letters or digits.
fn is_boundary(boundary: &Text) -> bool
    ensures { result ≡ spec_is_boundary boundary.now }
{
    let codes = boundary.codes();
    1 <= codes.len() && codes.len() <= 60 && are_boundary_codes(codes)
}

fn are_boundary_codes(codes: &[u16]) -> bool
    ensures { result ≡ list_all spec_is_boundary_code codes.now }
{
    codes.iter().all(|code| is_boundary_code(*code))
}

fn is_boundary_code(code: u16) -> bool
    ensures { result ≡ spec_is_boundary_code code }
{
    (0x30 <= code && code <= 0x39)
        || (0x41 <= code && code <= 0x5A)
        || (0x61 <= code && code <= 0x7A)
}

/// Whether no two parts have one name. There are at most 512 of them, and each is compared with those behind it.
fn have_own_names(parts: &[FilePart]) -> bool
    ensures { result ≡ spec_have_own_names parts.now }
{
    let mut rest = parts;
    'parts: while let Some((first, behind)) = rest.split_first() {
        if is_name_among(&first.name, behind) {
            return false;
        }
        rest = behind;
    }
    true
}

fn is_name_among(name: &Text, parts: &[FilePart]) -> bool
    ensures { result ≡ list_any (λ other. is_same other.name name.now) parts.now }
{
    parts.iter().any(|other| other.name == *name)
}

/// Whether each part can be written, where this word may stand in none.
fn are_parts(alloc: Global, word: &[u8], parts: &[FilePart]) -> Result<bool, NoMemory>
    ensures { IfOk result (λ good. good ≡ list_all (spec_is_part word.now) parts.now) }
{
    let mut rest = parts;
    'parts: while let Some((first, behind)) = rest.split_first() {
        if !is_part(alloc, word, first)? {
            return Ok(false);
        }
        rest = behind;
    }
    Ok(true)
}

fn is_part(alloc: Global, word: &[u8], part: &FilePart) -> Result<bool, NoMemory>
    ensures { IfOk result (λ good. good ≡ spec_is_part word.now part.now) }
{
    if !is_name(alloc, &part.name)? {
        return Ok(false);
    }
    if !is_media(alloc, &part.media)? {
        return Ok(false);
    }
    Ok(is_outside(word, part.bytes.as_slice()))
}

fn is_name(alloc: Global, name: &Text) -> Result<bool, NoMemory>
    ensures { IfOk result (λ good. good ≡ spec_is_name name.now) }
{
    if name.len() < 1 || name.len() > 64 || !are_name_codes(name.codes()) {
        return Ok(false);
    }
    is_own(alloc, name)
}

fn are_name_codes(codes: &[u16]) -> bool
    ensures { result ≡ list_all spec_is_name_code codes.now }
{
    codes.iter().all(|code| 0x21 <= *code && *code != 0x2F)
}

fn is_media(alloc: Global, media: &Text) -> Result<bool, NoMemory>
    ensures { IfOk result (λ good. good ≡ spec_is_media media.now) }
{
    if !are_media_codes(media.codes()) {
        return Ok(false);
    }
    is_own(alloc, media)
}

fn are_media_codes(codes: &[u16]) -> bool
    ensures { result ≡ list_all spec_is_media_code codes.now }
{
    codes.iter().all(|code| 0x20 <= *code)
}

/// Whether a text is the codes of its own bytes.
pub fn is_own(alloc: Global, text: &Text) -> Result<bool, NoMemory>
    ensures { IfOk result (λ own. own ≡ spec_is_own text.now) }
{
    let mut bytes = Vec::new(alloc);
    text.push_bytes(&mut bytes)?;
    let again = Text::of_bytes(alloc, bytes.as_slice())?;
    Ok(again == *text)
}

/// Whether a word stands nowhere in some bytes.
fn is_outside(word: &[u8], bytes: &[u8]) -> bool
    ensures { result ≡ spec_is_outside word.now bytes.now }
{
    behind_first(word, bytes).is_none()
}
