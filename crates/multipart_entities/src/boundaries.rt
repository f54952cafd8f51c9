//! The boundary of an entity of several parts, and its delimiter lines.

ghost use Rattle.std.specs.Prelude.{◌≡◌, ◌≤◌, ◌+◌, ◌∷◌, [], length, option_copied, IfSome, if◌then◌else◌, ◌++◌, codes as ascii};
ghost use Rattle.std.specs.List.{before_first, list_any, position_or_len};
ghost use Rattle.std.specs.Option.{option_map_or};
ghost use Rattle.multipart_entities.specs.Lines.{behind as spec_behind};
ghost use Rattle.multipart_entities.specs.Boundaries.{boundary_at as spec_boundary_at, boundary_in as spec_boundary_in, ends_boundary as spec_ends_boundary, is_followed_by_blanks as spec_is_followed_by_blanks, is_multipart as spec_is_multipart, is_quote};
ghost use Rattle.multipart_entities.specs.BoundaryViews.{delimiters_from, kind_of, seen_delimiter};

use crate::bytes::{are_blanks, behind, behind_first, is_blank, is_same_text};
use crate::lines::next_line;

// The media type of an entity of several parts.
const MULTIPART: &[u8] = b"multipart/mixed";

/// A delimiter line: where it begins, where the next line does (behind the end where nothing ends
/// the line), and whether it is the last one.
#[derive(Clone, Copy)]
pub struct Delimiter {
    pub start: usize,
    pub next: usize,
    pub last: bool,
}

/// Whether a media type is one of several parts: it begins with `multipart/mixed`, without ASCII
/// case.
#[tactic(auto, unfolding(crate::specs::Boundaries::is_multipart))]
pub fn is_multipart(media: &[u8]) -> bool
    ensures { result ≡ spec_is_multipart media.now }
{
    let size = media.len().min(MULTIPART.len());
    is_same_text(&media[..size], MULTIPART)
}

/// The boundary that a media type tells. An empty one is none.
#[tactic(auto, unfolding(crate::specs::Boundaries::boundary_in))]
pub fn boundary_in(media: &[u8]) -> Option<&[u8]>
    ensures { option_copied result ≡ spec_boundary_in media.now }
{
    let boundary = boundary_at(behind_first(b"boundary=", media)?);
    if boundary.is_empty() {
        None
    } else {
        Some(boundary)
    }
}

// The boundary at the front: what stands in quotes, or else all up to `;` or white.
fn boundary_at(bytes: &[u8]) -> &[u8]
    ensures { result.now ≡ spec_boundary_at bytes.now }
{
    match bytes.split_first() {
        Some((b'"', quoted)) => before_quote(quoted),
        _ => before_end(bytes),
    }
}

// What stands before the first quote, and nothing where there is none.
fn before_quote(bytes: &[u8]) -> &[u8]
    ensures { result.now
        ≡ (if list_any is_quote bytes.now then before_first is_quote bytes.now else []) }
{
    let size = size_before_quote(bytes);
    if size == bytes.len() {
        return &[];
    }
    &bytes[..size]
}

// How many bytes stand before the first quote, or in all where there is none.
fn size_before_quote(bytes: &[u8]) -> usize
    ensures count { result ≡ position_or_len is_quote bytes.now }
    ensures bound { result ≤ length bytes.now }
{
    bytes.iter().take_while(|byte| **byte != b'"').count()
}

// What stands before the first byte that ends a boundary, or all.
fn before_end(bytes: &[u8]) -> &[u8]
    ensures { result.now ≡ before_first spec_ends_boundary bytes.now }
{
    &bytes[..size_before_end(bytes)]
}

// How many bytes stand before the first one that ends a boundary, or in all.
fn size_before_end(bytes: &[u8]) -> usize
    ensures count { result ≡ position_or_len spec_ends_boundary bytes.now }
    ensures bound { result ≤ length bytes.now }
{
    bytes
        .iter()
        .take_while(|byte| !ends_boundary(**byte))
        .count()
}

fn ends_boundary(byte: u8) -> bool
    ensures { result ≡ spec_ends_boundary byte }
{
    byte == b';' || is_blank(byte) || byte == b'\n' || byte == b'\r'
}

/// The first delimiter line among the lines that begin at a place.
pub fn next_delimiter(boundary: &[u8], bytes: &[u8], place: usize) -> Option<Delimiter>
    ensures found { delimiters_from boundary.now bytes.now place
        ≡ option_map_or (λ found.
        seen_delimiter found ∷ delimiters_from boundary.now bytes.now found.next) result [] }
    ensures behind { IfSome result (λ found. place ≤ found.start) }
    ensures next { IfSome result (λ found. found.start + 2 ≤ found.next) }
    ensures start { IfSome result (λ found. found.start ≤ length bytes.now) }
    ensures inside { IfSome result (λ found. found.next ≤ length bytes.now + 2) }
{
    let mut start = place;
    'lines: while let Some(rest) = bytes.get(start..) {
        let (line, _) = next_line(rest);
        let next = start + line.len() + 2;
        if let Some(last) = delimiter_kind(boundary, line) {
            return Some(Delimiter { start, next, last });
        }
        start = next;
    }
    None
}

// Whether the delimiter that a line is is the last one, and None where the line is none.
fn delimiter_kind(boundary: &[u8], line: &[u8]) -> Option<bool>
    ensures { result ≡ kind_of boundary.now line.now }
{
    let rest = behind_boundary(boundary, line)?;
    if are_blanks(rest) {
        return Some(false);
    }
    if is_followed_by_blanks(b"--", rest) {
        return Some(true);
    }
    None
}

// Whether these bytes stand at the front, and then blanks alone.
fn is_followed_by_blanks(front: &[u8], bytes: &[u8]) -> bool
    ensures { result ≡ spec_is_followed_by_blanks front.now bytes.now }
{
    match behind(front, bytes) {
        Some(rest) => are_blanks(rest),
        None => false,
    }
}

// What stands behind `--` and the boundary at the front of a line, which is compared only as far as
// it goes.
fn behind_boundary<'a>(boundary: &[u8], line: &'a [u8]) -> Option<&'a [u8]>
    ensures { option_copied result ≡ spec_behind (ascii "--" ++ boundary.now) line.now }
{
    behind(boundary, behind(b"--", line)?)
}
