//! The head of an entity or of a part.

ghost use Rattle.std.specs.Prelude.{◌≡◌, ◌≤◌, length, option_copied, option_map, IfOk, IfSome, not};
ghost use Rattle.std.specs.List.{after_last, position_or_len, suffix_len};
ghost use Rattle.multipart_entities.specs.Heads.{is_colon, is_slash};
ghost use Rattle.multipart_entities.specs.HeadViews.{good_head, header_in, is_binary_by, name_by, part_name_by, seen_head, seen_header, value_for, with_header};

use crate::bytes::{is_same_text, without_blanks};
use crate::lines::next_line;
use bml_bytes::{NoMemory, Text};
use std::alloc::Global;

/// What is kept of a head: its size in bytes, with the empty line, and for each name that is asked
/// for the value of the first header of that name.
#[derive(Clone, Copy)]
pub struct Head<'a> {
    pub size: usize,

    /// Content-Type.
    pub media: Option<&'a [u8]>,

    /// Content-Transfer-Encoding.
    pub encoding: Option<&'a [u8]>,

    /// Content-Location.
    pub location: Option<&'a [u8]>,
}

// A header line: its name, and its value without the blanks round it.
#[derive(Clone, Copy)]
struct Header<'a> {
    name: &'a [u8],
    value: &'a [u8],
}

/// The head at the front of some bytes. None where they have no empty line, or a line before it is
/// no header.
pub fn read_head(bytes: &[u8]) -> Option<Head>
    ensures head { option_map seen_head result ≡ good_head bytes.now }
    ensures bound { IfSome result (λ head. head.size ≤ length bytes.now) }
{
    let mut head = Head {
        size: 0,
        media: None,
        encoding: None,
        location: None,
    };
    let mut rest = bytes;
    'lines: loop {
        let (line, behind) = next_line(rest);
        rest = behind?;
        if line.is_empty() {
            let size = bytes.len() - rest.len();
            return Some(Head { size, ..head });
        }
        head = head.with(read_header(line)?);
    }
}

impl<'a> Head<'a> {
    /// The name of the part that begins with the head: what follows the last `/` of
    /// Content-Location, or else empty. None where the bytes behind the head don't stand as they
    /// are.
    pub fn part_name(self, alloc: Global) -> Result<Option<Text>, NoMemory>
        ensures { IfOk result (λ name. name ≡ part_name_by (seen_head self.entry)) }
    {
        if !self.is_binary() {
            return Ok(None);
        }
        let name = self.name(alloc)?;
        Ok(Some(name))
    }

    // Whether the bytes behind the head stand as they are.
    fn is_binary(self) -> bool
        ensures { result ≡ is_binary_by (seen_head self.entry) }
    {
        match self.encoding {
            Some(encoding) => is_same_text(b"binary", encoding),
            None => true,
        }
    }

    // The name that Content-Location tells.
    fn name(self, alloc: Global) -> Result<Text, NoMemory>
        ensures { IfOk result (λ name. name ≡ name_by (seen_head self.entry)) }
    {
        match self.location {
            Some(location) => Text::of_bytes(alloc, behind_last_slash(location)),
            None => Text::of_bytes(alloc, &[]),
        }
    }

    // The same head with one header more.
    fn with(self, header: Header<'a>) -> Head<'a>
        ensures { seen_head result ≡ with_header (seen_head self.entry) (seen_header header.entry) }
    {
        Head {
            size: self.size,
            media: self.media.or(header.value_of(b"Content-Type")),
            encoding: self
                .encoding
                .or(header.value_of(b"Content-Transfer-Encoding")),
            location: self.location.or(header.value_of(b"Content-Location")),
        }
    }
}

impl<'a> Header<'a> {
    // The value, where the header is of that name, without ASCII case.
    fn value_of(self, name: &[u8]) -> Option<&'a [u8]>
        ensures { option_copied result ≡ value_for name.now (seen_header self.entry) }
    {
        if is_same_text(self.name, name) {
            Some(self.value)
        } else {
            None
        }
    }
}

// The header that a line is, and None where no colon stands in it behind a name.
fn read_header(line: &[u8]) -> Option<Header>
    ensures { option_map seen_header result ≡ header_in line.now }
{
    let colon = before_colon(line);
    if colon == 0 || colon == line.len() {
        return None;
    }
    Some(Header {
        name: &line[..colon],
        value: without_blanks(&line[colon + 1..]),
    })
}

// How many bytes stand before the first colon, or in all where there is none.
fn before_colon(line: &[u8]) -> usize
    ensures count { result ≡ position_or_len is_colon line.now }
    ensures bound { result ≤ length line.now }
{
    line.iter().take_while(|byte| **byte != b':').count()
}

// What follows the last slash, or all where there is none.
fn behind_last_slash(bytes: &[u8]) -> &[u8]
    ensures { result.now ≡ after_last is_slash bytes.now }
{
    &bytes[bytes.len() - behind_slash(bytes)..]
}

// How many bytes stand behind the last slash, or in all where there is none.
fn behind_slash(bytes: &[u8]) -> usize
    ensures count { result ≡ suffix_len (λ byte. not (is_slash byte)) bytes.now }
    ensures bound { result ≤ length bytes.now }
{
    bytes.iter().rev().take_while(|byte| **byte != b'/').count()
}
