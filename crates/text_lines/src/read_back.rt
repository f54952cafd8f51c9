//! The texts of a display list, read back from its printed lines.

ghost use Rattle.std.specs.Prelude.{◌≡◌, ◌<◌, ◌==◌, true, [], ◌∷◌, codes, length, option_map, IfOk, IfSome, MatchOption};
ghost use Rattle.std.specs.List.{slice_split};
ghost use Rattle.bml_bytes.specs.Numerals.{decimal_field};
ghost use Rattle.text_lines.specs.ReadBack.{is_escape as spec_is_escape, is_upper_hex as spec_is_upper_hex, signed_field, text_in as spec_text_in, text_of_fields, text_with, unescaped, upper_hex_value as spec_upper_hex_value};
ghost use Rattle.text_lines.specs.devices.FieldsRead.{shown_text};

use crate::cuts::cut_at;
use bml_bytes::{NoMemory, Text, read_decimal};
use std::alloc::Global;

/// A text of a display list.
#[derive(Drop)]
pub struct ShownText {
    /// Where its box stands, in pixels from the left and from the top of the screen.
    pub x: i64,
    pub y: i64,
    /// The width of its box, and the size of its characters, in pixels.
    pub width: u32,
    pub size: u32,
    /// Its codes: those of the bytes that were printed.
    pub text: Text,
}

// The fields of a line of a text: its numbers, and its bytes as they are printed.
#[derive(Clone, Copy)]
struct Fields<'a> {
    x: i64,
    y: i64,
    width: u32,
    size: u32,
    bytes: &'a [u8],
}

/// The text that a line shows: the line is `text X Y W H COLOR SIZE BYTES`. None where it is no such line.
pub fn text_in(alloc: Global, line: &[u8]) -> Result<Option<ShownText>, NoMemory>
    ensures { IfOk result (λ shown. shown ≡ spec_text_in line.now) }
{
    let Some(fields) = fields_of(line) else {
        return Ok(None);
    };
    let bytes = unescape(alloc, fields.bytes)?;
    let text = Text::of_bytes(alloc, &bytes)?;
    Ok(Some(ShownText {
        x: fields.x,
        y: fields.y,
        width: fields.width,
        size: fields.size,
        text,
    }))
}

// The fields of a line of a text.
fn fields_of(line: &[u8]) -> Option<Fields<'_>>
    ensures { option_map shown_text result ≡ spec_text_in line.now }
{
    let (word, rest) = cut_at(b' ', line)?;
    let text: &[u8] = b"text";
    if word == text {
        fields_behind(rest)
    } else {
        None
    }
}

// The fields that stand behind the word at the front of such a line.
fn fields_behind(rest: &[u8]) -> Option<Fields<'_>>
    ensures { option_map shown_text result
        ≡ text_of_fields (codes "text" ∷ slice_split (λ other. other == 32) rest.now) }
{
    let (x, rest) = cut_at(b' ', rest)?;
    let (y, rest) = cut_at(b' ', rest)?;
    let (width, rest) = cut_at(b' ', rest)?;
    let (_height, rest) = cut_at(b' ', rest)?;
    let (_color, rest) = cut_at(b' ', rest)?;
    let (size, bytes) = cut_at(b' ', rest)?;
    with_numbers(x, y, width, size, bytes)
}

// The fields with these numbers, where the four are numbers.
fn with_numbers<'a>(
    x: &[u8],
    y: &[u8],
    width: &[u8],
    size: &[u8],
    bytes: &'a [u8],
) -> Option<Fields<'a>>
    ensures { option_map shown_text result ≡ text_with (signed_field x.now) (signed_field y.now)
        (decimal_field width.now) (decimal_field size.now) bytes.now }
{
    Some(Fields {
        x: read_signed(x)?,
        y: read_signed(y)?,
        width: read_decimal(width)?,
        size: read_decimal(size)?,
        bytes,
    })
}

// A decimal number, which may have a minus sign in front.
fn read_signed(bytes: &[u8]) -> Option<i64>
    ensures { result ≡ signed_field bytes.now }
{
    let (first, digits) = bytes.split_first()?;
    if *first == b'-' {
        Some(-i64::from(read_decimal(digits)?))
    } else {
        Some(i64::from(read_decimal(bytes)?))
    }
}

// The bytes that were printed.
fn unescape(alloc: Global, bytes: &[u8]) -> Result<Vec<u8>, NoMemory>
    ensures { IfOk result (λ found. found.items ≡ unescaped bytes.now) }
{
    let mut found = Vec::new(alloc);
    let mut rest = bytes;
    while let Some((byte, behind)) = next_byte(rest) {
        found.push(byte)?;
        rest = behind;
    }
    Ok(found)
}

// The first byte that was printed, and what is printed behind it. None where there is none.
#[tactic(auto, unfolding(crate::specs::ReadBack::unescaped))]
fn next_byte(bytes: &[u8]) -> Option<(u8, &[u8])>
    ensures first { MatchOption result (unescaped bytes.now ≡ [])
        (λ found. unescaped bytes.now ≡ found.0 ∷ unescaped found.1.now) }
    ensures shorter { IfSome result (λ found. length found.1.now < length bytes.now) }
{
    match bytes {
        [] => None,
        [sign, first, second, rest @ ..] if is_escape(*sign, *first, *second) => {
            Some((
                upper_hex_value(*first) * 16 + upper_hex_value(*second),
                rest,
            ))
        }
        [byte, rest @ ..] => Some((*byte, rest)),
    }
}

// Whether these are a percent sign and two hexadecimal digits in upper case.
fn is_escape(sign: u8, first: u8, second: u8) -> bool
    ensures { result ≡ spec_is_escape sign first second }
{
    sign == b'%' && is_upper_hex(first) && is_upper_hex(second)
}

fn is_upper_hex(digit: u8) -> bool
    ensures { result ≡ spec_is_upper_hex digit }
{
    digit.is_ascii_digit() || (b'A'..=b'F').contains(&digit)
}

fn upper_hex_value(digit: u8) -> u8
    requires { spec_is_upper_hex digit ≡ true }
    ensures value { result ≡ spec_upper_hex_value digit }
    ensures small { result < 16 }
{
    if digit >= b'A' {
        digit - b'A' + 10
    } else {
        digit - b'0'
    }
}
