//! References to characters in texts and values.

ghost use Rattle.std.specs.Prelude.{◌≡◌, ◌++◌, ◌∷◌, [], ◌+◌, ◌*◌, ◌≤◌, ◌<◌, length, option_map, min, IfOk, IfSome, OnOk, MatchOption};
ghost use Rattle.bml_bytes.specs.Codes.{codes};
ghost use Rattle.bml_reader.specs.References.{read_references, read_behind, reference_at, numeric_at, number_at, closed_by, number_behind, hex_value};
ghost use Rattle.bml_reader.specs.devices.ReferenceViews.{found_reference};
ghost use Rattle.bml_reader.specs.devices.Views.{in_class};

use crate::bytes::{ByteClass, behind_mark, split_run};
use bml_bytes::{NoMemory, Text};
use std::alloc::Global;

/// The text of some bytes with their references read.
pub fn referring_text(alloc: Global, bytes: &[u8]) -> Result<Text, NoMemory>
    ensures { IfOk result (λ text. text ≡ codes (read_references bytes.now)) }
{
    let mut read = Vec::new(alloc);
    push_read(bytes, &mut read)?;
    Text::of_bytes(alloc, read.as_slice())
}

/// Appends some bytes with their references read.
pub fn push_read(bytes: &[u8], out: &mut Vec<u8>) -> Result<(), NoMemory>
    ensures { OnOk result (out.new.items ≡ out.old.items ++ read_references bytes.now) }
{
    let mut rest = bytes;
    'characters: while let Some((byte, more)) = character(rest) {
        out.push(byte)?;
        rest = more;
    }
    Ok(())
}

// The first byte, or the character of the reference at the front, and what stands behind it.
fn character(bytes: &[u8]) -> Option<(u8, &[u8])>
    ensures read { MatchOption result (bytes.now ≡ [])
        (λ found. read_behind 0 bytes.now ≡ found.0 ∷ read_behind 0 found.1.now) }
    ensures shorter { IfSome result (λ found. length found.1.now < length bytes.now) }
{
    let (byte, more) = bytes.split_first()?;
    if *byte != b'&' {
        return Some((*byte, more));
    }
    match reference(more) {
        Some((read, rest)) => Some((read, rest)),
        None => Some((*byte, more)),
    }
}

// The character of a reference, behind its `&`, and what stands behind it.
#[tactic(auto, unfolding(crate::specs::References::reference_at))]
fn reference(bytes: &[u8]) -> Option<(u8, &[u8])>
    ensures { option_map found_reference result ≡ reference_at bytes.now }
{
    match behind_mark(bytes, b"lt;") {
        Some(rest) => return Some((b'<', rest)),
        None => {}
    }
    match behind_mark(bytes, b"gt;") {
        Some(rest) => return Some((b'>', rest)),
        None => {}
    }
    match behind_mark(bytes, b"amp;") {
        Some(rest) => return Some((b'&', rest)),
        None => {}
    }
    match behind_mark(bytes, b"quot;") {
        Some(rest) => return Some((b'"', rest)),
        None => {}
    }
    match behind_mark(bytes, b"apos;") {
        Some(rest) => return Some((b'\'', rest)),
        None => {}
    }
    match behind_mark(bytes, b"#") {
        Some(rest) => numeric(rest),
        None => None,
    }
}

// The character of a numeric reference, behind its `&#`.
#[tactic(auto, unfolding(crate::specs::References::numeric_at))]
fn numeric(bytes: &[u8]) -> Option<(u8, &[u8])>
    ensures { option_map found_reference result ≡ numeric_at bytes.now }
{
    match bytes.split_first() {
        Some((b'x', more)) => number(ByteClass::HexDigit, 16, more),
        Some(_) => number(ByteClass::Digit, 10, bytes),
        None => None,
    }
}

// The character whose number the digits at the front are, where there are some and `;` stands
// behind them.
#[tactic(auto, unfolding(crate::specs::References::number_at))]
fn number(class: ByteClass, base: u32, bytes: &[u8]) -> Option<(u8, &[u8])>
    requires some { 0 < base }
    requires most { base ≤ 16 }
    ensures { option_map found_reference result ≡ number_at (in_class class) base bytes.now }
{
    let (digits, rest) = split_run(class, bytes);
    if digits.is_empty() {
        return None;
    }
    outside_element(number_of(base, digits), rest)
}

// The number of some digits, or 128 where it isn't below that.
fn number_of(base: u32, digits: &[u8]) -> u8
    requires some { 0 < base }
    requires most { base ≤ 16 }
    ensures { result ≡ min 128 (number_behind base 0 digits.now) }
{
    let mut number = 0;
    let mut rest = digits;
    'digits: while let Some((digit, more)) = rest.split_first() {
        number = with_digit(number, base, *digit);
        rest = more;
    }
    number
}

// The number with one digit more, or 128 where it isn't below that.
fn with_digit(number: u8, base: u32, digit: u8) -> u8
    requires small { number ≤ 128 }
    requires base { base ≤ 16 }
    ensures { result ≡ min 128 (number * base + hex_value digit) }
{
    let more = u32::from(number) * base + u32::from(digit_value(digit));
    if more < 128 { more as u8 } else { 128 }
}

#[tactic(auto, unfolding(crate::specs::References::hex_value))]
fn digit_value(digit: u8) -> u8
    ensures { result ≡ hex_value digit }
{
    if digit <= b'9' {
        digit.saturating_sub(b'0')
    } else if digit <= b'F' {
        digit.saturating_sub(b'7')
    } else {
        digit.saturating_sub(b'W')
    }
}

// The character of this number, where there is one and `;` stands at the front.
#[tactic(auto, unfolding(crate::specs::References::closed_by))]
fn outside_element(number: u8, bytes: &[u8]) -> Option<(u8, &[u8])>
    ensures { option_map found_reference result ≡ closed_by number bytes.now }
{
    match bytes.split_first() {
        Some((b';', rest)) if 1 <= number && number < 128 => Some((number, rest)),
        _ => None,
    }
}
