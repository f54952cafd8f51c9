//! Text literals.

ghost use Rattle.std.specs.Prelude.{◌≡◌, ◌<◌, true, map, option_map, IfOk, IfSome};
ghost use Rattle.es_lexer.specs.Literals.{code_meant, control_of as spec_control_of};
ghost use Rattle.es_lexer.specs.Scanning.{changed};
ghost use Rattle.es_lexer.specs.Codes.{is_octal_digit as spec_is_octal_digit};
ghost use Rattle.es_lexer.specs.ScannedLiterals.{hex_digits_at, hex_escape_at, third_digit_at, second_digit_at, escape_at, character_at, characters_at};
ghost use Rattle.es_lexer.specs.Literals.Character.{ByteEscape, CodeEscape};
ghost use Rattle.es_lexer.specs.Views.{found_number, found_text, hex_number};

use crate::codes::{hex_value, is_hex_digit, is_line_terminator, is_octal_digit, octal_value};
use bml_bytes::{NoMemory, Text};
use std::alloc::Global;

const BACKSLASH: u16 = 0x5C;

/// The text that a literal means, from behind its quote up to the next one, and what stands behind
/// that. None where the literal isn't closed on its line.
pub fn literal(alloc: Global, quote: u16, codes: &[u16]) -> Result<Option<(Text, &[u16])>, NoMemory>
    ensures { IfOk result (λ found. option_map found_text found
        ≡ option_map (changed (map code_meant)) (characters_at quote codes.now)) }
{
    let mut meant = Vec::new(alloc);
    let mut rest = codes;
    'characters: loop {
        match rest.split_first() {
            None => return Ok(None),
            Some((code, behind)) => if *code == quote {
                let text = Text::of_codes(alloc, meant.as_slice())?;
                return Ok(Some((text, behind)));
            },
        }
        match character(quote, rest) {
            None => return Ok(None),
            Some((code, behind)) => {
                meant.push(code)?;
                rest = behind;
            }
        }
    }
}

// The code that the character at the front means, and what stands behind it.
#[tactic(auto, unfolding(crate::specs::ScannedLiterals::character_at))]
fn character(quote: u16, codes: &[u16]) -> Option<(u16, &[u16])>
    ensures { option_map found_number result
        ≡ option_map (changed code_meant) (character_at quote codes.now) }
{
    let (code, rest) = codes.split_first()?;
    if *code == BACKSLASH {
        return escape(rest);
    }
    if *code == quote || is_line_terminator(*code) {
        return None;
    }
    Some((*code, rest))
}

// The code that the escape behind a `\` means, and what stands behind it.
#[tactic(auto, unfolding(crate::specs::ScannedLiterals::escape_at))]
fn escape(codes: &[u16]) -> Option<(u16, &[u16])>
    ensures { option_map found_number result
        ≡ option_map (changed code_meant) (escape_at codes.now) }
{
    let (code, rest) = codes.split_first()?;
    if is_line_terminator(*code) {
        return None;
    }
    if is_octal_digit(*code) {
        return Some(octal_escape(*code, rest));
    }
    if *code == u16::from(b'x') {
        return Some(byte_escape(rest));
    }
    if *code == u16::from(b'u') {
        return Some(code_escape(rest));
    }
    match control_of(*code) {
        Some(control) => Some((control, rest)),
        None => Some((*code, rest)),
    }
}

// The control character that a letter behind `\` means.
#[tactic(auto, unfolding(crate::specs::Literals::control_of))]
fn control_of(letter: u16) -> Option<u16>
    ensures { result ≡ spec_control_of letter }
{
    match u8::try_from(letter).ok()? {
        b'b' => Some(8),
        b'f' => Some(12),
        b'n' => Some(10),
        b'r' => Some(13),
        b't' => Some(9),
        _ => None,
    }
}

// The code of the octal digits behind `\`, of which this is the first.
#[tactic(auto, using(crate::proofs::DigitLemmas::octal_digits), unfolding(crate::specs::ScannedLiterals::second_digit_at))]
fn octal_escape(first: u16, codes: &[u16]) -> (u16, &[u16])
    requires { spec_is_octal_digit first ≡ true }
    ensures { found_number result ≡ changed code_meant (second_digit_at first codes.now) }
{
    match codes.split_first() {
        Some((second, rest)) if is_octal_digit(*second) => {
            if first <= u16::from(b'3') {
                return third_octal_digit(first, *second, rest);
            }
            (octal_value(first) * 8 + octal_value(*second), rest)
        }
        _ => (octal_value(first), codes),
    }
}

// The same behind two octal digits.
#[tactic(auto, using(crate::proofs::DigitLemmas::octal_digits), unfolding(crate::specs::ScannedLiterals::third_digit_at))]
fn third_octal_digit(first: u16, second: u16, codes: &[u16]) -> (u16, &[u16])
    requires first { spec_is_octal_digit first ≡ true }
    requires second { spec_is_octal_digit second ≡ true }
    ensures { found_number result ≡ changed code_meant (third_digit_at first second codes.now) }
{
    let two = octal_value(first) * 8 + octal_value(second);
    match codes.split_first() {
        Some((third, rest)) if is_octal_digit(*third) => (two * 8 + octal_value(*third), rest),
        _ => (two, codes),
    }
}

// What `\x` means where these codes stand behind it.
#[tactic(auto, unfolding(crate::specs::ScannedLiterals::hex_escape_at))]
fn byte_escape(codes: &[u16]) -> (u16, &[u16])
    ensures { found_number result ≡ changed code_meant (hex_escape_at 2 120 ByteEscape codes.now) }
{
    match two_hex_digits(codes) {
        Some((number, rest)) => (number, rest),
        None => (u16::from(b'x'), codes),
    }
}

// What `\u` means where these codes stand behind it.
#[tactic(auto, unfolding(crate::specs::ScannedLiterals::hex_escape_at))]
fn code_escape(codes: &[u16]) -> (u16, &[u16])
    ensures { found_number result ≡ changed code_meant (hex_escape_at 4 117 CodeEscape codes.now) }
{
    match four_hex_digits(codes) {
        Some((number, rest)) => (number, rest),
        None => (u16::from(b'u'), codes),
    }
}

// The number of the two hexadecimal digits at the front, and what stands behind them.
#[tactic(auto, using(crate::proofs::DigitLemmas::hex_digits), unfolding(crate::specs::ScannedLiterals::hex_digits_at))]
fn two_hex_digits(codes: &[u16]) -> Option<(u16, &[u16])>
    ensures number { option_map found_number result
        ≡ option_map (changed hex_number) (hex_digits_at 2 codes.now) }
    ensures small { IfSome result (λ found. found.0 < 256) }
{
    let (high, rest) = codes.split_first()?;
    if !is_hex_digit(*high) {
        return None;
    }
    let (low, rest) = rest.split_first()?;
    if !is_hex_digit(*low) {
        return None;
    }
    Some((hex_value(*high) * 16 + hex_value(*low), rest))
}

// The number of the four hexadecimal digits at the front, and what stands behind them.
fn four_hex_digits(codes: &[u16]) -> Option<(u16, &[u16])>
    ensures { option_map found_number result
        ≡ option_map (changed hex_number) (hex_digits_at 4 codes.now) }
{
    let (high, rest) = two_hex_digits(codes)?;
    let (low, rest) = two_hex_digits(rest)?;
    Some((high * 256 + low, rest))
}
