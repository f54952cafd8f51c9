//! The numbers of values.

ghost use Rattle.std.specs.Prelude.{◌≡◌, ◌≤◌, ◌-◌, is_some, IfSome, length, option_copied, option_map, pos, option_and_then};
ghost use Rattle.bml_bytes.specs.Numerals.{is_decimal_digit};
ghost use Rattle.style_reader.specs.Values.{numeral as spec_numeral, pixel_count as spec_pixel_count, signed as spec_signed, whole_between as spec_whole_between};
ghost use Rattle.style_reader.specs.devices.Views.{before_unit, capped, count_in, digits_number, in_reach};
ghost use Rattle.style_reader.specs.devices.Runs.{is_zero, without_front};
ghost use Rattle.std.specs.List.{list_all};

use crate::characters::BLOCK;
use crate::properties::StyleValue;
use bml_bytes::{is_word, is_word_in_any_case, law_of_decimals};

/// What is counted, and so what stands behind the digits.
#[derive(Clone, Copy)]
pub enum Unit {
    Pixels,
    Plain,
}

const MINUS: u16 = 0x2D;

const ZERO: u16 = 0x30;

/// How many digits are read behind the zeros in front. More write a number past every range.
const MOST_DIGITS: usize = 10;

/// A number past every range, at which counting stops.
const TOO_MANY: u64 = 0x1_0000_0000;

/// The number that a text is, from the least to the most.
pub fn whole(unit: Unit, least: i32, most: i32, text: &[u16]) -> Option<StyleValue>
    ensures { result
        ≡ option_and_then (spec_whole_between least most)
        (spec_signed (count_in unit) least text.now) }
{
    let number = signed(unit, least, text)?;
    if i64::from(least) <= number && number <= i64::from(most) {
        Some(StyleValue::Whole(number as i32))
    } else {
        None
    }
}

// The number that a text is, with a minus sign before it where the least one is below zero, or
// without.
fn signed(unit: Unit, least: i32, text: &[u16]) -> Option<i64>
    ensures { result
        ≡ spec_signed (λ digits. option_and_then in_reach (count_in unit digits)) least text.now }
{
    match text.split_first() {
        Some((first, digits)) if least < 0 && *first == MINUS => {
            let number = count(unit, digits)?;
            Some(-(number as i64))
        }
        _ => {
            let number = count(unit, text)?;
            Some(number as i64)
        }
    }
}

// The number that a text without a sign is, and None also where it is past every range.
fn count(unit: Unit, text: &[u16]) -> Option<u64>
    ensures count { result ≡ option_and_then in_reach (count_in unit text.now) }
    ensures small { IfSome result (λ number. number ≤ 4294967296) }
{
    match unit {
        Unit::Pixels => pixel_count(text),
        Unit::Plain => numeral(text),
    }
}

// A number of pixels: digits and `px`, or `0` alone.
fn pixel_count(text: &[u16]) -> Option<u64>
    ensures count { result ≡ option_and_then in_reach (spec_pixel_count text.now) }
    ensures small { IfSome result (λ number. number ≤ 4294967296) }
{
    if is_word(text, "0") {
        return Some(0);
    }
    let digits = without_unit(text)?;
    numeral(digits)
}

// What stands before the `px` at the end.
fn without_unit(text: &[u16]) -> Option<&[u16]>
    ensures { option_copied result ≡ before_unit text.now }
{
    let digits = text.len().saturating_sub(2);
    if is_word_in_any_case(&text[digits..], "px") {
        Some(&text[..digits])
    } else {
        None
    }
}

// The number of some digits, at least one.
fn numeral(digits: &[u16]) -> Option<u64>
    ensures count { result ≡ option_and_then in_reach (spec_numeral digits.now) }
    ensures small { IfSome result (λ number. number ≤ 4294967296) }
{
    if digits.is_empty() {
        return None;
    }
    number_in_reach(digits)
}

// The number of some digits. None where there is another code, or the number is past every range.
fn number_in_reach(digits: &[u16]) -> Option<u64>
    ensures number { result ≡ option_and_then in_reach (digits_number digits.now) }
    ensures small { IfSome result (λ number. number ≤ 4294967296) }
{
    let written = without_zeros(digits);
    if written.len() > MOST_DIGITS {
        return None;
    }
    let number = number_of(written)?;
    if number < TOO_MANY {
        Some(number)
    } else {
        None
    }
}

// What stands behind the zeros in front.
fn without_zeros(digits: &[u16]) -> &[u16]
    ensures { result.now ≡ without_front is_zero digits.now }
{
    let mut rest = behind_zero_blocks(digits);
    'zeros: while let Some((first, more)) = rest.split_first() {
        if *first != ZERO {
            return rest;
        }
        rest = more;
    }
    rest
}

// What stands behind the blocks of zeros in front.
fn behind_zero_blocks(digits: &[u16]) -> &[u16]
    ensures { without_front is_zero result.now ≡ without_front is_zero digits.now }
{
    let mut rest = digits;
    'zeros: while let Some((block, more)) = rest.split_first_chunk::<BLOCK>() {
        if !is_all_zeros(block) {
            return rest;
        }
        rest = more;
    }
    rest
}

// Whether a block is zeros. Each code is tested, so that many can be tested at once.
fn is_all_zeros(block: &[u16; BLOCK]) -> bool
    ensures { result ≡ list_all is_zero block.now }
{
    let mut all = true;
    'codes: for code in block {
        all &= *code == ZERO;
    }
    all
}

// The number of a few digits, and None where there is another code.
fn number_of(digits: &[u16]) -> Option<u64>
    requires { length digits.now ≤ 10 }
    ensures number { result ≡ option_map capped (digits_number digits.now) }
    ensures small { IfSome result (λ number. number ≤ 4294967296) }
{
    law_of_decimals();
    let mut number: u64 = 0;
    'digits: for digit in digits {
        number = (number * 10 + decimal_digit(*digit)?).min(TOO_MANY);
    }
    Some(number)
}

fn decimal_digit(code: u16) -> Option<u64>
    ensures digit { is_some result ≡ is_decimal_digit code }
    ensures value { IfSome result (λ value. value ≡ code - 48) }
    ensures small { IfSome result (λ value. value ≤ 9) }
{
    match code {
        0x30..=0x39 => Some(u64::from(code - 0x30)),
        _ => None,
    }
}
