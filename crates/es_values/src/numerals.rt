//! The number that a text means.

ghost use Rattle.std.specs.Prelude.{◌≡◌, ◌<◌, ◌≤◌, ◌*◌, ◌+◌, ℕ, Bool, true, false, pos, length, min, nat_eq, codes, drop, if◌then◌else◌};
ghost use Rattle.std.specs.List.{list_all, starts_with};
ghost use Rattle.es_values.specs.devices.Runs.{is_zero, without_end, without_front};
ghost use Rattle.es_values.specs.Numerals.{digit_value as spec_digit_value, is_digit_in as spec_is_digit_in, is_white as spec_is_white, number_in_range, number_of_text as spec_number_of_text, number_written, numeral as spec_numeral, signed, signed_numeral as spec_signed_numeral, trimmed as spec_trimmed, without_white_front as spec_without_white_front};

use crate::numbers::Num;

/// What no number of digits passes here: past it, each number is out of the range of numbers.
const MOST_MAGNITUDE: u64 = 4_294_967_296;

/// More digits than these write a number past that one in each base, where the first of them isn't 0.
const MOST_DIGITS: usize = 32;

/// How many codes of a long text are tested at once, and passed if all of them are white or zeros.
const BLOCK: usize = 64;

/// The number that a text means: white at both ends counts for nothing, and what is left is empty, which
/// is 0, decimal digits behind `+`, behind `-` or alone, or `0x` and hexadecimal digits. Every other text,
/// and a number past the range, is NaN. (ECMA-262 second edition, 9.3.1, in this profile.)
pub fn number_of_text(text: &[u16]) -> Num
    ensures { result ≡ spec_number_of_text text.now }
{
    numeral(trimmed(text))
}

/// The text without the white at both ends: space, tab, vertical tab and form feed.
pub fn trimmed(text: &[u16]) -> &[u16]
    ensures { result.now ≡ spec_trimmed text.now }
{
    let mut rest = before_white_blocks(without_white_front(text));
    'end: while let Some((last, fewer)) = rest.split_last() {
        if !is_white(*last) {
            return rest;
        }
        rest = fewer;
    }
    rest
}

/// What a digit is worth, `a` to `z` in either case behind `0` to `9`, and 36 for every other code.
#[tactic(auto, unfolding(crate::specs::Numerals::digit_value))]
pub fn digit_value(code: u16) -> u64
    ensures value { result ≡ spec_digit_value code }
    ensures bound { result ≤ 36 }
{
    match code {
        0x30..=0x39 => u64::from(code - 0x30),
        0x41..=0x5A => u64::from(code - 0x37),
        0x61..=0x7A => u64::from(code - 0x57),
        _ => 36,
    }
}

/// The number that digits write, or 4,294,967,296 where it is greater.
pub fn number_of_digits(base: u64, digits: &[u16]) -> u64
    requires some { 0 < base }
    requires most { base ≤ 36 }
    ensures { result ≡ min 4294967296 (number_written base digits.now) }
{
    let mut number = 0;
    let mut rest = digits;
    'digits: while let Some((digit, more)) = rest.split_first() {
        number = with_digit(number, base, *digit);
        rest = more;
    }
    number
}

/// The number of this magnitude, negative or not, and NaN where it is out of range.
pub fn signed_number(negative: bool, magnitude: u64) -> Num
    ensures { result ≡ number_in_range (signed negative magnitude) }
{
    if magnitude >= MOST_MAGNITUDE {
        return Num::NotANumber;
    }
    if negative {
        ranged(-signed_magnitude(magnitude))
    } else {
        ranged(signed_magnitude(magnitude))
    }
}

fn signed_magnitude(magnitude: u64) -> i64
    requires { magnitude < 4294967296 }
    ensures { result ≡ pos magnitude }
{
    magnitude as i64
}

// A number of more bits, and NaN where it is out of range.
fn ranged(number: i64) -> Num
    ensures { result ≡ number_in_range number }
{
    match i32::try_from(number) {
        Ok(whole) => Num::Whole(whole),
        Err(_) => Num::NotANumber,
    }
}

// What a text without white at its ends means.
#[tactic(auto, unfolding(crate::specs::Numerals::numeral))]
fn numeral(text: &[u16]) -> Num
    ensures { result ≡ spec_numeral text.now }
{
    let (first, rest) = match text.split_first() {
        Some(parts) => parts,
        None => return Num::Whole(0),
    };
    if *first == 0x2B {
        return signed_numeral(false, 10, rest);
    }
    if *first == 0x2D {
        return signed_numeral(true, 10, rest);
    }
    unsigned_numeral(text)
}

fn unsigned_numeral(text: &[u16]) -> Num
    ensures { result
        ≡ (if starts_with nat_eq text.now (codes "0x")
        then spec_signed_numeral false 16 (drop 2 text.now)
        else spec_signed_numeral false 10 text.now) }
{
    match text.strip_prefix(&[0x30, 0x78]) {
        Some(digits) => signed_numeral(false, 16, digits),
        None => signed_numeral(false, 10, text),
    }
}

// What digits of a base mean behind a sign, and NaN where they are none. Behind the zeros in front no more
// codes are read than a number within the range has digits.
fn signed_numeral(negative: bool, base: u64, digits: &[u16]) -> Num
    requires some { 2 ≤ base }
    requires most { base ≤ 36 }
    ensures { result ≡ spec_signed_numeral negative base digits.now }
{
    if digits.is_empty() {
        return Num::NotANumber;
    }
    let written = without_zeros(digits);
    if written.len() > MOST_DIGITS {
        return Num::NotANumber;
    }
    if !are_all_digits(base, written) {
        return Num::NotANumber;
    }
    signed_number(negative, number_of_digits(base, written))
}

fn are_all_digits(base: u64, digits: &[u16]) -> bool
    ensures { result ≡ list_all (spec_is_digit_in base) digits.now }
{
    digits.iter().all(|code| is_digit_in(base, *code))
}

fn is_digit_in(base: u64, code: u16) -> bool
    ensures { result ≡ spec_is_digit_in base code }
{
    digit_value(code) < base
}

// The number with one digit more, or the greatest one.
fn with_digit(number: u64, base: u64, digit: u16) -> u64
    requires small { number ≤ 4294967296 }
    requires base { base ≤ 36 }
    ensures { result ≡ min 4294967296 (number * base + spec_digit_value digit) }
{
    let more = number * base + digit_value(digit);
    more.min(MOST_MAGNITUDE)
}

fn without_white_front(text: &[u16]) -> &[u16]
    ensures text { result.now ≡ spec_without_white_front text.now }
    ensures bound { length result.now ≤ length text.now }
{
    let mut rest = behind_white_blocks(text);
    'front: while let Some((first, more)) = rest.split_first() {
        if !is_white(*first) {
            return rest;
        }
        rest = more;
    }
    rest
}

// What stands behind the zeros in front.
fn without_zeros(digits: &[u16]) -> &[u16]
    ensures { result.now ≡ without_front is_zero digits.now }
{
    let mut rest = behind_zero_blocks(digits);
    'zeros: while let Some((first, more)) = rest.split_first() {
        if *first != 0x30 {
            return rest;
        }
        rest = more;
    }
    rest
}

// The text behind the blocks of white in front.
fn behind_white_blocks(text: &[u16]) -> &[u16]
    ensures text { spec_without_white_front result.now ≡ spec_without_white_front text.now }
    ensures bound { length result.now ≤ length text.now }
{
    let mut rest = text;
    'white: while rest.len() >= BLOCK {
        let (block, behind) = rest.split_at(BLOCK);
        if !is_all_white(block) {
            return rest;
        }
        rest = behind;
    }
    rest
}

// The text before the blocks of white at the end.
fn before_white_blocks(text: &[u16]) -> &[u16]
    ensures text { without_end spec_is_white result.now ≡ without_end spec_is_white text.now }
    ensures bound { length result.now ≤ length text.now }
{
    let mut rest = text;
    'white: while rest.len() >= BLOCK {
        let (before, block) = rest.split_at(rest.len() - BLOCK);
        if !is_all_white(block) {
            return rest;
        }
        rest = before;
    }
    rest
}

// The text behind the blocks of zeros in front.
fn behind_zero_blocks(text: &[u16]) -> &[u16]
    ensures text { without_front is_zero result.now ≡ without_front is_zero text.now }
    ensures bound { length result.now ≤ length text.now }
{
    let mut rest = text;
    'zeros: while rest.len() >= BLOCK {
        let (block, behind) = rest.split_at(BLOCK);
        if !is_all_zeros(block) {
            return rest;
        }
        rest = behind;
    }
    rest
}

// Whether each code of a block is white. All of them are read, so that many are tested at once.
fn is_all_white(block: &[u16]) -> bool
    ensures { result ≡ list_all spec_is_white block.now }
{
    let mut all = true;
    for code in block {
        all &= is_white(*code);
    }
    all
}

// Whether each code of a block is the digit 0. All of them are read, as those of white are.
fn is_all_zeros(block: &[u16]) -> bool
    ensures { result ≡ list_all is_zero block.now }
{
    let mut all = true;
    for code in block {
        all &= *code == 0x30;
    }
    all
}

#[tactic(auto, unfolding(crate::specs::Numerals::is_white))]
fn is_white(code: u16) -> bool
    ensures { result ≡ spec_is_white code }
{
    (code == 0x20) | (code == 0x09) | (code == 0x0B) | (code == 0x0C)
}
