//! Numbers that are read and written in other bases than ten, and the codes of numbers.

ghost use Rattle.std.specs.Prelude.{◌≡◌, ◌<◌, ◌≤◌, ◌^◌, ◌++◌, ◌∷◌, ℕ, suc, length, codes, take, drop, nat_lt, if◌then◌else◌, IfOk, OnOk};
ghost use Rattle.std.specs.List.{prefix_len};
ghost use Rattle.bml_bytes.specs.Numerals.{digit_character as spec_digit_character};
ghost use Rattle.es_values.specs.Numerals.{is_digit_in as spec_is_digit_in};
ghost use Rattle.es_values.specs.devices.Runs.{is_zero, without_front};
ghost use Rattle.es_builtins.specs.Numerals.{base_or_ten as spec_base_or_ten, begins_hex, code_of_number as spec_code_of_number, digits_at_front as spec_digits_at_front, digits_within, number_at_front as spec_number_at_front, number_text_in as spec_number_text_in, parsed, radix_of_number, signed_digits, signed_front as spec_signed_front, unsigned_front as spec_unsigned_front};

use bml_bytes::{NoMemory, Text};
use es_values::{Num, digit_value, number_of_digits, signed_number, trimmed};
use std::alloc::Global;

const MINUS: u16 = 0x2D;

const PLUS: u16 = 0x2B;

/// So many digits write a number out of range in each base, where the first of them isn't 0.
const DIGITS_PAST_RANGE: usize = 33;

/// Zeros in front of a number are passed by so many at once.
const ZEROS: [u16; 512] = [0x30; 512];

/// The number at the front of a text: white counts for nothing, then come a sign, `0x` where the
/// radix is 16 or told by it, and as many digits as there are. The radix 0 is told by the text: 16
/// behind `0x`, and else 10. NaN is the number of no digits, past the range, and of a radix outside
/// of 2 to 36. (ECMA-262 second edition, 15.1.2.2, over whole numbers.)
///
/// White at either end changes nothing, and is passed as that of the number of a text is.
pub fn parse_int(text: &[u16], radix: Num) -> Num
    ensures { result ≡ parsed text.now (radix_of_number radix) }
{
    signed_front(radix, trimmed(text))
}

// The number at a front that may have a sign.
fn signed_front(radix: Num, text: &[u16]) -> Num
    ensures { result ≡ spec_signed_front (radix_of_number radix) text.now }
{
    match text {
        [MINUS, rest @ ..] => unsigned_front(true, radix, rest),
        [PLUS, rest @ ..] => unsigned_front(false, radix, rest),
        _ => unsigned_front(false, radix, text),
    }
}

// The number at a front without a sign.
fn unsigned_front(negative: bool, radix: Num, text: &[u16]) -> Num
    ensures { result ≡ spec_unsigned_front negative (radix_of_number radix) text.now }
{
    match radix {
        Num::Whole(0) => prefixed_front(negative, 10, text),
        Num::Whole(16) => prefixed_front(negative, 16, text),
        Num::Whole(base @ 2..=36) => number_at_front(negative, base as u64, text),
        _ => Num::NotANumber,
    }
}

// The number at a front that may have a `0x`, and is in this base without it.
fn prefixed_front(negative: bool, base: u64, text: &[u16]) -> Num
    requires some { 2 ≤ base }
    requires most { base ≤ 36 }
    ensures { result ≡ (if begins_hex text.now
        then spec_number_at_front negative 16 (drop 2 text.now)
        else spec_number_at_front negative base text.now) }
{
    match text.strip_prefix(&[0x30, 0x78]) {
        Some(digits) => number_at_front(negative, 16, digits),
        None => number_at_front(negative, base, text),
    }
}

// The number that the longest digits at the front write. Behind the zeros in front no more digits
// are read than tell whether it is in range.
fn number_at_front(negative: bool, base: u64, text: &[u16]) -> Num
    requires some { 2 ≤ base }
    requires most { base ≤ 36 }
    ensures { result ≡ spec_number_at_front negative base text.now }
{
    if !begins_with_digit(base, text) {
        return Num::NotANumber;
    }
    let digits = digits_at_front(base, first_codes(without_zeros(text)));
    signed_number(negative, number_of_digits(base, digits))
}

fn begins_with_digit(base: u64, text: &[u16]) -> bool
    ensures { result ≡ nat_lt 0 (length (spec_digits_at_front base text.now)) }
{
    match text {
        [first, ..] => is_digit_in(base, *first),
        [] => false,
    }
}

// As many codes as can be digits of a number in range, and one more.
fn first_codes(text: &[u16]) -> &[u16]
    ensures { result.now ≡ take DIGITS_PAST_RANGE text.now }
{
    &text[..text.len().min(DIGITS_PAST_RANGE)]
}

fn digits_at_front(base: u64, text: &[u16]) -> &[u16]
    ensures { result.now ≡ spec_digits_at_front base text.now }
{
    &text[..digit_count(base, text)]
}

// With how many digits of a base a text begins.
fn digit_count(base: u64, text: &[u16]) -> usize
    ensures count { result ≡ prefix_len (spec_is_digit_in base) text.now }
    ensures bound { result ≤ length text.now }
{
    text.iter()
        .take_while(|code| is_digit_in(base, **code))
        .count()
}

fn is_digit_in(base: u64, code: u16) -> bool
    ensures { result ≡ spec_is_digit_in base code }
{
    digit_value(code) < base
}

// What stands behind the zeros in front.
fn without_zeros(text: &[u16]) -> &[u16]
    ensures { result.now ≡ without_front is_zero text.now }
{
    let mut rest = behind_zero_blocks(text);
    'zeros: while let Some((first, more)) = rest.split_first() {
        if *first != 0x30 {
            return rest;
        }
        rest = more;
    }
    rest
}

// The text behind the blocks of zeros in front.
fn behind_zero_blocks(text: &[u16]) -> &[u16]
    ensures { without_front is_zero result.now ≡ without_front is_zero text.now }
{
    let zeros = &ZEROS;
    let mut rest = text;
    'copies: while let Some(more) = rest.strip_prefix(zeros) {
        rest = more;
    }
    rest
}

/// The base that a number asks for: 2 to 36, and else ten.
pub fn base_or_ten(number: Num) -> u32
    ensures base { result ≡ spec_base_or_ten number }
    ensures least { 2 ≤ result }
    ensures most { result ≤ 36 }
{
    match number {
        Num::Whole(base @ 2..=36) => base.unsigned_abs(),
        _ => 10,
    }
}

/// A number's text in a base: `-` in front of a negative one, digits above 9 in lower case, and NaN
/// as `NaN`. (15.7.4.2, over whole numbers.)
pub fn number_text_in(alloc: Global, base: u32, number: Num) -> Result<Text, NoMemory>
    requires least { 2 ≤ base }
    requires most { base ≤ 36 }
    ensures { IfOk result (λ text. text ≡ spec_number_text_in base number) }
{
    match number {
        Num::NotANumber => Text::of_codes(alloc, &[0x4E, 0x61, 0x4E]),
        Num::Whole(whole) => {
            let mut digits = Vec::new(alloc);
            push_signed_digits(base, whole, &mut digits)?;
            Text::of_vec(digits)
        }
    }
}

fn push_signed_digits(base: u32, whole: i32, out: &mut Vec<u16>) -> Result<(), NoMemory>
    requires least { 2 ≤ base }
    requires most { base ≤ 36 }
    ensures { OnOk result (out.new.items ≡ out.old.items ++ signed_digits base whole) }
{
    if whole < 0 {
        out.push(MINUS)?;
    }
    push_digits(base, whole.unsigned_abs(), out)
}

// Appends the digits of a number, however many are allowed for it.
fn push_digits(base: u32, number: u32, out: &mut Vec<u16>) -> Result<(), NoMemory>
    requires least { 2 ≤ base }
    requires most { base ≤ 36 }
    ensures { (more : ℕ) → number < base ^ suc more
        → OnOk result (out.new.items ≡ out.old.items ++ digits_within base more number) }
{
    if number >= base {
        push_digits(base, number / base, out)?;
    }
    out.push(digit_character(number % base))?;
    Ok(())
}

// `0` to `9`, and then `a` to `z`.
fn digit_character(digit: u32) -> u16
    requires { digit < 36 }
    ensures { result ≡ spec_digit_character digit }
{
    if digit < 10 {
        0x30 + digit as u16
    } else {
        0x57 + digit as u16
    }
}

/// The code of a number: that number modulo 65,536, and 0 of NaN. (15.5.3.2.)
pub fn code_of_number(number: Num) -> u16
    ensures { result ≡ spec_code_of_number number }
{
    match number {
        Num::NotANumber => 0,
        Num::Whole(whole) => (whole.cast_unsigned() % 65536) as u16,
    }
}
