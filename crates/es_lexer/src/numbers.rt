//! Numbers as they are written in a script.

ghost use Rattle.std.specs.Prelude.{◌≡◌, true, pos, length, map, nat_lt, if◌then◌else◌, ◌≤◌, ◌<◌, ◌*◌, ◌+◌, option_map, min};
ghost use Rattle.bml_bytes.specs.Numbers.{number_in};
ghost use Rattle.es_lexer.specs.Codes.{digit_value as spec_digit_value};
ghost use Rattle.es_lexer.specs.Scanning.{changed};
ghost use Rattle.es_lexer.specs.ScannedNumbers.{ends_number as spec_ends_number, is_whole as spec_is_whole, wants_digits, digits_at, number_at, value_of_digits};
ghost use Rattle.es_lexer.specs.Numbers.{radix, is_digit_in, number_written, most_number};
ghost use Rattle.es_lexer.specs.Views.{base_of, found_value, in_class};

use crate::codes::{CodeClass, digit_value, is_identifier_part, split_run, stripped};

/// The bases in which a number may be written.
#[derive(Clone, Copy, Debug, PartialEq, Eq)]
pub enum Base {
    Decimal,
    Octal,
    Hexadecimal,
}

/// The number at the front, where a decimal digit is there, and what stands behind it.
#[tactic(auto, unfolding(crate::specs::ScannedNumbers::number_at))]
pub fn number(codes: &[u16]) -> Option<(i32, &[u16])>
    ensures { option_map found_value result
        ≡ option_map (changed value_of_digits) (number_at codes.now) }
{
    match stripped(codes, b"0x") {
        Some(rest) => return number_in_base(Base::Hexadecimal, rest),
        None => {}
    }
    match stripped(codes, b"0") {
        Some(rest) => number_in_base(Base::Octal, rest),
        None => number_in_base(Base::Decimal, codes),
    }
}

// The number whose digits these codes begin with, and what stands behind it.
#[tactic(auto, unfolding(crate::specs::ScannedNumbers::digits_at))]
fn number_in_base(base: Base, codes: &[u16]) -> Option<(i32, &[u16])>
    ensures { option_map found_value result
        ≡ option_map (changed value_of_digits) (digits_at (base_of base) codes.now) }
{
    let (digits, rest) = split_run(class_of(base), codes);
    let value = number_of(radix_of(base), digits);
    if is_whole(base, digits, value, rest) {
        Some((signed(value), rest))
    } else {
        None
    }
}

// Whether these digits, which write this number or one that is too great, are a number in front of
// these codes.
#[tactic(auto, unfolding(crate::specs::ScannedNumbers::is_whole))]
fn is_whole(base: Base, digits: &[u16], value: u64, rest: &[u16]) -> bool
    requires { value ≡ min 2147483648 (number_written (base_of base) digits.now) }
    ensures whole { result ≡ spec_is_whole (base_of base) digits.now rest.now }
    ensures small { result ≡ true → value ≤ most_number }
    ensures exact { result ≡ true → value ≡ number_written (base_of base) digits.now }
{
    has_wanted_digits(base, digits) && value <= MOST_NUMBER && ends_number(rest)
}

fn has_wanted_digits(base: Base, digits: &[u16]) -> bool
    ensures { result
        ≡ (if wants_digits (base_of base) then nat_lt 0 (length digits.now) else true) }
{
    match base {
        Base::Hexadecimal => !digits.is_empty(),
        _ => true,
    }
}

fn signed(value: u64) -> i32
    requires { value ≤ most_number }
    ensures { result ≡ pos value }
{
    value as i32
}

const MOST_NUMBER: u64 = 2_147_483_647;

fn radix_of(base: Base) -> u64
    ensures { result ≡ radix (base_of base) }
{
    match base {
        Base::Decimal => 10,
        Base::Octal => 8,
        Base::Hexadecimal => 16,
    }
}

fn class_of(base: Base) -> CodeClass
    ensures { in_class result ≡ is_digit_in (base_of base) }
{
    match base {
        Base::Decimal => CodeClass::DecimalDigit,
        Base::Octal => CodeClass::OctalDigit,
        Base::Hexadecimal => CodeClass::HexDigit,
    }
}

// Whether a number may end in front of these codes.
#[tactic(auto, unfolding(crate::specs::ScannedNumbers::ends_number))]
fn ends_number(codes: &[u16]) -> bool
    ensures { result ≡ spec_ends_number codes.now }
{
    match codes.first() {
        Some(code) => !(is_identifier_part(*code) || *code == u16::from(b'.')),
        None => true,
    }
}

// The number of some digits, or the least one that is too great.
#[tactic(auto, using(crate::proofs::NumberLemmas::number_behind_zero))]
fn number_of(radix: u64, digits: &[u16]) -> u64
    requires some { 0 < radix }
    requires most { radix ≤ 16 }
    ensures { result ≡ min 2147483648 (number_in radix (map spec_digit_value digits.now)) }
{
    let mut number = 0;
    let mut rest = digits;
    'digits: while let Some((digit, more)) = rest.split_first() {
        number = with_digit(number, radix, *digit);
        rest = more;
    }
    number
}

// The number with one digit more, or the least one that is too great.
fn with_digit(number: u64, radix: u64, digit: u16) -> u64
    requires small { number ≤ 2147483648 }
    requires radix { radix ≤ 16 }
    ensures { result ≡ min 2147483648 (number * radix + spec_digit_value digit) }
{
    let more = number * radix + u64::from(digit_value(digit));
    more.min(MOST_NUMBER + 1)
}
