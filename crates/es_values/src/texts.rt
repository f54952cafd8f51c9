//! Texts of values that are no objects, and of numbers.

ghost use Rattle.std.specs.Prelude.{◌≡◌, ◌<◌, ◌≤◌, ◌+◌, ◌*◌, ◌-◌, ◌++◌, min, length, IfOk, OnOk, codes};
ghost use Rattle.std.specs.Option.{ForSome};
ghost use Rattle.bml_bytes.specs.Numerals.{decimal_digits, decimal_number as spec_decimal_number, signed_decimal_digits};
ghost use Rattle.bml_bytes.specs.Words.{is_same};
ghost use Rattle.es_values.specs.Values.{number_text, plain_text, truth_text};
ghost use Rattle.es_values.specs.Conversions.{element_text};
ghost use Rattle.es_values.specs.Heaps.{index_of};
ghost use Rattle.es_values.specs.Slots.{is_element_name};

use crate::numbers::Num;
use crate::values::Value;
use bml_bytes::{NoMemory, Text};
use std::alloc::Global;

/// The name of the element at a place: its decimal text.
pub fn index_name(alloc: Global, place: u32) -> Result<Text, NoMemory>
    ensures { IfOk result (λ name. name ≡ decimal_digits place) }
{
    let mut name = Vec::with_capacity(alloc, digit_count(place))?;
    push_digits(u64::from(place), &mut name)?;
    Text::of_vec(name)
}

// No index has more digits in its decimal text.
const MOST_INDEX_CODES: usize = 10;

/// The place whose element has this name, and None where it is no element's: only the decimal text of 0
/// to 2,147,483,646 is one's. A name that is longer than these isn't read.
#[tactic(auto, unfolding(crate::specs::Heaps::index_of))]
pub fn index_of_name(name: &Text) -> Option<u32>
    ensures index { result ≡ index_of name.now }
    ensures bound { ForSome result (λ place. place < 2147483647) }
{
    if name.len() > MOST_INDEX_CODES {
        return None;
    }
    let number = decimal_number(name.codes());
    if number < 2_147_483_647 && is_decimal_text(name.codes(), number) {
        Some(number as u32)
    } else {
        None
    }
}

// Whether the name is that of an element at a place or behind it.
pub fn is_element_from(place: u32, name: &Text) -> bool
    ensures { result ≡ is_element_name place name.now }
{
    match index_of_name(name) {
        Some(index) => place <= index,
        None => false,
    }
}

// Appends the text of a value, where an object isn't looked into.
pub fn push_plain_text(value: &Value, out: &mut Vec<u16>) -> Result<(), NoMemory>
    ensures { OnOk result (out.new.items ≡ out.old.items ++ plain_text value.now) }
{
    match value {
        Value::Undefined => push_word("undefined", out),
        Value::Null => push_word("null", out),
        Value::Bool(truth) => push_truth(*truth, out),
        Value::Number(number) => push_number_text(*number, out),
        Value::Str(text) => push_codes(text.codes(), out),
        Value::Object(_) => push_word("[object Object]", out),
        Value::Function(_) => push_word("[function]", out),
        Value::Host(_) => push_word("[object]", out),
    }
}

// Appends an element's part of its array's text.
pub fn push_element_text(value: &Value, out: &mut Vec<u16>) -> Result<(), NoMemory>
    ensures { OnOk result (out.new.items ≡ out.old.items ++ element_text value.now) }
{
    match value {
        Value::Undefined | Value::Null => Ok(()),
        _ => push_plain_text(value, out),
    }
}

// How many codes the text of a value has, where an object isn't looked into.
pub fn plain_length(value: &Value) -> usize
    ensures { result ≡ length (plain_text value.now) }
{
    match value {
        Value::Undefined => 9,
        Value::Null => 4,
        Value::Bool(true) => 4,
        Value::Bool(false) => 5,
        Value::Number(number) => number_length(*number),
        Value::Str(text) => text.len(),
        Value::Object(_) => 15,
        Value::Function(_) => 10,
        Value::Host(_) => 8,
    }
}

// How many codes an element's part of its array's text has.
pub fn element_length(value: &Value) -> usize
    ensures { result ≡ length (element_text value.now) }
{
    match value {
        Value::Undefined | Value::Null => 0,
        _ => plain_length(value),
    }
}

// Appends the codes of a text.
pub fn push_codes(codes: &[u16], out: &mut Vec<u16>) -> Result<(), NoMemory>
    ensures { OnOk result (out.new.items ≡ out.old.items ++ codes.now) }
{
    out.extend_from_slice(codes)?;
    Ok(())
}

// Appends a word of ASCII.
pub fn push_word(word: &str, out: &mut Vec<u16>) -> Result<(), NoMemory>
    ensures { OnOk result (out.new.items ≡ out.old.items ++ word.now) }
{
    push_ascii(word.as_bytes(), out)
}

// Appends bytes, each as a code.
fn push_ascii(bytes: &[u8], out: &mut Vec<u16>) -> Result<(), NoMemory>
    ensures { OnOk result (out.new.items ≡ out.old.items ++ bytes.now) }
{
    let mut rest = bytes;
    'bytes: while let Some((byte, more)) = rest.split_first() {
        out.push(u16::from(*byte))?;
        rest = more;
    }
    Ok(())
}

fn push_truth(truth: bool, out: &mut Vec<u16>) -> Result<(), NoMemory>
    ensures { OnOk result (out.new.items ≡ out.old.items ++ truth_text truth) }
{
    if truth {
        push_word("true", out)
    } else {
        push_word("false", out)
    }
}

fn push_number_text(number: Num, out: &mut Vec<u16>) -> Result<(), NoMemory>
    ensures { OnOk result (out.new.items ≡ out.old.items ++ number_text number) }
{
    match number {
        Num::NotANumber => push_word("NaN", out),
        Num::Whole(whole) => push_number(i64::from(whole), out),
    }
}

fn push_number(number: i64, out: &mut Vec<u16>) -> Result<(), NoMemory>
    ensures { OnOk result (out.new.items ≡ out.old.items ++ signed_decimal_digits number) }
{
    if number < 0 {
        out.push(45)?;
    }
    push_digits(number.unsigned_abs(), out)
}

// Appends the digits of a number in base ten.
fn push_digits(number: u64, out: &mut Vec<u16>) -> Result<(), NoMemory>
    ensures { OnOk result (out.new.items ≡ out.old.items ++ decimal_digits number) }
{
    if number >= 10 {
        push_digits(number / 10, out)?;
    }
    out.push(48 + (number % 10) as u16)?;
    Ok(())
}

fn number_length(number: Num) -> usize
    ensures { result ≡ length (number_text number) }
{
    match number {
        Num::NotANumber => 3,
        Num::Whole(whole) => whole_length(whole),
    }
}

fn whole_length(whole: i32) -> usize
    ensures { result ≡ length (signed_decimal_digits whole) }
{
    let digits = digit_count(whole.unsigned_abs());
    if whole < 0 { digits + 1 } else { digits }
}

// How many digits a number has in base ten.
fn digit_count(number: u32) -> usize
    ensures count { result ≡ length (decimal_digits number) }
    ensures small { result ≤ number + 1 }
{
    if number < 10 {
        1
    } else {
        digit_count(number / 10) + 1
    }
}

// The number that the codes are as decimal digits, or a greater one than an index where it is greater.
fn decimal_number(codes: &[u16]) -> u64
    ensures { result ≡ min 4294967296 (spec_decimal_number codes.now) }
{
    let mut number = 0;
    let mut rest = codes;
    'digits: while let Some((digit, more)) = rest.split_first() {
        number = with_decimal_digit(number, *digit);
        rest = more;
    }
    number
}

fn with_decimal_digit(number: u64, digit: u16) -> u64
    requires { number ≤ 4294967296 }
    ensures { result ≡ min 4294967296 (number * 10 + (digit - 48)) }
{
    let more = number * 10 + u64::from(digit.saturating_sub(48));
    more.min(4_294_967_296)
}

// Whether the codes are the decimal text of a number.
fn is_decimal_text(codes: &[u16], number: u64) -> bool
    ensures { result ≡ is_same codes.now (decimal_digits number) }
{
    match codes.split_last() {
        None => false,
        Some((last, front)) => {
            if u64::from(*last) != 48 + number % 10 {
                false
            } else if number < 10 {
                front.is_empty()
            } else {
                is_decimal_text(front, number / 10)
            }
        }
    }
}
