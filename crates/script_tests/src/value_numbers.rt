//! Numbers: what operators give, which numbers texts mean, and which names are indices.

use crate::lines::Line;
use bml_bytes::{NoMemory, Text};
use es_values::{Num, index_name, index_of_name, number_of_text};
use std::alloc::Global;

// The number that a text means.
fn number_of(alloc: Global, bytes: &[u8]) -> Result<Num, NoMemory> {
    let text = Text::of_bytes(alloc, bytes)?;
    Ok(number_of_text(text.codes()))
}

// Appends a number in base ten, or `NaN`.
fn push_number(number: Num, out: &mut Line) {
    match number {
        Num::NotANumber => out.word(b"NaN"),
        Num::Whole(whole) => out.number(i64::from(whole)),
    }
}

// What an operator gives; `l`, `r` and `u` are the shifts to the left, to the right and without
// sign.
fn operate(operator: u8, left: Num, right: Num) -> Num {
    match operator {
        b'+' => left.add(right),
        b'-' => left.subtract(right),
        b'*' => left.multiply(right),
        b'/' => left.divide(right),
        b'%' => left.remainder(right),
        b'&' => left.bitwise_and(right),
        b'|' => left.bitwise_or(right),
        b'^' => left.bitwise_xor(right),
        b'l' => left.left_shift(right),
        b'r' => left.signed_right_shift(right),
        b'u' => left.unsigned_right_shift(right),
        b'~' => left.bitwise_not(),
        _ => left.negate(),
    }
}

/// Appends what an operator gives of two numbers.
pub fn push_operator(
    alloc: Global,
    operator: u8,
    left: &[u8],
    right: &[u8],
    out: &mut Line,
) -> Result<(), NoMemory> {
    let left = number_of(alloc, left)?;
    let right = number_of(alloc, right)?;
    push_number(operate(operator, left, right), out);
    Ok(())
}

/// Appends how two numbers are compared: `=` where they are equal, `<` where the left one is less,
/// and `?` where it is NaN.
pub fn push_comparison(
    alloc: Global,
    left: &[u8],
    right: &[u8],
    out: &mut Line,
) -> Result<(), NoMemory> {
    let left = number_of(alloc, left)?;
    let right = number_of(alloc, right)?;
    if left.equals(right) {
        out.byte(b'=');
    }
    if left.is_less_than(right) {
        out.byte(b'<');
    }
    if left.is_not_a_number() {
        out.byte(b'?');
    }
    Ok(())
}

/// Appends the number that a text means.
pub fn push_numeral(alloc: Global, bytes: &[u8], out: &mut Line) -> Result<(), NoMemory> {
    push_number(number_of(alloc, bytes)?, out);
    Ok(())
}

/// Appends the number of a count.
pub fn push_count(count: u32, out: &mut Line) {
    push_number(Num::of_count(count as usize), out);
}

/// Appends the index that the name of an index means, and nothing where it means none.
pub fn push_index(alloc: Global, index: u32, out: &mut Line) -> Result<(), NoMemory> {
    let name = index_name(alloc, index)?;
    if let Some(meant) = index_of_name(&name) {
        out.count(u64::from(meant));
    }
    Ok(())
}
