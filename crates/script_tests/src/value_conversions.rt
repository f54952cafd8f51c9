//! Values that are converted and operated on, and what that is charged.

ghost use Rattle.std.specs.Prelude.{◌<◌, length};
ghost use Rattle.es_values.specs.Heaps.{IsLive};

use crate::lines::Line;
use crate::object_words::add_object;
use crate::value_words::{push_value, value_of};
use bml_bytes::{NoMemory, Text};
use es_values::{Budget, Heap, Value};
use std::alloc::Global;
use std::cmp::Ordering;

fn push_truth(truth: bool, out: &mut Line) {
    out.word(if truth { b"yes " } else { b"no " });
}

/// Appends the text of a value, its number, whether it counts as true, and its type's name.
pub fn push_converted(alloc: Global, word: &[u8], out: &mut Line) -> Result<(), NoMemory> {
    let heap = Heap::new(alloc);
    push_conversions(&heap, word, out)
}

fn push_conversions(heap: &Heap, word: &[u8], out: &mut Line) -> Result<(), NoMemory> {
    let value = value_of(heap, word)?;
    out.text(&heap.to_text(&value)?);
    out.byte(b' ');
    push_value(heap, &Value::Number(heap.to_number(&value)?), out);
    out.byte(b' ');
    push_truth(value.truth(), out);
    out.word(value.type_name().as_bytes());
    Ok(())
}

/// Appends whether two values are equal, what `+` gives of them, and how they are ordered.
pub fn push_operated(
    alloc: Global,
    left: &[u8],
    right: &[u8],
    out: &mut Line,
) -> Result<(), NoMemory> {
    let heap = Heap::new(alloc);
    push_operations(&heap, left, right, out)
}

fn push_operations(heap: &Heap, left: &[u8], right: &[u8], out: &mut Line) -> Result<(), NoMemory> {
    let left = value_of(heap, left)?;
    let right = value_of(heap, right)?;
    push_answers(heap, &left, &right, out)
}

fn push_answers(heap: &Heap, left: &Value, right: &Value, out: &mut Line) -> Result<(), NoMemory>
    requires left { IsLive heap.now left.now }
    requires right { IsLive heap.now right.now }
{
    push_truth(heap.equality(left, right)?, out);
    push_value(heap, &heap.addition(left, right)?, out);
    out.byte(match heap.order(left, right)? {
        Some(Ordering::Less) => b'<',
        Some(Ordering::Equal) => b'=',
        Some(Ordering::Greater) => b'>',
        None => b'?',
    });
    Ok(())
}

// Takes a charge for the array; `&` is `join` with an empty separator, and `l` a put of `length`.
fn is_taken(
    heap: &Heap,
    array: u64,
    kind: u8,
    right: &Value,
    budget: &mut Budget,
) -> Result<bool, NoMemory>
    requires array { array < length heap.now }
    requires right { IsLive heap.now right.now }
{
    let value = Value::Object(array);
    let name = Text::of_bytes(heap.allocator(), if kind == b'l' { b"length" } else { b"" })?;
    match kind {
        b'1' => Ok(budget.charge(1)),
        b'6' => Ok(budget.charge_sixteens(17)),
        b'c' => Ok(budget.charge_conversion(heap, &value)),
        b'&' => Ok(budget.charge_join(heap, array, &name)),
        b'+' => Ok(budget.charge_addition(heap, &value, right)),
        b'=' => Ok(budget.charge_equality(heap, &value, right)),
        b'<' => Ok(budget.charge_order(heap, &value, right)),
        b'l' => budget.charge_put(heap, array, &name, right),
        _ => Ok(budget.charge(101)),
    }
}

/// Appends what is left of 100 steps behind a charge for an array of these words, with `over` in
/// front where it isn't taken.
pub fn push_left(
    alloc: Global,
    kind: u8,
    words: &[u8],
    right: &[u8],
    out: &mut Line,
) -> Result<(), NoMemory> {
    let mut heap = Heap::new(alloc);
    let array = add_object(&mut heap, true, words)?;
    push_charged(&heap, array, kind, right, out)
}

fn push_charged(
    heap: &Heap,
    array: u64,
    kind: u8,
    right: &[u8],
    out: &mut Line,
) -> Result<(), NoMemory> {
    let right = value_of(heap, right)?;
    let mut budget = Budget { left: 100 };
    if array < heap.len() && !is_taken(heap, array, kind, &right, &mut budget)? {
        out.word(b"over ");
    }
    out.count(u64::from(budget.left));
    Ok(())
}
